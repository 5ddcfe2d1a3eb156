ghost use Rattle.std.specs.Prelude.{◌≤◌, IfSome, IfNone, length, take};
ghost use Rattle.std.specs.Io.KnownBytes.{Appends, Keeps};

use std::io::{ErrorKind, Write};

// Writes some of the bytes, one at least, and answers how many. To take nothing is to fail.
pub(crate) fn write_some<W: Write>(writer: &mut W, bytes: &[u8]) -> Option<usize>
    ensures some { IfSome result (λ count. 1 ≤ count) }
    ensures within { IfSome result (λ count. count ≤ length bytes.now) }
    ensures takes { IfSome result
        (λ count. Appends (W.contents writer.old) (W.contents writer.new) (take count bytes.now)) }
    ensures takes_none { IfNone result (Keeps (W.contents writer.old) (W.contents writer.new)) }
{
    for _ in 0..u64::MAX {
        match writer.write(bytes) {
            Ok(0) => return None,
            Ok(count) => return Some(count),
            Err(error) if error.kind() == ErrorKind::Interrupted => {}
            Err(_) => return None,
        }
    }
    None
}
