ghost use Rattle.std.specs.Prelude.{◌≡◌, ◌+◌, ◌≤◌, ◌<◌, IfOk, IfSome, length, vec_len};
ghost use Rattle.outer_edge.specs.Reading.{ConsumesAtMost};
ghost use Rattle.outer_edge.specs.ShelfFault.{OnTooLong};

use crate::shelf::ShelfFault;
use std::alloc::Global;
use std::io::{ErrorKind, Read};

pub(crate) const BUFFER_LEN: usize = 8192;

// What a reader has left, where it is no more than the limit. It reads at most one byte past the limit,
// and keeps none past it.
pub(crate) fn read_rest<F: Read>(
    file: &mut F,
    alloc: Global,
    limit: u64,
) -> Result<Vec<u8>, ShelfFault>
    ensures within { IfOk result (λ bytes. vec_len bytes ≤ limit) }
    ensures whole { IfOk result (λ bytes. IfSome (F.remaining file.old) (λ rest. bytes.items ≡ rest)) }
    ensures longer { OnTooLong result (IfSome (F.remaining file.old) (λ rest. limit < length rest)) }
    ensures frugal { ConsumesAtMost (F.remaining file.old) (F.remaining file.new) (limit + 1) }
{
    let mut bytes = Vec::new(alloc);
    let mut buffer = [0u8; BUFFER_LEN];
    for _ in 0..u64::MAX {
        let left = limit - bytes.len() as u64;
        let most = left.saturating_add(1).min(BUFFER_LEN as u64) as usize;
        match file.read(&mut buffer[..most]) {
            Ok(0) => return Ok(bytes),
            Ok(count) if count as u64 > left => return Err(ShelfFault::TooLong),
            Ok(count) => bytes
                .extend_from_slice(&buffer[..count])
                .map_err(|_| ShelfFault::Memory)?,
            Err(error) if error.kind() == ErrorKind::Interrupted => {}
            Err(_) => return Err(ShelfFault::Failed),
        }
    }
    Err(ShelfFault::Failed)
}

#[cfg(test)]
mod tests {
    use super::*;
    use std::io;
    use std::test::Fail;

    // Gives a byte at a time, is interrupted before each of them, and breaks after the last.
    struct Torn {
        calls: u32,
    }

    impl Read for Torn {
        fn read(&mut self, buf: &mut [u8]) -> io::Result<usize> {
            self.calls = self.calls.saturating_add(1);
            if self.calls > 6 {
                return Err(io::Error::from(ErrorKind::Other));
            }
            if self.calls % 2 == 1 || buf.is_empty() {
                return Err(io::Error::from(ErrorKind::Interrupted));
            }
            buf[0] = b'c';
            Ok(1)
        }
    }

    #[test]
    fn a_reader_that_breaks_gives_nothing(rt: HostRuntime) -> Result<(), Fail> {
        for (limit, fault) in [
            (2, ShelfFault::TooLong),
            (3, ShelfFault::Failed),
            (9, ShelfFault::Failed),
        ] {
            let mut torn = Torn { calls: 0 };
            let answer = read_rest(&mut torn, rt.alloc(), limit);
            assert_eq!(rt; answer.err(), Some(fault), "at {limit}");
            let Torn { calls: _ } = torn;
        }
        Ok(())
    }
}
