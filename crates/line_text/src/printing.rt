ghost use Rattle.std.specs.Prelude.{◌≡◌, [], ◌∷◌, ◌++◌, OnOk, OnErr, decimal, take};
ghost use Rattle.std.specs.Fmt.{signed_decimal};
ghost use Rattle.line_text.specs.Words.{line_of};

use itoa::Buffer;
use std::alloc::AllocError;

/// Writes the bytes at the end.
pub fn push_text(out: &mut Vec<u8>, bytes: &[u8]) -> Result<(), AllocError>
    ensures ok { OnOk result (out.new.items ≡ out.old.items ++ bytes.now) }
    ensures err { OnErr result (out.new.items ≡ out.old.items) }
{
    out.extend_from_slice(bytes)
}

/// Writes the digits of the number at the end.
pub fn push_decimal(out: &mut Vec<u8>, number: u64) -> Result<(), AllocError>
    ensures ok { OnOk result (out.new.items ≡ out.old.items ++ decimal number) }
    ensures err { OnErr result (out.new.items ≡ out.old.items) }
{
    out.extend_from_slice(Buffer::new().format(number).as_bytes())
}

/// Writes the digits of the number at the end, behind a `-` where it is below 0.
pub fn push_signed(out: &mut Vec<u8>, number: i64) -> Result<(), AllocError>
    ensures ok { OnOk result (out.new.items ≡ out.old.items ++ signed_decimal number) }
    ensures err { OnErr result (out.new.items ≡ out.old.items) }
{
    out.extend_from_slice(Buffer::new().format(number).as_bytes())
}

/// Takes back what stands past the length, where the writing of it failed.
pub fn keep_whole(
    out: &mut Vec<u8>,
    length: usize,
    written: Result<(), AllocError>,
) -> Result<(), AllocError>
    ensures outcome { result ≡ written }
    ensures ok { OnOk written (out.new.items ≡ out.old.items) }
    ensures err { OnErr written (out.new.items ≡ take length out.old.items) }
{
    if written.is_err() {
        out.truncate(length);
    }
    written
}

/// Writes a blank and then the word at the end.
pub fn push_word(out: &mut Vec<u8>, word: &[u8]) -> Result<(), AllocError>
    ensures ok { OnOk result (out.new.items ≡ out.old.items ++ 32 ∷ word.now) }
    ensures err { OnErr result (out.new.items ≡ out.old.items) }
{
    let length = out.len();
    push_text(out, b" ")?;
    let written = push_text(out, word);
    keep_whole(out, length, written)
}

/// Writes the mark, one byte, and then the digits of the number at the end.
pub fn push_marked(out: &mut Vec<u8>, mark: u8, number: u64) -> Result<(), AllocError>
    ensures ok { OnOk result (out.new.items ≡ out.old.items ++ mark ∷ decimal number) }
    ensures err { OnErr result (out.new.items ≡ out.old.items) }
{
    let length = out.len();
    out.push(mark)?;
    let written = push_decimal(out, number);
    keep_whole(out, length, written)
}

/// Writes a blank and then the digits of the number at the end.
pub fn push_number(out: &mut Vec<u8>, number: u64) -> Result<(), AllocError>
    ensures ok { OnOk result (out.new.items ≡ out.old.items ++ 32 ∷ decimal number) }
    ensures err { OnErr result (out.new.items ≡ out.old.items) }
{
    push_marked(out, b' ', number)
}

/// Writes a blank and then the digits of the number at the end, these behind a `-` where it is below 0.
pub fn push_signed_number(out: &mut Vec<u8>, number: i64) -> Result<(), AllocError>
    ensures ok { OnOk result (out.new.items ≡ out.old.items ++ 32 ∷ signed_decimal number) }
    ensures err { OnErr result (out.new.items ≡ out.old.items) }
{
    let length = out.len();
    push_text(out, b" ")?;
    let written = push_signed(out, number);
    keep_whole(out, length, written)
}

/// Writes a blank, the digits of the number and the end of a line at the end.
fn push_last_number(out: &mut Vec<u8>, number: u64) -> Result<(), AllocError>
    ensures ok { OnOk result (out.new.items ≡ out.old.items ++ (32 ∷ decimal number ++ 10 ∷ [])) }
    ensures err { OnErr result (out.new.items ≡ out.old.items) }
{
    let length = out.len();
    push_number(out, number)?;
    let written = push_text(out, b"\n");
    keep_whole(out, length, written)
}

/// Writes a line of the word and the count at the end.
pub fn push_count(out: &mut Vec<u8>, word: &[u8], count: u64) -> Result<(), AllocError>
    ensures ok { OnOk result (out.new.items ≡ out.old.items ++ (line_of (word.now ∷ decimal count ∷ []) ++ 10 ∷ [])) }
    ensures err { OnErr result (out.new.items ≡ out.old.items) }
{
    let length = out.len();
    push_text(out, word)?;
    let written = push_last_number(out, count);
    keep_whole(out, length, written)
}
