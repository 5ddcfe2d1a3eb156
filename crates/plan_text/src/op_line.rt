ghost use Rattle.std.specs.Prelude.{◌≡◌, ◌≢◌, ◌++◌, OnOk, OnErr, IfOk, IfSome, IfNone, take, length};
ghost use Rattle.std.specs.Option.{option_map};
ghost use Rattle.line_text.specs.Words.{words_of};
ghost use Rattle.plan_text.specs.OpLine.{op_line_bytes, IsOpLine, op_line_at};
ghost use Rattle.plan_text.specs.declared.op_line.OpLine.{OpLine};
ghost use Rattle.plan_text.specs.inside.Fields.{fields_line};

use item_lists::Items;
use line_text::{Words, keep_whole, push_number, push_text, push_word};
use plant_model::Name;
use std::alloc::{AllocError, Global};

/// An operation of a plan, as its line names it.
#[derive(Debug, Drop)]
pub struct OpLine {
    /// Which line of the plan it is, counted from 1.
    pub number: u32,
    /// The operation's name.
    pub name: Name,
    /// The minute in which it starts.
    pub start: u32,
    /// The minute in which it ends.
    pub end: u32,
    /// The volume that it moves.
    pub volume: u32,
}

/// The lines of a plan in order.
pub type OpLines = Items<OpLine>;

/// The words of a line, the name where it stands: in the text, in a line, or in a plant.
#[derive(Clone, Copy)]
pub(crate) struct Fields<'a> {
    pub(crate) number: u32,
    pub(crate) name: &'a [u8],
    pub(crate) start: u32,
    pub(crate) end: u32,
    pub(crate) volume: u32,
}

/// Writes the line of these words at the end, without its line feed.
pub(crate) fn write_fields(out: &mut Vec<u8>, fields: &Fields<'_>) -> Result<(), AllocError>
    ensures ok { OnOk result (out.new.items ≡ out.old.items ++ op_line_bytes (fields_line fields.now)) }
    ensures kept { take (length out.old.items) out.new.items ≡ out.old.items }
{
    push_text(out, b"op")?;
    push_number(out, u64::from(fields.number))?;
    push_word(out, fields.name)?;
    push_number(out, u64::from(fields.start))?;
    push_number(out, u64::from(fields.end))?;
    push_number(out, u64::from(fields.volume))?;
    Ok(())
}

/// Writes the line at the end, without its line feed, which is the caller's. Only a line whose name
/// is a name is read again as what it was.
pub fn push_op_line(out: &mut Vec<u8>, line: &OpLine) -> Result<(), AllocError>
    ensures ok { OnOk result (out.new.items ≡ out.old.items ++ op_line_bytes line.now) }
    ensures err { OnErr result (out.new.items ≡ out.old.items) }
{
    let fields = Fields {
        number: line.number,
        name: line.name.as_slice(),
        start: line.start,
        end: line.end,
        volume: line.volume,
    };
    let length = out.len();
    let written = write_fields(out, &fields);
    keep_whole(out, length, written)
}

const LARGEST: u64 = 0xffff_ffff;

#[tactic(auto, unfolding(crate::specs::OpLine::op_line_at))]
pub(crate) fn fields_of(line: &[u8]) -> Option<Fields<'_>>
    ensures { option_map fields_line result ≡ op_line_at (words_of line.now) }
{
    let mut words = Words::new(line);
    words.key(b"op")?;
    let number = words.decimal(LARGEST)? as u32;
    let name = words.name()?;
    let start = words.decimal(LARGEST)? as u32;
    let end = words.decimal(LARGEST)? as u32;
    let volume = words.decimal(LARGEST)? as u32;
    words.end()?;
    Some(Fields {
        number,
        name,
        start,
        end,
        volume,
    })
}

fn op_line_of(alloc: Global, line: &[u8]) -> Result<Option<OpLine>, AllocError>
    ensures { IfOk result (λ answer. answer ≡ op_line_at (words_of line.now)) }
{
    match fields_of(line) {
        None => Ok(None),
        Some(fields) => Ok(Some(OpLine {
            number: fields.number,
            name: Name::new(alloc, fields.name)?,
            start: fields.start,
            end: fields.end,
            volume: fields.volume,
        })),
    }
}

/// What the line, given without its line feed, says of an operation, or nothing where it is no such
/// line.
pub fn read_op_line(alloc: Global, line: &[u8]) -> Result<Option<OpLine>, AllocError>
    ensures found { IfOk result (λ answer. IfSome answer (λ read. IsOpLine read × (line.now ≡ op_line_bytes read))) }
    ensures none { IfOk result
        (λ answer. IfNone answer ((other : OpLine) → IsOpLine other → line.now ≢ op_line_bytes other)) }
    ensures exact { IfOk result (λ answer. answer ≡ op_line_at (words_of line.now)) }
{
    op_line_of(alloc, line)
}
