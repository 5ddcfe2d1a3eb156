ghost use Rattle.std.specs.Prelude.{◌≡◌, ◌<◌, ◌+◌, ◌^◌};
ghost use Rattle.dossier_text.specs.Faults.{Gives};
ghost use Rattle.dossier_text.specs.inside.ListReading.{op_at};

use crate::fault::DossierFault;
use crate::list_lines::LineItem;
use crate::steps::formed;
use plan_text::{OpLine, read_op_line};
use std::alloc::Global;

/// The operation that the text of a line says. They are numbered from 1.
#[tactic(auto, unfolding(crate::specs::inside::ListReading::op_at))]
fn op_at(alloc: Global, line: u32, index: u32, text: &[u8]) -> Result<OpLine, DossierFault>
    requires { index + 1 < 2 ^ 32 }
    ensures { Gives (λ op. op) result (op_at line index text.now) }
{
    let op = formed(line, read_op_line(alloc, text)?)?;
    if op.number == index + 1 {
        Ok(op)
    } else {
        Err(DossierFault::Line(line))
    }
}

impl LineItem for OpLine {
    ghost said = { op_at };

    fn read(alloc: Global, line: u32, index: u32, text: &[u8]) -> Result<OpLine, DossierFault> {
        op_at(alloc, line, index, text)
    }
}
