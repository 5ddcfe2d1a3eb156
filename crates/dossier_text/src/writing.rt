ghost use Rattle.std.specs.Prelude.{◌≡◌, [], ◌∷◌, ◌++◌, map, length, Some, OnOk, IfOk, decimal, codes};
ghost use Rattle.line_text.specs.Words.{line_of, text_of};
ghost use Rattle.plan_text.specs.OpLine.{op_line_words};
ghost use Rattle.dossier_text.specs.Entries.{signed_word};
ghost use Rattle.dossier_text.specs.Nodes.{cut_words, node_lines};
ghost use Rattle.dossier_text.specs.Text.{answer_word, format_lines, size_lines, claim_lines, plan_lines, cut_lines, dossier_bytes};

use crate::dossier::{CutLine, Dossier, Word3};
use crate::nodes::{write_cuts, write_nodes};
use line_text::{push_count, push_signed_number, push_text};
use plan_text::{OpLine, OpLines, push_op_line};
use std::alloc::{AllocError, Global};

fn write_answer(out: &mut Vec<u8>, answer: Word3) -> Result<(), AllocError>
    ensures { OnOk result (out.new.items ≡ out.old.items
        ++ (line_of (codes "answer" ∷ answer_word answer ∷ []) ++ 10 ∷ [])) }
{
    match answer {
        Word3::Plan => push_text(out, b"answer plan\n"),
        Word3::Infeasible => push_text(out, b"answer infeasible\n"),
        Word3::Open3 => push_text(out, b"answer open\n"),
    }
}

/// Writes a line of the word and the number, or that there is none.
fn write_claimed(out: &mut Vec<u8>, word: &[u8], number: Option<i64>) -> Result<(), AllocError>
    ensures { OnOk result (out.new.items ≡ out.old.items ++ (line_of (word.now ∷ signed_word number ∷ []) ++ 10 ∷ [])) }
{
    push_text(out, word)?;
    match number {
        None => push_text(out, b" none")?,
        Some(number) => push_signed_number(out, number)?,
    }
    push_text(out, b"\n")
}

#[tactic(auto, unfolding(crate::specs::Text::format_lines))]
fn write_format(out: &mut Vec<u8>) -> Result<(), AllocError>
    ensures { OnOk result (out.new.items ≡ out.old.items ++ text_of format_lines) }
{
    push_text(out, b"crude dossier 1\norder slots\n")
}

#[tactic(auto, unfolding(crate::specs::Text::size_lines))]
fn write_sizes(out: &mut Vec<u8>, dossier: &Dossier) -> Result<(), AllocError>
    ensures { OnOk result (out.new.items ≡ out.old.items ++ text_of (size_lines dossier.now.slots dossier.now.nodes)) }
{
    push_count(out, b"slots", u64::from(dossier.slots))?;
    push_count(out, b"nodes", u64::from(dossier.nodes))
}

/// Writes what is claimed, in three lines: the answer, the margin and the bound.
#[tactic(auto, unfolding(crate::specs::Text::claim_lines))]
pub fn write_claim(
    out: &mut Vec<u8>,
    answer: Word3,
    margin: Option<i64>,
    bound: Option<i64>,
) -> Result<(), AllocError>
    ensures { OnOk result (out.new.items ≡ out.old.items ++ text_of (claim_lines answer margin bound)) }
{
    write_answer(out, answer)?;
    write_claimed(out, b"margin", margin)?;
    write_claimed(out, b"bound", bound)
}

fn write_op_lines(out: &mut Vec<u8>, lines: &[OpLine]) -> Result<(), AllocError>
    ensures { OnOk result (out.new.items ≡ out.old.items ++ text_of (map op_line_words lines.now)) }
{
    for line in lines {
        push_op_line(out, line)?;
        push_text(out, b"\n")?;
    }
    Ok(())
}

#[tactic(auto, unfolding(crate::specs::Text::plan_lines))]
fn write_plan(out: &mut Vec<u8>, plan: &Option<OpLines>) -> Result<(), AllocError>
    ensures { OnOk result (out.new.items ≡ out.old.items ++ text_of (plan_lines plan.now)) }
{
    match plan {
        None => push_text(out, b"plan none\n"),
        Some(lines) => {
            let lines = lines.as_slice();
            push_count(out, b"plan", lines.len() as u64)?;
            write_op_lines(out, lines)
        }
    }
}

#[tactic(auto, unfolding(crate::specs::Text::cut_lines))]
fn write_cut_lines(out: &mut Vec<u8>, cuts: &[CutLine]) -> Result<(), AllocError>
    ensures { OnOk result (out.new.items ≡ out.old.items ++ text_of (cut_lines cuts.now)) }
{
    push_count(out, b"cuts", cuts.len() as u64)?;
    write_cuts(out, cuts)
}

/// The text of the dossier. Only a dossier whose counts and numbers are in range and whose names are
/// names is read again as what it was.
#[tactic(auto, using(crate::proofs::Joining::dossier_bytes_in_parts))]
pub fn write_dossier(alloc: Global, dossier: &Dossier) -> Result<Vec<u8>, AllocError>
    ensures { IfOk result (λ text. text.items ≡ dossier_bytes dossier.now) }
{
    let mut out = Vec::new(alloc);
    write_format(&mut out)?;
    write_sizes(&mut out, dossier)?;
    write_claim(&mut out, dossier.answer, dossier.margin, dossier.bound)?;
    write_plan(&mut out, &dossier.plan)?;
    write_cut_lines(&mut out, dossier.cuts.as_slice())?;
    write_nodes(&mut out, dossier.tree.as_slice())?;
    push_text(&mut out, b"end\n")?;
    Ok(out)
}
