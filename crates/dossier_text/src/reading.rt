ghost use Rattle.std.specs.Prelude.{◌≡◌, ◌≤◌, ◌<◌, ◌+◌, ◌*◌, ◌^◌, [], length, Ok, IfOk, OnOk};
ghost use Rattle.limits.specs.declared.TheConstants.{MOST_SLOTS, MOST_CUTS, MOST_NODES};
ghost use Rattle.dossier_text.specs.declared.dossier.Dossier.{Dossier};
ghost use Rattle.dossier_text.specs.Ranges.{IsReadable};
ghost use Rattle.dossier_text.specs.Text.{dossier_bytes};
ghost use Rattle.dossier_text.specs.Faults.{Gives};
ghost use Rattle.dossier_text.specs.Reading.{plan_at, cuts_at, tree_at, ending_at, plan_length, dossier_at};

use crate::dossier::{CutLines, Dossier};
use crate::fault::DossierFault;
use crate::head_lines::{claim_at, count_at, fixed_at, format_at, plan_count_at, sizes_at};
use crate::list_lines::items_at;
use limits::MOST_CUTS;
use line_text::Lines;
use plan_text::OpLines;
use slot_box::NodeList;
use std::alloc::Global;

/// The plan, where there is one.
#[tactic(auto, unfolding(crate::specs::Reading::plan_at, crate::specs::Reading::op_lines_at))]
fn plan_at(alloc: Global, lines: &mut Lines<'_>) -> Result<Option<OpLines>, DossierFault>
    requires { lines.old.number ≡ 8 }
    ensures exact { Gives (λ plan. (plan, lines.new.rest)) result (plan_at lines.old.rest) }
    ensures within { IfOk result (λ plan. plan_length plan ≤ MOST_SLOTS) }
    ensures next { IfOk result (λ plan. lines.new.number ≡ 9 + plan_length plan) }
{
    match plan_count_at(lines)? {
        None => Ok(None),
        Some(count) => {
            let ops = items_at(alloc, count, lines)?;
            Ok(Some(ops))
        }
    }
}

/// The cuts, their number in the next line.
#[tactic(auto, unfolding(crate::specs::Reading::cuts_at))]
fn cuts_at(alloc: Global, lines: &mut Lines<'_>) -> Result<CutLines, DossierFault>
    requires { lines.old.number ≤ 9 + MOST_SLOTS }
    ensures exact { Gives (λ cuts. (cuts, lines.new.rest)) result (cuts_at lines.old.number lines.old.rest) }
    ensures within { IfOk result (λ cuts. length cuts ≤ MOST_CUTS) }
    ensures next { IfOk result (λ cuts. lines.new.number ≡ lines.old.number + 1 + length cuts) }
{
    let count = count_at(b"cuts", MOST_CUTS, lines)?;
    items_at(alloc, count, lines)
}

/// The search tree of so many inner nodes.
#[tactic(auto, unfolding(crate::specs::Reading::tree_at))]
fn tree_at(alloc: Global, inner: u32, lines: &mut Lines<'_>) -> Result<NodeList, DossierFault>
    requires place { lines.old.number ≤ 10 + MOST_SLOTS + MOST_CUTS }
    requires few { inner ≤ MOST_NODES }
    ensures exact { Gives (λ nodes. (nodes, lines.new.rest)) result (tree_at lines.old.number inner lines.old.rest) }
    ensures all { IfOk result (λ nodes. length nodes ≡ 2 * inner + 1) }
    ensures next { IfOk result (λ nodes. lines.new.number ≡ lines.old.number + length nodes) }
{
    items_at(alloc, 2 * inner + 1, lines)
}

/// Passes over the last line, and sees that nothing stands behind it.
#[tactic(auto, unfolding(crate::specs::Reading::ending_at))]
fn ending_at(lines: &mut Lines<'_>) -> Result<(), DossierFault>
    requires { lines.old.number + 1 < 2 ^ 32 }
    ensures { Gives (λ _. []) result (ending_at lines.old.number lines.old.rest) }
{
    fixed_at(b"end", lines)?;
    if lines.is_at_end() {
        Ok(())
    } else {
        Err(DossierFault::Line(lines.number()))
    }
}

#[tactic(auto, unfolding(crate::specs::Reading::dossier_at))]
fn dossier_at(alloc: Global, bytes: &[u8]) -> Result<Dossier, DossierFault>
    ensures { Gives (λ dossier. dossier) result (dossier_at bytes.now) }
{
    let mut lines = Lines::new(bytes);
    format_at(&mut lines)?;
    let sizes = sizes_at(&mut lines)?;
    let claim = claim_at(&mut lines)?;
    let plan = plan_at(alloc, &mut lines)?;
    let cuts = cuts_at(alloc, &mut lines)?;
    let tree = tree_at(alloc, sizes.nodes, &mut lines)?;
    ending_at(&mut lines)?;
    Ok(Dossier {
        slots: sizes.slots,
        nodes: sizes.nodes,
        answer: claim.answer,
        margin: claim.margin,
        bound: claim.bound,
        plan,
        cuts,
        tree,
    })
}

/// The dossier of which the bytes are the text.
pub fn read_dossier(alloc: Global, bytes: &[u8]) -> Result<Dossier, DossierFault>
    // What is read is a dossier in range, and the bytes are its text.
    ensures found { IfOk result (λ dossier. IsReadable dossier × (bytes.now ≡ dossier_bytes dossier)) }
    // The text of a dossier in range is read as that dossier, unless memory runs out.
    ensures only { (dossier : Dossier) → IsReadable dossier → bytes.now ≡ dossier_bytes dossier →
        Gives (λ read. read) result (Ok dossier) }
    // Any other fault is the first that is met, line by line.
    ensures exact { Gives (λ dossier. dossier) result (dossier_at bytes.now) }
{
    dossier_at(alloc, bytes)
}
