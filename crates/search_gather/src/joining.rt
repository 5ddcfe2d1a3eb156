//! Lists laid end to end, and the numbers that cuts have there.

ghost use Rattle.std.specs.Prelude.{◌≡◌, ◌+◌, ◌*◌, ◌<◌, ◌≤◌, ◌++◌, length, map, OnOk, IfOk};
ghost use Rattle.limits.specs.declared.TheConstants.{MOST_CUTS};
ghost use Rattle.search_gather.specs.Numbered.{AreCutLists, number_in, term_numbered, leaf_numbered, node_numbered, note_numbered, notes_of, params_of, cuts_of};

use item_lists::Items;
use search_node::{NodeNote, NoteLists, Notes};
use slot_box::{CutList, Leaf, NamedCut, NamedCuts, Node, Term, Terms};
use std::alloc::{AllocError, Global};

/// The number of the cut of this name, where those of the list are numbered from `from` on.
fn number_in(from: u32, cuts: &[NamedCut], name: u32) -> u32
    requires { from + length cuts.now ≤ MOST_CUTS }
    ensures value { result ≡ number_in from cuts.now name }
{
    let mut number = from;
    for cut in cuts {
        if cut.cut == name {
            return number;
        }
        number += 1;
    }
    number
}

fn term_numbered(from: u32, cuts: &[NamedCut], term: Term) -> Term
    requires { from + length cuts.now ≤ MOST_CUTS }
    ensures { result ≡ term_numbered from cuts.now term }
{
    match term {
        Term::Row { name, y } => Term::Row { name, y },
        Term::Cut { cut, slot, op, y } => Term::Cut {
            cut: number_in(from, cuts, cut),
            slot,
            op,
            y,
        },
    }
}

fn terms_numbered(
    alloc: Global,
    from: u32,
    cuts: &[NamedCut],
    terms: &[Term],
) -> Result<Terms, AllocError>
    requires { from + length cuts.now ≤ MOST_CUTS }
    ensures { IfOk result (λ numbered. numbered ≡ map (term_numbered from cuts.now) terms.now) }
{
    let mut numbered = Terms::new(alloc);
    for term in terms {
        numbered
            .push(term_numbered(from, cuts, *term))
            .map_err(|_| AllocError)?;
    }
    Ok(numbered)
}

fn leaf_numbered(
    alloc: Global,
    from: u32,
    cuts: &[NamedCut],
    leaf: Leaf,
) -> Result<Leaf, AllocError>
    requires { from + length cuts.now ≤ MOST_CUTS }
    ensures { IfOk result (λ numbered. numbered ≡ leaf_numbered from cuts.now leaf) }
{
    Ok(match leaf {
        Leaf::Dead { at } => Leaf::Dead { at },
        Leaf::Void { terms } => Leaf::Void {
            terms: terms_numbered(alloc, from, cuts, terms.as_slice())?,
        },
        Leaf::Dual { q, terms } => Leaf::Dual {
            q,
            terms: terms_numbered(alloc, from, cuts, terms.as_slice())?,
        },
        Leaf::Undone { q, terms } => Leaf::Undone {
            q,
            terms: terms_numbered(alloc, from, cuts, terms.as_slice())?,
        },
        Leaf::Point => Leaf::Point,
    })
}

fn node_numbered(
    alloc: Global,
    from: u32,
    cuts: &[NamedCut],
    node: Node,
) -> Result<Node, AllocError>
    requires { from + length cuts.now ≤ MOST_CUTS }
    ensures { IfOk result (λ numbered. numbered ≡ node_numbered from cuts.now node) }
{
    Ok(match node {
        Node::Inner { ticket, split } => Node::Inner { ticket, split },
        Node::Leaf(leaf) => Node::Leaf(leaf_numbered(alloc, from, cuts, leaf)?),
    })
}

fn note_numbered(
    alloc: Global,
    from: u32,
    cuts: &[NamedCut],
    note: NodeNote,
) -> Result<NodeNote, AllocError>
    requires { from + length cuts.now ≤ MOST_CUTS }
    ensures { IfOk result (λ numbered. numbered ≡ note_numbered from cuts.now note) }
{
    let NodeNote {
        id,
        node,
        value,
        seen,
    } = note;
    Ok(NodeNote {
        id,
        node: node_numbered(alloc, from, cuts, node)?,
        value,
        seen,
    })
}

/// Adds the notes of one worker, whose cuts are numbered from `from` on.
fn add_notes(
    alloc: Global,
    all: &mut Notes,
    notes: Notes,
    from: u32,
    cuts: &[NamedCut],
) -> Result<(), AllocError>
    requires { from + length cuts.now ≤ MOST_CUTS }
    ensures { OnOk result (all.new ≡ all.old ++ map (note_numbered from cuts.now) notes) }
{
    for note in notes.into_vec() {
        all.push(note_numbered(alloc, from, cuts, note)?)
            .map_err(|_| AllocError)?;
    }
    Ok(())
}

/// The notes of all workers.
pub(crate) fn all_notes(
    alloc: Global,
    lists: NoteLists,
    cuts: &[NamedCuts],
) -> Result<Notes, AllocError>
    requires { AreCutLists lists cuts.now }
    ensures { IfOk result (λ notes. notes ≡ notes_of lists cuts.now) }
{
    let mut all = Notes::new(alloc);
    let mut from = 0;
    let mut next = 0;
    for notes in lists.into_vec() {
        let own = cuts[next].as_slice();
        add_notes(alloc, &mut all, notes, from, own)?;
        from += own.len() as u32;
        next += 1;
    }
    Ok(all)
}

/// Adds the cuts of one worker.
fn add_cuts(all: &mut CutList, cuts: &[NamedCut]) -> Result<(), AllocError>
    ensures { OnOk result (all.new ≡ all.old ++ params_of cuts.now) }
{
    for cut in cuts {
        all.push(cut.params).map_err(|_| AllocError)?;
    }
    Ok(())
}

/// The cuts of all workers.
pub(crate) fn all_cuts(alloc: Global, lists: &[NamedCuts]) -> Result<CutList, AllocError>
    ensures { IfOk result (λ cuts. cuts ≡ cuts_of lists.now) }
{
    let mut all = CutList::new(alloc);
    for cuts in lists {
        add_cuts(&mut all, cuts.as_slice())?;
    }
    Ok(all)
}
