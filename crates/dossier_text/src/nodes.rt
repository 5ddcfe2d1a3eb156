ghost use Rattle.std.specs.Prelude.{◌≡◌, [], ◌∷◌, ◌++◌, map, OnOk, decimal, codes};
ghost use Rattle.std.specs.Fmt.{signed_decimal};
ghost use Rattle.line_text.specs.Words.{spaced, line_of, text_of};
ghost use Rattle.dossier_text.specs.Nodes.{kind_words, leaf_words, node_words, node_lines, cut_words};

use crate::dossier::CutLine;
use crate::entries::write_terms;
use line_text::{push_number, push_signed_number, push_text, push_word};
use slot_box::{Leaf, Node, Split, SplitKind};
use std::alloc::AllocError;

/// Writes the words of the kind of a split, each behind a blank.
fn write_kind(out: &mut Vec<u8>, kind: SplitKind) -> Result<(), AllocError>
    ensures { OnOk result (out.new.items ≡ out.old.items ++ spaced (kind_words kind)) }
{
    match kind {
        SplitKind::Ops(set) => {
            push_text(out, b" ops")?;
            push_number(out, set)
        }
        SplitKind::Volume(number) => {
            push_text(out, b" volume")?;
            push_number(out, u64::from(number))
        }
        SplitKind::Start(number) => {
            push_text(out, b" start")?;
            push_number(out, u64::from(number))
        }
        SplitKind::End(number) => {
            push_text(out, b" end")?;
            push_number(out, u64::from(number))
        }
    }
}

/// Writes the words of a leaf, each behind a blank.
fn write_leaf(out: &mut Vec<u8>, leaf: &Leaf) -> Result<(), AllocError>
    ensures { OnOk result (out.new.items ≡ out.old.items ++ spaced (leaf_words leaf.now)) }
{
    match leaf {
        Leaf::Dead { at } => {
            push_text(out, b" dead")?;
            push_number(out, u64::from(*at))
        }
        Leaf::Void { terms } => {
            push_text(out, b" void")?;
            write_terms(out, terms.as_slice())
        }
        Leaf::Dual { q, terms } => {
            push_text(out, b" dual")?;
            push_number(out, *q)?;
            write_terms(out, terms.as_slice())
        }
        Leaf::Undone { q, terms } => {
            push_text(out, b" open")?;
            push_number(out, *q)?;
            write_terms(out, terms.as_slice())
        }
        Leaf::Point => push_text(out, b" point"),
    }
}

fn write_inner(out: &mut Vec<u8>, ticket: u32, split: Split) -> Result<(), AllocError>
    ensures { OnOk result (out.new.items ≡ out.old.items ++ spaced (node_words (Node.Inner ticket split))) }
{
    push_text(out, b" split")?;
    push_number(out, u64::from(ticket))?;
    push_number(out, u64::from(split.slot))?;
    write_kind(out, split.kind)
}

/// Writes the words of a node after its id, each behind a blank.
fn write_node(out: &mut Vec<u8>, node: &Node) -> Result<(), AllocError>
    ensures { OnOk result (out.new.items ≡ out.old.items ++ spaced (node_words node.now)) }
{
    match node {
        Node::Inner { ticket, split } => write_inner(out, *ticket, *split),
        Node::Leaf(leaf) => write_leaf(out, leaf),
    }
}

fn write_node_line(out: &mut Vec<u8>, id: u64, node: &Node) -> Result<(), AllocError>
    ensures { OnOk result (out.new.items ≡ out.old.items
        ++ (line_of (codes "node" ∷ decimal id ∷ node_words node.now) ++ 10 ∷ [])) }
{
    push_text(out, b"node")?;
    push_number(out, id)?;
    write_node(out, node)?;
    push_text(out, b"\n")
}

/// Writes a line for each node, their ids counted from 0.
pub fn write_nodes(out: &mut Vec<u8>, nodes: &[Node]) -> Result<(), AllocError>
    ensures { OnOk result (out.new.items ≡ out.old.items ++ text_of (node_lines 0 nodes.now)) }
{
    for (id, node) in nodes.iter().enumerate() {
        write_node_line(out, id as u64, node)?;
    }
    Ok(())
}

fn write_weights(out: &mut Vec<u8>, weights: &[i64]) -> Result<(), AllocError>
    ensures { OnOk result (out.new.items ≡ out.old.items ++ spaced (map signed_decimal weights.now)) }
{
    for weight in weights {
        push_signed_number(out, *weight)?;
    }
    Ok(())
}

/// Writes a cut without its line feed.
fn write_cut(out: &mut Vec<u8>, cut: &CutLine) -> Result<(), AllocError>
    ensures { OnOk result (out.new.items ≡ out.old.items ++ line_of (cut_words cut.now)) }
{
    push_text(out, b"cut")?;
    push_number(out, cut.places)?;
    push_signed_number(out, cut.p)?;
    push_signed_number(out, cut.q)?;
    write_weights(out, cut.weights.as_slice())
}

/// Writes a line for each cut.
pub fn write_cuts(out: &mut Vec<u8>, cuts: &[CutLine]) -> Result<(), AllocError>
    ensures { OnOk result (out.new.items ≡ out.old.items ++ text_of (map cut_words cuts.now)) }
{
    for cut in cuts {
        write_cut(out, cut)?;
        push_text(out, b"\n")?;
    }
    Ok(())
}
