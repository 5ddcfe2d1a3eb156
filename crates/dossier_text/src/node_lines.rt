ghost use Rattle.std.specs.Prelude.{◌≡◌};
ghost use Rattle.dossier_text.specs.Faults.{Gives};
ghost use Rattle.dossier_text.specs.inside.NodeReading.{kind_at, inner_at, dead_at, void_at, dual_at, open_at, point_at, leaf_at, node_words_at, node_at};

use crate::fault::DossierFault;
use crate::list_lines::LineItem;
use crate::steps::{BITS_32, formed, number_at};
use crate::term_words::terms_at;
use line_text::Words;
use slot_box::{Leaf, Node, Split, SplitKind};
use std::alloc::Global;

/// What a box is divided by.
#[tactic(auto, unfolding(crate::specs::inside::NodeReading::kind_at))]
fn kind_at(line: u32, mut words: Words<'_>) -> Result<SplitKind, DossierFault>
    ensures { Gives (λ kind. kind) result (kind_at line words.entry) }
{
    let word = formed(line, words.next())?;
    if word == b"ops".as_slice() {
        Ok(SplitKind::Ops(number_at(line, u64::MAX, words)?))
    } else if word == b"volume".as_slice() {
        Ok(SplitKind::Volume(number_at(line, BITS_32, words)? as u32))
    } else if word == b"start".as_slice() {
        Ok(SplitKind::Start(number_at(line, BITS_32, words)? as u32))
    } else if word == b"end".as_slice() {
        Ok(SplitKind::End(number_at(line, BITS_32, words)? as u32))
    } else {
        Err(DossierFault::Line(line))
    }
}

/// The inner node that the words say.
#[tactic(auto, unfolding(crate::specs::inside::NodeReading::inner_at))]
fn inner_at(line: u32, mut words: Words<'_>) -> Result<Node, DossierFault>
    ensures { Gives (λ node. node) result (inner_at line words.entry) }
{
    let ticket = formed(line, words.decimal(BITS_32))? as u32;
    let slot = formed(line, words.decimal(BITS_32))? as u32;
    let kind = kind_at(line, words)?;
    Ok(Node::Inner {
        ticket,
        split: Split { slot, kind },
    })
}

#[tactic(auto, unfolding(crate::specs::inside::NodeReading::dead_at))]
fn dead_at(line: u32, words: Words<'_>) -> Result<Leaf, DossierFault>
    ensures { Gives (λ leaf. leaf) result (dead_at line words.entry) }
{
    let at = number_at(line, BITS_32, words)? as u32;
    Ok(Leaf::Dead { at })
}

#[tactic(auto, unfolding(crate::specs::inside::NodeReading::void_at))]
fn void_at(alloc: Global, line: u32, words: Words<'_>) -> Result<Leaf, DossierFault>
    ensures { Gives (λ leaf. leaf) result (void_at line words.entry) }
{
    let terms = terms_at(alloc, line, words)?;
    Ok(Leaf::Void { terms })
}

#[tactic(auto, unfolding(crate::specs::inside::NodeReading::dual_at))]
fn dual_at(alloc: Global, line: u32, mut words: Words<'_>) -> Result<Leaf, DossierFault>
    ensures { Gives (λ leaf. leaf) result (dual_at line words.entry) }
{
    let q = formed(line, words.decimal(u64::MAX))?;
    let terms = terms_at(alloc, line, words)?;
    Ok(Leaf::Dual { q, terms })
}

#[tactic(auto, unfolding(crate::specs::inside::NodeReading::open_at))]
fn open_at(alloc: Global, line: u32, mut words: Words<'_>) -> Result<Leaf, DossierFault>
    ensures { Gives (λ leaf. leaf) result (open_at line words.entry) }
{
    let q = formed(line, words.decimal(u64::MAX))?;
    let terms = terms_at(alloc, line, words)?;
    Ok(Leaf::Undone { q, terms })
}

#[tactic(auto, unfolding(crate::specs::inside::NodeReading::point_at))]
fn point_at(line: u32, mut words: Words<'_>) -> Result<Leaf, DossierFault>
    ensures { Gives (λ leaf. leaf) result (point_at line words.entry) }
{
    formed(line, words.end())?;
    Ok(Leaf::Point)
}

/// The leaf that the word names.
#[tactic(auto, unfolding(crate::specs::inside::NodeReading::leaf_at))]
fn leaf_at(alloc: Global, line: u32, word: &[u8], words: Words<'_>) -> Result<Leaf, DossierFault>
    ensures { Gives (λ leaf. leaf) result (leaf_at line word.now words.entry) }
{
    if word == b"dead".as_slice() {
        dead_at(line, words)
    } else if word == b"void".as_slice() {
        void_at(alloc, line, words)
    } else if word == b"dual".as_slice() {
        dual_at(alloc, line, words)
    } else if word == b"open".as_slice() {
        open_at(alloc, line, words)
    } else if word == b"point".as_slice() {
        point_at(line, words)
    } else {
        Err(DossierFault::Line(line))
    }
}

/// The node that the words behind its id say.
#[tactic(auto, unfolding(crate::specs::inside::NodeReading::node_words_at))]
fn node_words_at(alloc: Global, line: u32, mut words: Words<'_>) -> Result<Node, DossierFault>
    ensures { Gives (λ node. node) result (node_words_at line words.entry) }
{
    let word = formed(line, words.next())?;
    if word == b"split".as_slice() {
        inner_at(line, words)
    } else {
        Ok(Node::Leaf(leaf_at(alloc, line, word, words)?))
    }
}

/// What the text of a node's line says, where it has this id.
#[tactic(auto, unfolding(crate::specs::inside::NodeReading::node_at))]
fn node_at(alloc: Global, line: u32, id: u32, text: &[u8]) -> Result<Node, DossierFault>
    ensures { Gives (λ node. node) result (node_at line id text.now) }
{
    let mut words = Words::new(text);
    formed(line, words.key(b"node"))?;
    let number = formed(line, words.decimal(BITS_32))?;
    if number == u64::from(id) {
        node_words_at(alloc, line, words)
    } else {
        Err(DossierFault::Line(line))
    }
}

impl LineItem for Node {
    ghost said = { node_at };

    fn read(alloc: Global, line: u32, index: u32, text: &[u8]) -> Result<Node, DossierFault> {
        node_at(alloc, line, index, text)
    }
}
