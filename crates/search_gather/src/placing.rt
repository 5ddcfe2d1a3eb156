//! The new tickets, and each node in its place.

ghost use Rattle.std.specs.Prelude.{◌≡◌, ◌+◌, ◌*◌, ◌<◌, ◌≤◌, ◌^◌, length, map, replicate, None, IfOk};
ghost use Rattle.search_gather.specs.inside.Placing.{written, ticket_of, ticket_at, AreIdsBelow, turns_from, AreTurnsBelow, id_in, node_in, node_at, AreTurns, HasTurn, HasOwnTurn, HaveTurns, empty_place};

use item_lists::Items;
use search_node::{NodeNote, Notes};
use slot_box::{Leaf, Node, NodeList};
use std::alloc::{AllocError, Global};

/// The ticket that a node holds.
fn ticket_of(node: &Node) -> Option<u32>
    ensures { result ≡ ticket_of node.now }
{
    match node {
        Node::Inner { ticket, .. } => Some(*ticket),
        Node::Leaf(_) => None,
    }
}

/// The ticket that each node holds, by ids.
pub(crate) fn held_tickets(
    alloc: Global,
    notes: &[NodeNote],
) -> Result<Vec<Option<u32>>, AllocError>
    requires { AreIdsBelow (length notes.now) notes.now }
    ensures { IfOk result (λ held. held.items ≡ written (map ticket_at notes.now) (replicate (length notes.now) None)) }
{
    let mut held = no_tickets(alloc, notes.len())?;
    for note in notes {
        held[note.id as usize] = ticket_of(&note.node);
    }
    Ok(held)
}

fn no_tickets(alloc: Global, count: usize) -> Result<Vec<Option<u32>>, AllocError>
    ensures { IfOk result (λ held. held.items ≡ replicate count None) }
{
    let mut held = Vec::new(alloc);
    for _ in 0..count {
        held.push(None)?;
    }
    Ok(held)
}

fn no_turns(alloc: Global, count: usize) -> Result<Vec<u32>, AllocError>
    ensures { IfOk result (λ turns. turns.items ≡ replicate count 0) }
{
    let mut turns = Vec::new(alloc);
    for _ in 0..count {
        turns.push(0)?;
    }
    Ok(turns)
}

/// The turn of each ticket, which is its new number.
pub(crate) fn places_of(alloc: Global, order: &[u32]) -> Result<Vec<u32>, AllocError>
    requires few { length order.now < 2 ^ 32 }
    requires below { AreTurnsBelow (length order.now) order.now }
    ensures { IfOk result (λ turns.
        turns.items ≡ written (turns_from 0 order.now) (replicate (length order.now) 0)) }
{
    let mut turns = no_turns(alloc, order.len())?;
    let mut turn = 0;
    for ticket in order {
        turns[*ticket as usize] = turn;
        turn += 1;
    }
    Ok(turns)
}

/// The new id of a node: that of the left or the right part under its parent's new ticket.
fn id_in(turns: &[u32], id: u32) -> u32
    requires turns { AreTurns turns.now }
    requires there { HasTurn turns.now id }
    ensures value { result ≡ id_in turns.now id }
    ensures below { result < 2 * length turns.now + 1 }
{
    if id == 0 {
        return 0;
    }
    let turn = turns[(id as usize - 1) / 2];
    2 * turn + 1 + (id - 1) % 2
}

/// A node under its new ticket.
fn node_in(turns: &[u32], node: Node) -> Node
    requires { HasOwnTurn turns.now node }
    ensures { result ≡ node_in turns.now node }
{
    match node {
        Node::Inner { ticket, split } => Node::Inner {
            ticket: turns[ticket as usize],
            split,
        },
        Node::Leaf(leaf) => Node::Leaf(leaf),
    }
}

fn empty_places(alloc: Global, count: usize) -> Result<Vec<Node>, AllocError>
    ensures { IfOk result (λ nodes. nodes.items ≡ replicate count empty_place) }
{
    let mut nodes = Vec::new(alloc);
    for _ in 0..count {
        nodes.push(Node::Leaf(Leaf::Point))?;
    }
    Ok(nodes)
}

/// The nodes by their new ids.
pub(crate) fn nodes_in_place(
    alloc: Global,
    notes: Notes,
    turns: &[u32],
) -> Result<NodeList, AllocError>
    requires turns { AreTurns turns.now }
    requires each { HaveTurns turns.now notes }
    requires count { length notes ≡ 2 * length turns.now + 1 }
    ensures { IfOk result (λ nodes.
        nodes ≡ written (map (node_at turns.now) notes) (replicate (length notes) empty_place)) }
{
    let mut nodes = empty_places(alloc, notes.as_slice().len())?;
    for note in notes.into_vec() {
        nodes[id_in(turns, note.id) as usize] = node_in(turns, note.node);
    }
    Ok(Items::from_vec(nodes))
}
