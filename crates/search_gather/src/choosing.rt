//! Whose turn it is: always the least ticket whose node has a place by then.

ghost use Rattle.std.specs.Prelude.{◌≡◌, ◌+◌, ◌<◌, length, OnOk, IfOk, IfSome};
ghost use Rattle.std.specs.BinaryHeap.{heap_items, KeepsHeap};
ghost use Rattle.search_gather.specs.inside.Choosing.{AreTicketsHeld, IsTurnOrder, AddsReady, least_first};

use std::alloc::{AllocError, Global};
use std::cmp::Reverse;
use std::collections::BinaryHeap;

/// A node has a place now. If it holds a ticket, that is ready.
fn add_ready(
    held: &[Option<u32>],
    id: u32,
    ready: &mut BinaryHeap<Reverse<u32>>,
) -> Result<(), AllocError>
    requires { id < length held.now }
    ensures adds { OnOk result (AddsReady held.now id (heap_items ready.old) (heap_items ready.new)) }
    ensures least_first { OnOk result (KeepsHeap least_first (heap_items ready.old) (heap_items ready.new)) }
{
    match held[id as usize] {
        Some(ticket) => ready.push(Reverse(ticket))?,
        None => {}
    }
    Ok(())
}

/// The tickets in the order of their turns, by what each node holds.
pub(crate) fn order_of(alloc: Global, held: &[Option<u32>]) -> Result<Vec<u32>, AllocError>
    requires { AreTicketsHeld held.now }
    ensures { IfOk result (λ order. IsTurnOrder held.now order.items) }
{
    let mut order = Vec::new(alloc);
    let mut ready = BinaryHeap::new(alloc);
    add_ready(held, 0, &mut ready)?;
    while let Some(Reverse(ticket)) = ready.pop() {
        order.push(ticket)?;
        add_ready(held, 2 * ticket + 1, &mut ready)?;
        add_ready(held, 2 * ticket + 2, &mut ready)?;
    }
    Ok(order)
}
