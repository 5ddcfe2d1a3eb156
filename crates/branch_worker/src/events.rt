//! What a worker does with the task in hand, event by event.

ghost use Rattle.std.specs.Prelude.{◌≡◌, ◌↔◌, ◌⊎◌, ℕ, ◌+◌, ◌*◌, ◌<◌, ◌≤◌, ◌∷◌, [], ◌++◌, length, Some, None, IfSome, IfOk, IsTrue, MatchOption, OnOk, Option};
ghost use Rattle.limits.specs.declared.TheConstants.{MOST_NODES, MOST_SLOTS};
ghost use Rattle.number_laws.specs.Missing.{greater, IsAtMost};
ghost use Rattle.plan_build.specs.Built.{IsPlanned, found_margin};
ghost use Rattle.slot_box.specs.declared.node.Leaf.TheVariants as leaves;
ghost use Rattle.slot_box.specs.declared.node.Node.TheVariants as nodes;
ghost use Rattle.slot_box.specs.Ranges.{IsNodeInRange};
ghost use Rattle.leaf_value.specs.Budget.{IsOpen};
ghost use Rattle.search_node.specs.Looks.{Beats, ClosesBox, IsTaskOf, SaysDead};
ghost use Rattle.search_node.specs.Tables.{IsTableOf};
ghost use Rattle.search_node.specs.declared.looked.Examined.TheVariants as answers;
ghost use Rattle.leaf_value.specs.Blocked.{IsBlocked};
ghost use Rattle.search_node.specs.Laws.{LawfulEntriesAreThere, PartsAreBelowTheWhole};
ghost use Rattle.branch_worker.specs.NoteBoxes.{IsTrueNote};
ghost use Rattle.branch_worker.specs.Sites.{IsSite};
ghost use Rattle.branch_worker.specs.Work.{IsLeftOpenOrBeaten};
ghost use Rattle.branch_worker.specs.inside.Working.{BeganAt, HandsOn, HasLooked, HasSameOwner, IsBelowWarm, IsUndecided, IsWorking, Start, closed_leaf, note_over, popped_of, pushed_of, setting_of, work_left};

use crate::finding::take;
use crate::site::Site;
use crate::worker::Worker;
use item_lists::Items;
use outer_edge::Gate;
use plan_build::better;
use replay_core::Planned;
use search_node::{Examined, Looked, NodeNote, RowTable, examine_by, value_laws};
use slot_box::{Leaf, Node, Split, Task, Terms, split_laws};
use std::alloc::{AllocError, Global};

/// Whether a value beats the best margin that was seen.
fn beats(value: i64, seen: Option<i64>) -> bool
    ensures { IsTrue result ↔ Beats value seen }
{
    match seen {
        None => true,
        Some(best) => value > best,
    }
}

/// Adds a note.
fn note(
    worker: &mut Worker,
    id: u32,
    node: Node,
    value: Option<i64>,
    seen: Option<i64>,
) -> Result<(), AllocError>
    ensures note { OnOk result (worker.new ≡ record worker.old {
      notes = worker.old.notes ++ (record { id = id; node = node; value = value; seen = seen }) ∷ [];
    }) }
    ensures seat { worker.new.seat ≡ worker.old.seat }
{
    worker
        .notes
        .push(NodeNote {
            id,
            node,
            value,
            seen,
        })
        .map_err(|_| AllocError)
}

/// Looks at the best margin.
fn look(site: &Site<'_>, worker: &mut Worker) -> Option<i64>
    requires { worker.old.seat.board ≡ site.now.board.now }
    ensures worker { worker.new ≡ record worker.old {
      seat = record worker.old.seat { seen = result; looks = worker.old.seat.looks + 1 };
    } }
    ensures seen { IsAtMost worker.old.seat.seen result }
    ensures offered { IsAtMost worker.old.seat.offer result }
{
    site.board.best(&mut worker.seat)
}

/// Offers the margin of a plan, if there is one.
fn offer_margin(site: &Site<'_>, worker: &mut Worker, found: &Option<Planned>)
    requires board { worker.old.seat.board ≡ site.now.board.now }
    requires slots { site.now.n ≤ MOST_SLOTS }
    requires plan { IfSome found.now (IsPlanned site.now.plant.now site.now.n) }
    ensures { worker.new ≡ record worker.old {
      seat = record worker.old.seat { offer = greater worker.old.seat.offer (found_margin found.now) };
    } }
{
    value_laws(site.plant);
    if let Some(planned) = found {
        site.board.offer(&mut worker.seat, planned.margin);
    }
}

/// Offers the plan that was found, and keeps it where it is the best of the worker's own.
fn offer(site: &Site<'_>, worker: &mut Worker, found: Option<Planned>)
    requires board { worker.old.seat.board ≡ site.now.board.now }
    requires slots { site.now.n ≤ MOST_SLOTS }
    requires plan { IfSome found (IsPlanned site.now.plant.now site.now.n) }
    ensures worker { worker.new ≡ record worker.old {
      seat = record worker.old.seat { offer = greater worker.old.seat.offer (found_margin found) };
      found = worker.new.found;
    } }
    ensures margin { found_margin worker.new.found ≡ greater (found_margin worker.old.found) (found_margin found) }
    ensures one { (worker.new.found ≡ worker.old.found) ⊎ (worker.new.found ≡ found) }
{
    offer_margin(site, worker, &found);
    worker.found = better(worker.found.take(), found);
}

/// Draws a ticket, unless none is left.
fn draw(site: &Site<'_>, worker: &mut Worker) -> Option<u32>
    requires { worker.old.seat.board ≡ site.now.board.now }
    ensures below { IfSome result (λ ticket. ticket < site.now.board.now.budget) }
    ensures left { IfSome result (λ _. length worker.old.seat.tickets < site.now.board.now.budget) }
    ensures drawn { IfSome result (λ ticket. worker.new ≡ record worker.old {
      seat = record worker.old.seat { tickets = worker.old.seat.tickets ++ ticket ∷ [] };
    }) }
    ensures told { result ≡ None → (number : ℕ) × (worker.new ≡ record worker.old {
      seat = record worker.old.seat { told = Some number };
    }) }
{
    site.board.ticket(&mut worker.seat).ok()
}

/// Notes a leaf: the task in hand is done with.
fn leave(
    worker: &mut Worker,
    task: &Task,
    leaf: Leaf,
    value: Option<i64>,
    seen: Option<i64>,
) -> Result<(), AllocError>
    ghost start: { Start }
    requires working { IsWorking start worker.old (Some task.now) None }
    requires looked { HasLooked worker.old }
    requires seen { seen ≡ worker.old.seat.seen }
    requires true_note { IsTrueNote (setting_of start) (note_over task.now (nodes.Leaf leaf) value seen) }
    requires left { IsLeftOpenOrBeaten worker.old.seat leaf value }
    requires point { leaf ≡ leaves.Point → IsAtMost value worker.old.seat.offer }
    requires warm { IsBelowWarm (setting_of start) task.now value }
    ensures working { OnOk result (IsWorking start worker.new None None) }
    ensures same { OnOk result (worker.new ≡ record worker.old { notes = worker.new.notes }) }
    ensures board { worker.new.seat.board ≡ worker.old.seat.board }
{
    note(worker, task.id(), Node::Leaf(leaf), value, seen)?;
    Ok(())
}

/// Closes a box that an examination has closed.
fn close(
    worker: &mut Worker,
    task: &Task,
    leaf: Leaf,
    value: Option<i64>,
    seen: Option<i64>,
) -> Result<(), AllocError>
    ghost start: { Start }
    requires working { IsWorking start worker.old (Some task.now) None }
    requires looked { HasLooked worker.old }
    requires seen { seen ≡ worker.old.seat.seen }
    requires closes { ClosesBox (setting_of start) task.now seen leaf value }
    requires dead { (at : ℕ) → SaysDead (answers.Closed leaf value) at ↔ IsBlocked (setting_of start).case task.now.box at }
    requires point { leaf ≡ leaves.Point → IsAtMost value worker.old.seat.offer }
    ensures working { OnOk result (IsWorking start worker.new None None) }
    ensures same { OnOk result (worker.new ≡ record worker.old { notes = worker.new.notes }) }
    ensures board { worker.new.seat.board ≡ worker.old.seat.board }
{
    leave(worker, task, leaf, value, seen)
}

/// The leaf with the same entries that is not left open.
fn closed_leaf(leaf: Leaf) -> Leaf
    ensures { result ≡ closed_leaf leaf }
{
    match leaf {
        Leaf::Undone { q, terms } => Leaf::Dual { q, terms },
        Leaf::Dead { at } => Leaf::Dead { at },
        Leaf::Void { terms } => Leaf::Void { terms },
        Leaf::Dual { q, terms } => Leaf::Dual { q, terms },
        Leaf::Point => Leaf::Point,
    }
}

/// Closes a box that might be divided, but whose value a plan has reached meanwhile.
fn close_beaten(
    worker: &mut Worker,
    task: &Task,
    value: i64,
    leaf: Leaf,
    split: Split,
    seen: Option<i64>,
) -> Result<(), AllocError>
    ghost start: { Start }
    requires working { IsWorking start worker.old (Some task.now) None }
    requires looked { HasLooked worker.old }
    requires seen { seen ≡ worker.old.seat.seen }
    requires undecided { IsUndecided (setting_of start) task.now value leaf split }
    requires beaten { IsAtMost (Some value) seen }
    ensures working { OnOk result (IsWorking start worker.new None None) }
    ensures same { OnOk result (worker.new ≡ record worker.old { notes = worker.new.notes }) }
    ensures board { worker.new.seat.board ≡ worker.old.seat.board }
{
    leave(worker, task, closed_leaf(leaf), Some(value), seen)
}

/// Leaves a box open for want of tickets.
fn leave_open(
    worker: &mut Worker,
    task: &Task,
    value: i64,
    leaf: Leaf,
    split: Split,
    seen: Option<i64>,
) -> Result<(), AllocError>
    ghost start: { Start }
    requires working { IsWorking start worker.old (Some task.now) None }
    requires looked { HasLooked worker.old }
    requires seen { seen ≡ worker.old.seat.seen }
    requires undecided { IsUndecided (setting_of start) task.now value leaf split }
    requires told { (number : ℕ) × (worker.old.seat.told ≡ Some number) }
    ensures working { OnOk result (IsWorking start worker.new None None) }
    ensures same { OnOk result (worker.new ≡ record worker.old { notes = worker.new.notes }) }
    ensures board { worker.new.seat.board ≡ worker.old.seat.board }
{
    leave(worker, task, leaf, Some(value), seen)
}

/// The denominator and the entries of a leaf that may be left open.
fn entries_of(alloc: Global, leaf: Leaf) -> (u64, Terms)
    requires { IsOpen leaf }
    ensures { leaf ≡ leaves.Undone result.0 result.1 }
{
    match leaf {
        Leaf::Undone { q, terms } => (q, terms),
        Leaf::Dead { .. } | Leaf::Void { .. } | Leaf::Dual { .. } | Leaf::Point => {
            (1, Items::new(alloc))
        }
    }
}

/// A copy of entries.
fn copy_of(alloc: Global, terms: &Terms) -> Result<Terms, AllocError>
    ensures { IfOk result (λ copy. copy ≡ terms.now) }
{
    Ok(Items::from_vec(Vec::from_slice(alloc, terms.as_slice())?))
}

/// The node of a box that is divided under the ticket.
fn inner_node(ticket: u32, split: Split) -> Node
    ensures value { result ≡ nodes.Inner ticket split }
    ensures numbers { IsNodeInRange result }
{
    Node::Inner { ticket, split }
}

/// Pushes a task to the worker's own deck. Where it has none, or the deck can grow no further, the task comes back.
fn push(worker: &mut Worker, task: Task) -> Option<Task>
    ensures others { worker.new ≡ record worker.old { owner = worker.new.owner } }
    ensures owner { HasSameOwner worker.old.owner worker.new.owner }
    ensures popped { popped_of worker.new.owner ≡ popped_of worker.old.owner }
    ensures went { MatchOption result (pushed_of worker.new.owner ≡ pushed_of worker.old.owner ++ task ∷ [])
        (λ back. (back ≡ task) × (pushed_of worker.new.owner ≡ pushed_of worker.old.owner)) }
{
    match &mut worker.owner {
        Some(owner) => owner.push(task).err(),
        None => Some(task),
    }
}

/// Hands a right part on: to whoever comes first to the worker's deck, or else it is kept.
fn hand_on(worker: &mut Worker, right: Task) -> Result<(), AllocError>
    ensures others { worker.new ≡ record worker.old { waiting = worker.new.waiting; owner = worker.new.owner } }
    ensures on { OnOk result (HandsOn right worker.old worker.new) }
{
    if let Some(back) = push(worker, right) {
        worker.waiting.push(back)?;
    }
    Ok(())
}

/// Divides the box under the ticket: the right part is handed on, and the left part goes on, both with the leaf's
/// entries.
fn divide(
    alloc: Global,
    worker: &mut Worker,
    task: Task,
    ticket: u32,
    value: i64,
    leaf: Leaf,
    split: Split,
    seen: Option<i64>,
) -> Result<Task, AllocError>
    ghost start: { Start }
    requires working { IsWorking start worker.old (Some task) (Some ticket) }
    requires looked { HasLooked worker.old }
    requires seen { seen ≡ worker.old.seat.seen }
    requires undecided { IsUndecided (setting_of start) task value leaf split }
    requires beats { Beats value seen }
    requires task { IsTaskOf start.parts start.slots task }
    requires ticket { ticket < MOST_NODES }
    requires drawn { worker.old.drawn < MOST_NODES }
    requires there { LawfulEntriesAreThere (setting_of start) }
    requires parts { PartsAreBelowTheWhole (setting_of start) }
    ensures working { IfOk result (λ left. IsWorking start worker.new (Some left) None) }
    ensures task { IfOk result (IsTaskOf start.parts start.slots) }
    ensures drawn { OnOk result (worker.new.drawn ≡ worker.old.drawn + 1) }
    ensures waiting { OnOk result (length worker.new.waiting ≤ length worker.old.waiting + 1) }
    ensures board { worker.new.seat.board ≡ worker.old.seat.board }
{
    split_laws();
    let (q, terms) = entries_of(alloc, leaf);
    let copied = copy_of(alloc, &terms)?;
    let (left, right) = task.bx().divide(alloc, split)?;
    note(
        worker,
        task.id(),
        inner_node(ticket, split),
        Some(value),
        seen,
    )?;
    hand_on(worker, Task::new(2 * ticket + 2, right, q, copied))?;
    worker.drawn += 1;
    Ok(Task::new(2 * ticket + 1, left, q, terms))
}

/// Divides the box where a ticket is left, and else leaves it open.
fn divide_or_leave<G: Gate>(
    alloc: Global,
    site: &Site<'_>,
    gate: &G,
    number: u32,
    worker: &mut Worker,
    task: Task,
    value: i64,
    leaf: Leaf,
    split: Split,
    seen: Option<i64>,
) -> Result<Option<Task>, AllocError>
    ghost start: { Start }
    requires site { IsSite site.now }
    requires began { BeganAt site.now start }
    requires working { IsWorking start worker.old (Some task) None }
    requires looked { HasLooked worker.old }
    requires seen { seen ≡ worker.old.seat.seen }
    requires undecided { IsUndecided (setting_of start) task value leaf split }
    requires beats { Beats value seen }
    requires task { IsTaskOf start.parts start.slots task }
    ensures working { IfOk result (λ next. IsWorking start worker.new next None) }
    ensures task { IfOk result (λ next. IfSome next (IsTaskOf start.parts start.slots)) }
    ensures less { IfOk result (λ next. work_left site.now.board.now.budget worker.new next
        < work_left site.now.board.now.budget worker.old (Some task)) }
    ensures board { worker.new.seat.board ≡ worker.old.seat.board }
{
    gate.ticket(number, worker.drawn);
    // the entries of a box give its parts no greater value
    value_laws(site.plant);
    let Some(ticket) = draw(site, worker) else {
        leave_open(worker, &task, value, leaf, split, seen)?;
        return Ok(None);
    };
    let left = divide(alloc, worker, task, ticket, value, leaf, split, seen)?;
    Ok(Some(left))
}

/// Goes on with a box that may be divided: where its value no longer beats what was seen it is closed.
fn close_or_divide<G: Gate>(
    alloc: Global,
    site: &Site<'_>,
    gate: &G,
    number: u32,
    worker: &mut Worker,
    task: Task,
    value: i64,
    leaf: Leaf,
    split: Split,
    seen: Option<i64>,
) -> Result<Option<Task>, AllocError>
    ghost start: { Start }
    requires site { IsSite site.now }
    requires began { BeganAt site.now start }
    requires working { IsWorking start worker.old (Some task) None }
    requires looked { HasLooked worker.old }
    requires seen { seen ≡ worker.old.seat.seen }
    requires undecided { IsUndecided (setting_of start) task value leaf split }
    requires task { IsTaskOf start.parts start.slots task }
    ensures working { IfOk result (λ next. IsWorking start worker.new next None) }
    ensures task { IfOk result (λ next. IfSome next (IsTaskOf start.parts start.slots)) }
    ensures less { IfOk result (λ next. work_left site.now.board.now.budget worker.new next
        < work_left site.now.board.now.budget worker.old (Some task)) }
    ensures board { worker.new.seat.board ≡ worker.old.seat.board }
{
    if !beats(value, seen) {
        close_beaten(worker, &task, value, leaf, split, seen)?;
        return Ok(None);
    }
    divide_or_leave(
        alloc, site, gate, number, worker, task, value, leaf, split, seen,
    )
}

/// Examines the box of the task in hand and does what comes of it. The left part is next, where it is divided.
pub(crate) fn step<G: Gate>(
    alloc: Global,
    site: &Site<'_>,
    table: &RowTable,
    gate: &G,
    number: u32,
    worker: &mut Worker,
    task: Task,
) -> Result<Option<Task>, AllocError>
    ghost start: { Start }
    requires site { IsSite site.now }
    requires began { BeganAt site.now start }
    requires table { IsTableOf site.now.plant.now site.now.n table.now }
    requires working { IsWorking start worker.old (Some task) None }
    requires task { IsTaskOf start.parts start.slots task }
    ensures working { IfOk result (λ next. IsWorking start worker.new next None) }
    ensures task { IfOk result (λ next. IfSome next (IsTaskOf start.parts start.slots)) }
    ensures less { IfOk result (λ next. work_left site.now.board.now.budget worker.new next
        < work_left site.now.board.now.budget worker.old (Some task)) }
    ensures board { worker.new.seat.board ≡ worker.old.seat.board }
{
    let seen = look(site, worker);
    let Looked { what, found } = examine_by(
        alloc,
        site.plant,
        site.cliques,
        site.automaton,
        site.n,
        table,
        &task,
        seen,
        &worker.cuts,
    )?;
    offer(site, worker, found);
    match what {
        Examined::Closed { leaf, value } => {
            close(worker, &task, leaf, value, seen)?;
            Ok(None)
        }
        Examined::Splittable { value, leaf, split } => {
            let seen = look(site, worker);
            close_or_divide(
                alloc, site, gate, number, worker, task, value, leaf, split, seen,
            )
        }
    }
}

/// Does what is to be done with the task in hand, and says what is in hand next.
pub(crate) fn advance<G: Gate>(
    alloc: Global,
    site: &Site<'_>,
    table: &RowTable,
    gate: &G,
    number: u32,
    worker: &mut Worker,
    task: Task,
) -> Result<Option<Task>, AllocError>
    ghost start: { Start }
    requires site { IsSite site.now }
    requires began { BeganAt site.now start }
    requires table { IsTableOf site.now.plant.now site.now.n table.now }
    requires working { IsWorking start worker.old (Some task) None }
    requires task { IsTaskOf start.parts start.slots task }
    ensures working { IfOk result (λ next. IsWorking start worker.new next None) }
    ensures task { IfOk result (λ next. IfSome next (IsTaskOf start.parts start.slots)) }
    ensures less { IfOk result (λ next. work_left site.now.board.now.budget worker.new next
        < work_left site.now.board.now.budget worker.old (Some task)) }
    ensures board { worker.new.seat.board ≡ worker.old.seat.board }
    ensures ends { IfOk result (λ next. next ≡ None → worker.new.waiting ≡ []) }
{
    match step(alloc, site, table, gate, number, worker, task)? {
        Some(left) => Ok(Some(left)),
        None => take(site, worker),
    }
}
