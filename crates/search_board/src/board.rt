use crate::known::Known;
use crate::margin::{margin_of, word_of};
use crate::rule::{BoardRule, Draw, Hint, Joining, Look, Offer, Seating};
use crate::seat::Seat;
use atomic_table::Table;
use std::alloc::{AllocError, Global};
use std::marker::Model;

// The words of the table.
const COUNTER: usize = 0;

const BEST: usize = 1;

const BUSY: usize = 2;

const STOPPED: usize = 3;

/// No ticket is left. The number is what the counter had.
#[derive(Clone, Copy, Debug, PartialEq, Eq)]
pub struct Spent {
    pub number: u64,
}

/// What a board tells in the end.
#[derive(Clone, Copy, Debug, PartialEq, Eq)]
pub struct Closed {
    /// How many tickets were drawn.
    pub tickets: u64,
    /// The greatest margin that was offered.
    pub best: Option<i64>,
}

/// Where the workers of a search draw tickets, offer margins and see the best. Any number of threads share it.
#[derive(Drop)]
pub struct Board {
    table: Table<(), Known, u32, BoardRule, Global>,
    budget: u32,
}

impl Model for Board {
    ghost use Rattle.std.specs.Prelude.{◌≡◌};
    ghost use Rattle.search_board.specs.Seats.{BoardView, board_coded};

    ghost Value = { BoardView };

    ghost coded = { board_coded };

    ghost view = { λ b. record { table = b.table.shared.table_id; budget = b.budget } };

    ghost invariant = { λ b. (b.table.shared.table_id.words ≡ 4) × (b.table.shared.table_id.slots ≡ 0) ×
        (b.table.shared.key ≡ b.budget) };
}

impl Board {
    ghost use Rattle.std.specs.Prelude.{◌≡◌, ℕ, Err, ◌+◌, ◌-◌, ◌<◌, ◌≤◌, ◌∷◌, [], ◌++◌, IfOk, OnErr, MatchResult, length, None, Some, ⊤};
    ghost use Rattle.limits.specs.declared.TheConstants.{MOST_NODES, MOST_SEATS};
    ghost use Rattle.number_counts.specs.Counts.{times};
    ghost use Rattle.search_board.specs.Margins.{IsOffer};
    ghost use Rattle.number_laws.specs.Missing.{greater, IsAtMost};
    ghost use Rattle.search_board.specs.Seats.{first_seat, seat_from, joined_seat, IsClosing};

    /// A board with this many tickets, and its first seat.
    pub fn new(alloc: Global, budget: u32) -> Result<(Board, Seat), AllocError>
        requires { budget ≤ MOST_NODES }
        ensures budget { IfOk result (λ made. made.0.budget ≡ budget) }
        ensures seat { IfOk result (λ made. made.1 ≡ first_seat made.0) }
    {
        let (table, seat) = Table::of_words(alloc, &[0, 0, 0, 0], &budget)?;
        Ok((Board { table, budget }, Seat { seat, spent: None }))
    }

    /// A further seat, made by one that still may.
    pub fn seat(&self, from: &mut Seat) -> Result<Seat, AllocError>
        requires of { from.old.board ≡ self.now }
        requires may { 0 < from.old.may }
        ensures made { IfOk result (λ seat. seat ≡ seat_from from.old) }
        ensures ok { IfOk result (λ _. from.new ≡ record from.old { may = from.old.may - 1 }) }
        ensures err { OnErr result (from.new ≡ from.old) }
    {
        Ok(Seat {
            seat: self.table.shared.split_seat::<Seating>(&mut from.seat),
            spent: None,
        })
    }

    /// The next ticket, unless none is left; that is said again without a step to whoever was told once.
    pub fn ticket(&self, seat: &mut Seat) -> Result<u32, Spent>
        requires { seat.old.board ≡ self.now }
        ensures again { (number : ℕ) → seat.old.told ≡ Some number →
            (result ≡ Err (record { number = number })) × (seat.new ≡ seat.old) }
        ensures first { seat.old.told ≡ None → MatchResult result
            (λ ticket. (ticket < self.now.budget) ×
            (seat.new ≡ record seat.old { tickets = seat.old.tickets ++ ticket ∷ [] }))
            (λ spent. (self.now.budget ≤ spent.number) × (seat.new ≡ record seat.old { told = Some spent.number })) }
        ensures fresh { MatchResult result
            (λ ticket. (length seat.old.tickets < self.now.budget) × (times ticket seat.old.tickets ≡ 0)) (λ _. ⊤) }
    {
        if let Some(number) = seat.spent {
            return Err(Spent { number });
        }
        let number = self
            .table
            .shared
            .fetch_add::<Draw>(&mut seat.seat, COUNTER, 1);
        if number < u64::from(self.budget) {
            Ok(number as u32)
        } else {
            seat.spent = Some(number);
            Err(Spent { number })
        }
    }

    /// The best margin so far, which counts as a look.
    pub fn best(&self, seat: &mut Seat) -> Option<i64>
        requires { seat.old.board ≡ self.now }
        ensures look { seat.new ≡ record seat.old { seen = result; looks = seat.old.looks + 1 } }
        ensures seen { IsAtMost seat.old.seen result }
        ensures offered { IsAtMost seat.old.offer result }
    {
        margin_of(self.table.shared.load::<Look>(&mut seat.seat, BEST))
    }

    /// Offers a margin.
    pub fn offer(&self, seat: &mut Seat, margin: i64)
        requires of { seat.old.board ≡ self.now }
        requires margin { IsOffer margin }
        ensures { seat.new ≡ record seat.old { offer = greater seat.old.offer (Some margin) } }
    {
        self.table
            .shared
            .fetch_max::<Offer>(&mut seat.seat, BEST, word_of(margin));
    }

    /// A hint: whether some worker has something to do.
    pub fn busy(&self, seat: &mut Seat) -> bool
        requires { seat.old.board ≡ self.now }
        ensures { seat.new ≡ seat.old }
    {
        self.table.shared.load::<Hint>(&mut seat.seat, BUSY) > 0
    }

    /// Says that this worker has something to do, or that it has nothing any more.
    pub fn say_busy(&self, seat: &mut Seat, on: bool)
        requires { seat.old.board ≡ self.now }
        ensures { seat.new ≡ seat.old }
    {
        if on {
            self.table.shared.fetch_add::<Hint>(&mut seat.seat, BUSY, 1);
        } else {
            self.table.shared.fetch_sub::<Hint>(&mut seat.seat, BUSY, 1);
        }
    }

    /// A hint: whether some worker asked all to stop.
    pub fn stopped(&self, seat: &mut Seat) -> bool
        requires { seat.old.board ≡ self.now }
        ensures { seat.new ≡ seat.old }
    {
        self.table.shared.load::<Hint>(&mut seat.seat, STOPPED) > 0
    }

    /// Asks all to stop.
    pub fn stop(&self, seat: &mut Seat)
        requires { seat.old.board ≡ self.now }
        ensures { seat.new ≡ seat.old }
    {
        self.table.shared.swap::<Hint>(&mut seat.seat, STOPPED, 1);
    }

    /// Joins a seat that is done into another.
    pub fn join(&self, into: &mut Seat, done: Seat)
        requires of { into.old.board ≡ self.now }
        requires done { done.board ≡ self.now }
        ensures { into.new ≡ joined_seat into.old done }
    {
        let Seat { seat, spent } = done;
        self.table.shared.join_seat::<Joining>(&mut into.seat, seat);
        if into.spent.is_none() {
            into.spent = spent;
        }
    }

    /// Closes the board with the seat into which all others were joined.
    pub fn close(self, last: Seat) -> Closed
        requires of { last.board ≡ self }
        requires all { last.stands + last.may ≡ MOST_SEATS }
        ensures { IsClosing last result.tickets result.best }
    {
        let Board { table, budget } = self;
        let Seat { seat, spent: _ } = last;
        let closed = table.close_with(seat);
        let counter = closed.word(COUNTER);
        let best = closed.word(BEST);
        closed.free();
        Closed {
            tickets: counter.min(u64::from(budget)),
            best: margin_of(best),
        }
    }
}

// Threads share the board, and seats go from thread to thread.
fn may_share<T: Sync>(_value: &T) {}

fn may_cross<T: Send>(_value: &T) {}

fn board_and_seat_may_cross(board: &Board, seat: &Seat) {
    may_share(board);
    may_cross(seat);
}
