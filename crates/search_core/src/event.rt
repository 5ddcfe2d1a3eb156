/// What a worker does next. Workers are named by their numbers from 0.
#[derive(Clone, Copy, Debug, PartialEq, Eq)]
pub enum Event {
    /// Takes a node of its own: the first of its kept list, or else of its deck.
    Take { w: u32 },
    /// Takes the first node of another's deck.
    Steal { w: u32, from: u32 },
    /// Asks for a ticket.
    Ticket { w: u32 },
    /// Divides the node in hand under its ticket. The right part goes to its kept list, or else to its deck.
    Split { w: u32, kept: bool },
    /// Closes the node in hand.
    Close { w: u32 },
    /// Offers a margin.
    Offer { w: u32, margin: i64 },
    /// Looks at the best margin.
    See { w: u32 },
    /// Puts a cut on its list.
    PushCut { w: u32 },
}

/// Why an event is refused.
#[derive(Clone, Copy, Debug, PartialEq, Eq)]
pub enum CoreFault {
    /// Its condition does not hold, or there is no such worker.
    NotEnabled,
    Memory,
}
