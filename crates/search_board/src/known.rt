use std::collections::LinkedList;

/// What a seat knows, for the rule of the board. No value of it is ever made.
pub struct Known {
    /// The tickets that it drew, and those of the seats that were joined into it.
    pub tickets: LinkedList<u64>,
    /// The greatest margin that it offered, as a word of the board.
    pub offer: u64,
    /// The greatest best that it saw, as a word of the board.
    pub seen: u64,
    pub looks: u64,
    /// The number with which it was refused a ticket.
    pub told: Option<u64>,
    /// For how many seats it stands.
    pub stands: u64,
    /// How many seats it may still make.
    pub may: u64,
    pub budget: u64,
    /// It was joined into another.
    pub gone: bool,
}
