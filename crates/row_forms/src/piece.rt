ghost use Rattle.std.specs.Prelude.{◌≡◌};

use item_lists::Items;

/// Which entries of a slot are summed over. Places, operations and crudes are numbers of the plant, from 0.
#[derive(Clone, Copy, Debug, PartialEq, Eq)]
pub enum Which {
    /// Whatever fills the slot, idle too.
    Any,
    /// Idle.
    Idle,
    /// One operation; in slot 0, one vessel.
    One(u8),
    /// The operations from a place.
    From(u8),
    /// The operations to a place.
    Into(u8),
    /// The operations of a mask: operation v where bit v is set.
    Among(u64),
    /// The charges.
    Charges,
}

/// Which number of an entry is summed.
#[derive(Clone, Copy, Debug, PartialEq, Eq)]
pub enum Figure {
    /// 1 where the entry fills the slot, else 0.
    Choice,
    /// All that is drawn, in volume units.
    Volume,
    /// What is drawn of one crude, in volume units.
    Amount(u8),
    /// The minute of the start.
    Start,
    /// The minute of the end.
    End,
    /// The minutes that a vessel waits. They stand in slot 0.
    Wait,
}

/// A factor times the sum of one number over slots `first` to `last` and over some entries. Slots are numbered from
/// 1, and slot 0 has the vessels.
#[derive(Clone, Copy, Debug, PartialEq, Eq)]
pub struct Piece {
    pub factor: i64,
    pub first: u32,
    pub last: u32,
    pub which: Which,
    pub figure: Figure,
}

impl Piece {
    ghost use Rattle.row_forms.specs.Pieces.{piece_of, wait_piece};

    /// A factor times one number of some entries, over slots `first` to `last`.
    pub fn new(factor: i64, first: u32, last: u32, which: Which, figure: Figure) -> Piece
        ensures { result ≡ piece_of factor first last which figure }
    {
        Piece {
            factor,
            first,
            last,
            which,
            figure,
        }
    }

    /// A factor times the minutes that a vessel waits.
    pub fn wait(factor: i64, vessel: u8) -> Piece
        ensures { result ≡ wait_piece factor vessel }
    {
        Piece::new(factor, 0, 0, Which::One(vessel), Figure::Wait)
    }
}

/// Says that its pieces together are at most `right`.
#[derive(Debug, Drop)]
pub struct Inequality {
    pub pieces: Items<Piece>,
    pub right: i64,
}
