use crate::known::Known;
use atomic_table::{Join, Play, Split, TableRule};

/// The rule of a board, which holds between any two steps.
pub struct BoardRule;

impl TableRule<(), Known, u32> for BoardRule {
    ghost use Rattle.search_board.specs.inside.Views.{first_view};
    ghost use Rattle.search_board.specs.inside.Rule.{IsKept};

    ghost holds = { IsKept };

    ghost first = { first_view };
}

/// A ticket is asked for.
pub struct Draw;

impl Play<(), Known> for Draw {
    ghost use Rattle.search_board.specs.inside.Steps.{Draws};

    ghost then = { Draws };
}

/// A margin is offered.
pub struct Offer;

impl Play<(), Known> for Offer {
    ghost use Rattle.search_board.specs.inside.Steps.{Offers};

    ghost then = { Offers };
}

/// A seat looks at the best margin.
pub struct Look;

impl Play<(), Known> for Look {
    ghost use Rattle.search_board.specs.inside.Steps.{Looks};

    ghost then = { Looks };
}

/// A hint is read or written, of which nothing is known.
pub struct Hint;

impl Play<(), Known> for Hint {
    ghost use Rattle.search_board.specs.inside.Steps.{Stays};

    ghost then = { Stays };
}

/// A seat makes another.
pub struct Seating;

impl Split<Known> for Seating {
    ghost use Rattle.search_board.specs.inside.Views.{with_seat, new_seat};

    ghost left = { with_seat };

    ghost right = { new_seat };
}

/// A seat is joined into another.
pub struct Joining;

impl Join<Known> for Joining {
    ghost use Rattle.search_board.specs.inside.Views.{joined, gone_view};

    ghost both = { joined };

    ghost spent = { gone_view };
}
