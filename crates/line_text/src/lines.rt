ghost use Rattle.std.specs.Prelude.{◌≡◌, ◌<◌, ◌+◌, ◌^◌, [], None, Some, true, ◌↔◌, IfNone, MatchOption};
ghost use Rattle.line_text.specs.Lines.{lines_of, line_at};

use crate::words::split_at_mark;
use std::marker::Model;

/// The lines of a text, one after the other: what is left of the text, and the number of the line that comes next.
#[derive(Debug, Drop)]
pub struct Lines<'a> {
    rest: &'a [u8],
    number: u32,
}

impl<'a> Model for Lines<'a> {
    ghost use Rattle.line_text.specs.Lines.{LinesLeft};

    ghost Value = { LinesLeft };

    ghost view = { λ lines. record { rest = lines.rest.now; number = lines.number } };
}

impl<'a> Lines<'a> {
    /// All lines of the text, of which the first has the number 1.
    pub fn new(text: &'a [u8]) -> Lines<'a>
        ensures { result ≡ lines_of text.entry.now }
    {
        Lines {
            rest: text,
            number: 1,
        }
    }

    /// The number of the line that comes next.
    pub fn number(&self) -> u32
        ensures { result ≡ self.now.number }
    {
        self.number
    }

    /// Whether no byte is left.
    pub fn is_at_end(&self) -> bool
        ensures { (result ≡ true) ↔ (self.now.rest ≡ []) }
    {
        self.rest.is_empty()
    }

    /// The next line without its line feed. Where there is no line feed any more, nothing is read.
    #[tactic(auto, unfolding(crate::specs::Lines::line_at))]
    pub fn next_line(&mut self) -> Option<&'a [u8]>
        requires { self.old.number + 1 < 2 ^ 32 }
        ensures exact { MatchOption result (line_at self.old ≡ None) (λ line. line_at self.old
            ≡ Some (line.now, self.new)) }
        ensures stays { IfNone result (self.new ≡ self.old) }
    {
        let (line, rest) = split_at_mark(self.rest, b'\n')?;
        self.rest = rest;
        self.number += 1;
        Some(line)
    }
}
