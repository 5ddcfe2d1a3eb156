ghost use Rattle.std.specs.Prelude.{◌≡◌, ◌≤◌, None, Some, IfSome, MatchOption};
ghost use Rattle.std.specs.Option.{option_map};
ghost use Rattle.std.specs.Iterator.{YieldsFirstRef, item_count};
ghost use Rattle.line_text.specs.Words.{words_of, parts_at};
ghost use Rattle.line_text.specs.Reading.{key_at, decimal_at, signed_at, name_at, end_at, number_before};

use crate::decimal::{read_decimal, read_signed};
use crate::name::is_name;
use std::marker::Model;

/// What stands before the first byte that is the mark, and what after it.
pub fn split_at_mark(bytes: &[u8], mark: u8) -> Option<(&[u8], &[u8])>
    ensures { option_map (λ parts. (parts.0.now, parts.1.now)) result ≡ parts_at mark bytes.now }
{
    for (at, byte) in bytes.iter().enumerate() {
        if *byte == mark {
            return Some((&bytes[..at], &bytes[at + 1..]));
        }
    }
    None
}

/// The decimal of at most the limit that stands before the first mark, and what stands after it.
#[tactic(auto, unfolding(crate::specs::Reading::number_before))]
pub fn read_before(bytes: &[u8], mark: u8, limit: u64) -> Option<(u64, &[u8])>
    ensures exact { option_map (λ parts. (parts.0, parts.1.now)) result ≡ number_before mark limit bytes.now }
    ensures within { IfSome result (λ parts. parts.0 ≤ limit) }
{
    let (digits, rest) = split_at_mark(bytes, mark)?;
    let number = read_decimal(digits, limit)?;
    Some((number, rest))
}

/// The words of a line, one after the other.
#[derive(Debug, Drop)]
pub struct Words<'a> {
    rest: Option<&'a [u8]>,
}

impl<'a> Model for Words<'a> {
    ghost use Rattle.std.specs.Prelude.{ℕ, List};
    ghost use Rattle.line_text.specs.inside.Rest.{words_left};

    ghost Value = { List (List ℕ) };

    ghost view = { λ words. words_left words.rest };
}

impl<'a> Words<'a> {
    /// All words of the line.
    pub fn new(line: &'a [u8]) -> Words<'a>
        ensures { result ≡ words_of line.entry.now }
    {
        Words { rest: Some(line) }
    }

    /// Passes over the next word, which is to be this one.
    #[tactic(auto, unfolding(crate::specs::Reading::key_at))]
    pub fn key(&mut self, key: &[u8]) -> Option<()>
        ensures { MatchOption result (key_at key.now self.old ≡ None) (λ _. key_at key.now self.old ≡ Some self.new) }
    {
        let word = self.next()?;
        if word == key { Some(()) } else { None }
    }

    /// The next word, which is to be a decimal of at most the limit.
    #[tactic(auto, unfolding(crate::specs::Reading::decimal_at))]
    pub fn decimal(&mut self, limit: u64) -> Option<u64>
        ensures exact { MatchOption result (decimal_at limit self.old ≡ None) (λ number. decimal_at limit self.old
            ≡ Some (number, self.new)) }
        ensures within { IfSome result (λ number. number ≤ limit) }
    {
        let word = self.next()?;
        read_decimal(word, limit)
    }

    /// The next word, which is to be a decimal with a sign.
    #[tactic(auto, unfolding(crate::specs::Reading::signed_at))]
    pub fn signed(&mut self) -> Option<i64>
        ensures { MatchOption result (signed_at self.old ≡ None) (λ number. signed_at self.old
            ≡ Some (number, self.new)) }
    {
        let word = self.next()?;
        read_signed(word)
    }

    /// The next word, which is to be a name.
    #[tactic(auto, unfolding(crate::specs::Reading::name_at))]
    pub fn name(&mut self) -> Option<&'a [u8]>
        ensures { MatchOption result (name_at self.old ≡ None) (λ name. name_at self.old ≡ Some (name.now, self.new)) }
    {
        let word = self.next()?;
        if is_name(word) { Some(word) } else { None }
    }

    /// That no word is left.
    #[tactic(auto, unfolding(crate::specs::Reading::end_at))]
    pub fn end(&mut self) -> Option<()>
        ensures { MatchOption result (end_at self.old ≡ None) (λ _. end_at self.old ≡ Some self.new) }
    {
        match self.next() {
            None => Some(()),
            Some(_) => None,
        }
    }
}

impl<'a> Iterator for Words<'a> {
    type Item = &'a [u8];

    ghost next_gives = { YieldsFirstRef (λ words. words) };

    ghost remaining = { item_count (λ words. words) };

    fn next(&mut self) -> Option<&'a [u8]> {
        let rest = self.rest?;
        match split_at_mark(rest, b' ') {
            None => {
                self.rest = None;
                Some(rest)
            }
            Some((word, rest)) => {
                self.rest = Some(rest);
                Some(word)
            }
        }
    }
}
