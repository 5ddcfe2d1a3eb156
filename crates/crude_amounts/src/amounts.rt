ghost use Rattle.std.specs.Prelude.{◌≡◌, ℕ, ◌+◌, ◌-◌, ◌<◌, ◌≤◌, ◌^◌, length, sum, replicate, slice_index, slice_set, EachIndex};
ghost use Rattle.limits.specs.declared.TheConstants.{MOST_AMOUNT, MOST_CRUDES};

use crate::cells::{add_each, draw_each, take_each, total, weigh};
use limits::MOST_CRUDES;
use std::marker::Model;

/// Volume units of each crude of a plant, at most [`limits::MOST_AMOUNT`] units in all.
#[derive(Clone, Copy, Debug, PartialEq, Eq)]
pub struct Amounts {
    count: u8,
    cells: [u64; MOST_CRUDES as usize],
}

impl Model for Amounts {
    ghost use Rattle.std.specs.Prelude.{List, ℕ};
    ghost use Rattle.std.specs.Coded.{coded_list, coded_ℕ};

    ghost Value = { List ℕ };

    ghost coded = { coded_list coded_ℕ };

    ghost use Rattle.crude_amounts.specs.Cells.{amounts_in, AreCells, cells_of, cells_of-amounts_in};

    ghost view = { amounts_in };

    ghost invariant = { AreCells };

    ghost inverse = { cells_of };

    ghost inverse_ok = { cells_of-amounts_in };
}

impl Amounts {
    ghost use Rattle.std.specs.Prelude.{ℤ};
    ghost use Rattle.crude_amounts.specs.Draw.{draw_of, DrawsByShares};
    ghost use Rattle.crude_amounts.specs.Blend.{IsNearlyShared};
    ghost use Rattle.crude_amounts.specs.Amounts.{mix_of, rest_of, weighted_of};

    /// Nothing of each of `m` crudes.
    pub fn zero(m: u8) -> Amounts
        requires some { 1 ≤ m }
        requires most { m ≤ MOST_CRUDES }
        ensures { result ≡ replicate m 0 }
    {
        Amounts {
            count: m,
            cells: [0; MOST_CRUDES as usize],
        }
    }

    fn cells(&self) -> &[u64]
        ensures value { result.now ≡ self.now }
        ensures some { 1 ≤ length self.now }
        ensures most { length self.now ≤ MOST_CRUDES }
        ensures total { sum self.now ≤ MOST_AMOUNT }
    {
        &self.cells[..self.count as usize]
    }

    /// Of how many crudes these are the amounts.
    pub fn len(&self) -> u8
        ensures value { result ≡ length self.now }
        ensures some { 1 ≤ result }
        ensures most { result ≤ MOST_CRUDES }
    {
        self.count
    }

    pub fn get(&self, c: u8) -> u64
        requires { c < length self.now }
        ensures value { result ≡ slice_index self.now c }
        ensures most { result ≤ sum self.now }
    {
        self.cells()[c as usize]
    }

    pub fn set(&mut self, c: u8, amount: u64)
        requires crude { c < length self.old }
        requires total { sum (slice_set self.old c amount) ≤ MOST_AMOUNT }
        ensures { self.new ≡ slice_set self.old c amount }
    {
        self.cells[c as usize] = amount;
    }

    pub fn total(&self) -> u64
        ensures value { result ≡ sum self.now }
        ensures most { result ≤ MOST_AMOUNT }
    {
        total(self.cells())
    }

    /// Adds so much of each crude.
    pub fn add(&mut self, other: &Amounts)
        requires lengths { length other.now ≡ length self.old }
        requires total { sum self.old + sum other.now ≤ MOST_AMOUNT }
        ensures value { self.new ≡ mix_of self.old other.now }
        ensures total { sum self.new ≡ sum self.old + sum other.now }
        ensures crudes { length self.new ≡ length self.old }
    {
        add_each(&mut self.cells[..self.count as usize], other.cells());
    }

    /// What the volume holds of each crude.
    fn drawn(&self, volume: u64) -> Amounts
        requires some { 1 ≤ volume }
        requires within { volume ≤ sum self.now }
        ensures value { result ≡ draw_of self.now volume }
        ensures shares { DrawsByShares self.now volume result }
        ensures volume { sum result ≡ volume }
        ensures lengths { length result ≡ length self.now }
        ensures there { EachIndex result (λ c. slice_index result c ≤ slice_index self.now c) }
        ensures near { IsNearlyShared self.now volume result }
    {
        let mut cells = [0; MOST_CRUDES as usize];
        draw_each(self.cells(), volume, &mut cells[..self.count as usize]);
        Amounts {
            count: self.count,
            cells,
        }
    }

    /// Takes so much of each crude.
    fn take(&mut self, drawn: &Amounts)
        requires lengths { length drawn.now ≡ length self.old }
        requires there { EachIndex drawn.now (λ c. slice_index drawn.now c ≤ slice_index self.old c) }
        ensures rest { self.new ≡ rest_of self.old drawn.now }
        ensures left { sum self.new + sum drawn.now ≡ sum self.old }
        ensures crudes { length self.new ≡ length self.old }
    {
        take_each(&mut self.cells[..self.count as usize], drawn.cells());
    }

    /// Takes the volume, and gives what it holds of each crude.
    pub fn draw(&mut self, volume: u64) -> Amounts
        requires some { 1 ≤ volume }
        requires within { volume ≤ sum self.old }
        requires total { sum self.old ≤ 2 ^ 32 }
        ensures value { result ≡ draw_of self.old volume }
        ensures shares { DrawsByShares self.old volume result }
        ensures volume { sum result ≡ volume }
        ensures crudes { length result ≡ length self.old }
        ensures there { EachIndex result (λ c. slice_index result c ≤ slice_index self.old c) }
        ensures near { IsNearlyShared self.old volume result }
        ensures rest { self.new ≡ rest_of self.old result }
        ensures left { sum self.new + volume ≡ sum self.old }
        ensures left_crudes { length self.new ≡ length self.old }
    {
        let drawn = self.drawn(volume);
        self.take(&drawn);
        drawn
    }

    /// The sum over the crudes of amount times weight.
    pub fn weighted(&self, weights: &[i64]) -> i128
        requires { length weights.now ≡ length self.now }
        ensures { result ≡ weighted_of self.now weights.now }
    {
        weigh(self.cells(), weights)
    }
}

#[cfg(test)]
mod tests {
    use super::*;
    use std::process::Abort;

    /// The amounts, crude by crude.
    fn amounts_of(rt: &impl Abort, list: &[u64]) -> Amounts {
        assert!(rt; !list.is_empty() && list.len() <= usize::from(MOST_CRUDES));
        let mut amounts = Amounts::zero(list.len() as u8);
        for (c, amount) in list.iter().enumerate() {
            assert!(rt; c < usize::from(amounts.len()));
            assert!(rt; amounts.total() <= 1000);
            assert!(rt; *amount <= 1000);
            amounts.set(c as u8, *amount);
        }
        amounts
    }

    /// Draws the volume, and compares the draw and the rest.
    fn assert_draws(rt: &impl Abort, held: &mut Amounts, volume: u64, drawn: &[u64], rest: &[u64]) {
        assert!(rt; 0 < volume && volume <= held.total() && held.total() <= 1000);
        assert_eq!(rt; held.draw(volume), amounts_of(rt, drawn));
        assert_eq!(rt; *held, amounts_of(rt, rest));
    }

    #[test]
    fn draws_by_shares(rt: HostRuntime) {
        assert_draws(
            &rt,
            &mut amounts_of(&rt, &[5, 3, 2]),
            7,
            &[3, 2, 2],
            &[2, 1, 0],
        );
        assert_draws(
            &rt,
            &mut amounts_of(&rt, &[1, 1, 1]),
            1,
            &[0, 0, 1],
            &[1, 1, 0],
        );
        assert_draws(
            &rt,
            &mut amounts_of(&rt, &[5, 3, 2]),
            10,
            &[5, 3, 2],
            &[0, 0, 0],
        );
    }

    #[test]
    fn draws_in_either_order(rt: HostRuntime) {
        let mut held = amounts_of(&rt, &[2, 1]);
        assert_draws(&rt, &mut held, 1, &[0, 1], &[2, 0]);
        assert_draws(&rt, &mut held, 2, &[2, 0], &[0, 0]);
        let mut held = amounts_of(&rt, &[2, 1]);
        assert_draws(&rt, &mut held, 2, &[1, 1], &[1, 0]);
        assert_draws(&rt, &mut held, 1, &[1, 0], &[0, 0]);
    }

    #[test]
    fn adds_and_weighs(rt: HostRuntime) {
        let mut held = amounts_of(&rt, &[2, 1, 4]);
        let more = amounts_of(&rt, &[0, 5, 1]);
        assert!(rt; held.len() == 3 && more.len() == 3 && held.total() + more.total() <= 1000);
        held.add(&more);
        assert_eq!(rt; held, amounts_of(&rt, &[2, 6, 5]));
        assert!(rt; held.len() == 3);
        assert_eq!(rt; held.get(1), 6);
        assert_eq!(rt; held.weighted(&[-3, 1, i64::MAX]), 5 * i128::from(i64::MAX));
    }
}
