ghost use Rattle.std.specs.Prelude.{◌≡◌, ◌≤◌, ◌<◌, length, IfOk, replicate, slice_set};
ghost use Rattle.linear_form.specs.Columns.{Extent, IsColumn, count_of, part_number, number_of};

use crate::{Column, Part};
use std::alloc::{AllocError, Global};
use std::marker::Model;

/// The whole numbers from `lo` to `hi`, both among them.
#[derive(Clone, Copy, Debug, PartialEq, Eq)]
pub struct Interval {
    pub lo: i64,
    pub hi: i64,
}

/// A least and a greatest number for each column of a form of so many slots, operations, crudes and vessels.
#[derive(Debug, Drop)]
pub struct Ranges {
    slots: u32,
    ops: u8,
    crudes: u8,
    vessels: u8,
    ends: Vec<Interval>,
}

impl Model for Ranges {
    ghost use Rattle.std.specs.Prelude.{◌≡◌, length};
    ghost use Rattle.linear_form.specs.Columns.{Extent, count_of};
    ghost use Rattle.linear_form.specs.Bounds.{Bounds};

    ghost Value = { Bounds };

    ghost view = { λ ranges. record {
      extent = record { slots = ranges.slots; ops = ranges.ops; crudes = ranges.crudes; vessels = ranges.vessels };
      ends = ranges.ends.items;
    } };

    ghost invariant = { λ ranges. length ranges.ends.items ≡
        count_of (record {
          slots = ranges.slots;
          ops = ranges.ops;
          crudes = ranges.crudes;
          vessels = ranges.vessels;
        }) };
}

/// The number of a part in the order of parts.
fn part_number(part: Part) -> usize
    ensures value { result ≡ part_number part }
    ensures most { result ≤ 258 }
{
    match part {
        Part::Z | Part::W => 0,
        Part::S => 1,
        Part::E => 2,
        Part::A(crude) => 3 + crude as usize,
    }
}

/// How many columns a form of that extent has.
fn column_count(slots: u32, ops: u8, crudes: u8, vessels: u8) -> usize
    ensures { result ≡ count_of (record { slots = slots; ops = ops; crudes = crudes; vessels = vessels }) }
{
    let slots = slots as usize;
    slots + slots * ops as usize * (crudes as usize + 3) + vessels as usize
}

impl Ranges {
    ghost use Rattle.linear_form.specs.Bounds.{Bounds, range_of, zero_alone, KeepsOthers};

    /// 0 alone for each column.
    pub fn new(
        alloc: Global,
        slots: u32,
        ops: u8,
        crudes: u8,
        vessels: u8,
    ) -> Result<Ranges, AllocError>
        ensures extent { IfOk result (λ ranges.
            ranges.extent ≡ record { slots = slots; ops = ops; crudes = crudes; vessels = vessels }) }
        ensures zeros { IfOk result (λ ranges. ranges.ends ≡ replicate (count_of ranges.extent) zero_alone) }
    {
        let zero = Interval { lo: 0, hi: 0 };
        let count = column_count(slots, ops, crudes, vessels);
        Ok(Ranges {
            slots,
            ops,
            crudes,
            vessels,
            ends: vec![in alloc; zero; count]?,
        })
    }

    /// How many slots the form has.
    pub fn slots(&self) -> u32
        ensures { result ≡ self.now.extent.slots }
    {
        self.slots
    }

    /// How many operations.
    pub fn ops(&self) -> u8
        ensures { result ≡ self.now.extent.ops }
    {
        self.ops
    }

    /// How many crudes.
    pub fn crudes(&self) -> u8
        ensures { result ≡ self.now.extent.crudes }
    {
        self.crudes
    }

    /// How many vessels.
    pub fn vessels(&self) -> u8
        ensures { result ≡ self.now.extent.vessels }
    {
        self.vessels
    }

    /// The place of a column among the columns.
    fn place(&self, column: Column) -> usize
        requires { IsColumn self.now.extent column }
        ensures { result ≡ number_of self.now.extent column }
    {
        if column.slot == 0 {
            // its place is the count of columns where the vessels before it are all
            return column_count(self.slots, self.ops, self.crudes, column.entry);
        }
        let before = column.slot as usize - 1;
        if column.entry < self.ops {
            let operations = before * self.ops as usize + column.entry as usize;
            self.slots as usize
                + (operations * (self.crudes as usize + 3) + part_number(column.part))
        } else {
            before
        }
    }

    /// The place of a column among the columns, for which there is a range.
    pub fn number(&self, column: Column) -> usize
        requires { IsColumn self.now.extent column }
        ensures value { result ≡ number_of self.now.extent column }
        ensures there { result < length self.now.ends }
    {
        let _ops = self.ops;
        self.place(column)
    }

    /// The ranges of all columns, in their order.
    pub fn ends(&self) -> &[Interval]
        ensures value { result.now ≡ self.now.ends }
        ensures count { length self.now.ends ≡ count_of self.now.extent }
        ensures ops { self.now.extent.ops ≤ 255 }
    {
        let _ops = self.ops;
        self.ends.as_slice()
    }

    /// The least and the greatest number of a column.
    pub fn get(&self, column: Column) -> (i64, i64)
        requires { IsColumn self.now.extent column }
        ensures lo { result.0 ≡ (range_of self.now column).lo }
        ensures hi { result.1 ≡ (range_of self.now column).hi }
    {
        let Interval { lo, hi } = self.ends[self.number(column)];
        (lo, hi)
    }

    /// Gives a column its least and its greatest number, and leaves the others.
    pub fn set(&mut self, column: Column, lo: i64, hi: i64)
        requires { IsColumn self.old.extent column }
        ensures extent { self.new.extent ≡ self.old.extent }
        ensures ends { self.new.ends ≡
            slice_set self.old.ends (number_of self.old.extent column) (record { lo = lo; hi = hi }) }
        ensures column { range_of self.new column ≡ record { lo = lo; hi = hi } }
        ensures others { KeepsOthers column self.old self.new }
    {
        let number = self.number(column);
        self.ends[number] = Interval { lo, hi };
    }
}
