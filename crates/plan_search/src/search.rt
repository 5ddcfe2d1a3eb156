//! The search for a plan: lists of wishes are changed by chance, and a change is kept where it is no worse.

ghost use Rattle.std.specs.Prelude.{◌≡◌, ◌≤◌, length, vec_len, IfOk, IfSome};

use crate::decoded::{ALL, Decoded, Item};
use crate::decoding::Decoder;
use crate::facts::Facts;
use crate::moves::Wishes;
use crate::numbers::product;
use crate::random::Random;
use crate::repair::repair;
use limits::MOST_SLOTS;
use plant_model::Plant;
use replay_core::{Plan, Timed};
use std::alloc::{AllocError, Global};
use std::mem;

/// How many runs the search has besides the last.
const RUNS: u32 = 4;

/// The part of the work that is left for the last run, of a hundred.
const LAST_PART: u32 = 40;

/// The first run in which a list may become worse.
const FIRST_LENIENT: u32 = 2;

/// The least loss that is let pass, at the beginning, is that part of what all crude might earn.
const LOSS_PART: i128 = 256;

/// How often a list is repaired.
const REPAIRS: u32 = 2;

/// A part of the search, in which one list is changed over and over.
#[derive(Clone, Copy)]
struct Stage {
    /// How much work has been done before.
    from: u32,
    /// How much work has been done when it ends.
    limit: u32,
    /// As much as can be moved is always wanted.
    whole: bool,
    /// The list may become worse, less and less.
    lenient: bool,
}

/// What a search has come to.
#[derive(Drop)]
struct Search {
    facts: Facts,
    decoder: Decoder,
    wishes: Wishes,
    current: Decoded,
    trial: Decoded,
    best: Decoded,
    /// The most operations.
    most: usize,
    /// How many operations have been decoded.
    spent: u32,
}

impl Search {
    fn new(
        alloc: Global,
        plant: &Plant,
        most: usize,
        random: Random,
    ) -> Result<Search, AllocError> {
        let facts = Facts::new(alloc, plant)?;
        Ok(Search {
            decoder: Decoder::new(alloc, &facts)?,
            wishes: Wishes::new(Vec::new(alloc), random, most),
            current: Decoded::worst(alloc, &facts)?,
            trial: Decoded::worst(alloc, &facts)?,
            best: Decoded::worst(alloc, &facts)?,
            most,
            spent: 0,
            facts,
        })
    }

    /// Decodes the wishes.
    fn decode(&mut self) -> Result<(), AllocError> {
        let work = u32::try_from(self.wishes.items.len()).unwrap_or(u32::MAX);
        self.spent = self.spent.saturating_add(work);
        self.decoder
            .decode(&self.facts, self.wishes.items.as_slice(), &mut self.trial)
    }

    /// What was tried is the list now.
    fn accept(&mut self) -> Result<(), AllocError> {
        mem::swap(&mut self.current, &mut self.trial);
        if self.current.is_better_than(&self.best) {
            self.best.copy_from(&self.current)?;
        }
        Ok(())
    }

    /// Begins with the wishes, of which the first are kept that can run.
    fn begin(&mut self) -> Result<(), AllocError> {
        self.decode()?;
        if self.trial.runs.len() > self.most {
            self.trial.copy_items(self.most, &mut self.wishes.items)?;
            self.decode()?;
        }
        self.accept()
    }

    /// Wishes for as much as can be moved of each operation.
    fn wish_for(&mut self, ops: &[u8]) -> Result<(), AllocError> {
        self.wishes.items.clear();
        for op in ops.iter().take(MOST_SLOTS as usize) {
            self.wishes.items.push(Item {
                op: *op,
                wanted: ALL,
            })?;
        }
        Ok(())
    }

    fn repair(&mut self) -> Result<(), AllocError> {
        for _ in 0..REPAIRS {
            if self.trial.score >= self.current.score {
                return Ok(());
            }
            if !repair(&self.facts, &self.trial, self.most, &mut self.wishes)? {
                return Ok(());
            }
            self.decode()?;
        }
        Ok(())
    }

    /// By how much the list may become worse now: mostly not at all, seldom by much, and ever less towards the end.
    fn loss(&mut self, stage: Stage) -> i128 {
        if !stage.lenient {
            return 0;
        }
        let refusals = self.wishes.random.refusals();
        let left = product(refusals, stage.limit.saturating_sub(self.spent));
        let work = i128::from(stage.limit.saturating_sub(stage.from));
        i128::from(self.facts.greatest_margin)
            .saturating_mul(left.into())
            .checked_div(work.saturating_mul(LOSS_PART))
            .unwrap_or(0)
    }

    fn step(&mut self, stage: Stage) -> Result<(), AllocError> {
        self.spent = self.spent.saturating_add(1);
        self.current.copy_items(self.most, &mut self.wishes.items)?;
        if !self.wishes.change(&self.facts, &self.current, stage.whole)? {
            return Ok(());
        }
        self.decode()?;
        self.repair()?;
        let loss = self.loss(stage);
        if self.trial.score.saturating_add(loss) >= self.current.score {
            self.accept()?;
        }
        Ok(())
    }

    /// Changes the list until so much work has been done.
    fn climb(&mut self, stage: Stage) -> Result<(), AllocError> {
        for _ in 0..stage.limit {
            if self.spent >= stage.limit {
                return Ok(());
            }
            self.step(stage)?;
        }
        Ok(())
    }

    /// Begins with the operations, and changes the list until so much work has been done.
    fn run(&mut self, ops: &[u8], stage: Stage) -> Result<(), AllocError> {
        self.wish_for(ops)?;
        self.begin()?;
        self.climb(stage)
    }

    /// Goes on from the best list.
    fn finish(&mut self, work: u32) -> Result<(), AllocError> {
        self.best.copy_items(self.most, &mut self.wishes.items)?;
        self.begin()?;
        self.climb(Stage {
            from: self.spent,
            limit: work,
            whole: false,
            lenient: false,
        })
    }

    /// Takes the changed wishes, where they are no worse and legal.
    fn tidy(&mut self, changed: bool) -> Result<(), AllocError> {
        if !changed {
            return Ok(());
        }
        self.decode()?;
        if self.trial.is_legal() && self.trial.score >= self.current.score {
            self.accept()?;
        }
        Ok(())
    }

    /// Leaves an operation out, or joins it to the same one before it, where nothing is lost by it.
    fn tidy_at(&mut self, at: usize) -> Result<(), AllocError> {
        self.current.copy_items(self.most, &mut self.wishes.items)?;
        let left_out = self.wishes.leave_out(at);
        self.tidy(left_out)?;
        self.current.copy_items(self.most, &mut self.wishes.items)?;
        let joined = self.wishes.join(at, &self.current);
        self.tidy(joined)
    }

    /// Leaves out of the best list what it does as well without.
    fn tidy_best(&mut self) -> Result<(), AllocError> {
        if !self.best.is_legal() {
            return Ok(());
        }
        self.current.copy_from(&self.best)?;
        for at in (0..self.most).rev() {
            self.tidy_at(at)?;
        }
        self.best.copy_from(&self.current)
    }

    /// Runs from the hint and from all operations in turn, and then from the best.
    fn search(&mut self, hint: &[u8], all: &[u8], work: u32) -> Result<(), AllocError> {
        let part = work / 100 * (100 - LAST_PART) / RUNS;
        for k in 0..RUNS {
            let whole = k % 2 == 1;
            let stage = Stage {
                from: part * k,
                limit: part * (k + 1),
                whole,
                lenient: k >= FIRST_LENIENT,
            };
            self.run(if whole { all } else { hint }, stage)?;
        }
        self.finish(work)?;
        self.tidy_best()
    }
}

/// The operations in the order of their starts.
fn steps_of(alloc: Global, decoded: &Decoded) -> Result<Vec<Timed>, AllocError>
    ensures { IfOk result (λ steps. vec_len steps ≡ vec_len decoded.now.runs) }
{
    let mut steps = Vec::new(alloc);
    for run in decoded.runs.iter() {
        steps.push(Timed {
            op: run.item.op,
            start: run.start,
            end: run.end,
            volume: run.volume,
        })?;
    }
    steps.sort_by_key(|step| step.start)?;
    Ok(steps)
}

/// The operations as a plan, where they are thought to be legal and are few enough.
fn plan_of(alloc: Global, decoded: &Decoded, most: usize) -> Result<Option<Plan>, AllocError>
    ensures { IfOk result (λ found. IfSome found (λ plan. length plan ≤ most)) }
{
    if decoded.runs.len() > most {
        return Ok(None);
    }
    if !decoded.is_legal() {
        return Ok(None);
    }
    Ok(Some(Plan::from_vec(steps_of(alloc, decoded)?)))
}

/// All operations, in rising number.
fn all_ops(alloc: Global, plant: &Plant) -> Result<Vec<u8>, AllocError> {
    let mut ops = Vec::new(alloc);
    for v in 0..plant.op_count() {
        ops.push(v)?;
    }
    Ok(ops)
}

/// Looks for a plan of at most n operations until so many have been decoded; what it begins with is decoded in any case.
/// Nothing is promised of the plan but its length: whether it is legal, and what it earns, is for a replay to say.
pub fn find_plan(
    alloc: Global,
    plant: &Plant,
    n: u32,
    hint: &[u8],
    work: u32,
) -> Result<Option<Plan>, AllocError>
    ensures { IfOk result (λ found. IfSome found (λ plan. length plan ≤ n)) }
{
    let most = n.min(MOST_SLOTS.into()) as usize;
    let all = all_ops(alloc, plant)?;
    let mut search = Search::new(alloc, plant, most, Random::new(hint))?;
    search.search(hint, all.as_slice(), work)?;
    plan_of(alloc, &search.best, most)
}
