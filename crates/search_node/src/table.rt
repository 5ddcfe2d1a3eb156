//! The table that a worker keeps of a plant and of so many slots.

ghost use Rattle.std.specs.Prelude.{◌≡◌, ◌+◌, ◌<◌, ◌≤◌, ℕ, [], ◌∷◌, ◌++◌, false, IfOk, IfSome, OnOk, length};
ghost use Rattle.limits.specs.declared.TheConstants.{MOST_ROWS, MOST_SLOTS};
ghost use Rattle.named_rows.specs.NamedRows.{IsNamed};
ghost use Rattle.overlap_graph.specs.Cliques.{cliques_of};
ghost use Rattle.plant_model.specs.declared.parts.Parts.{Parts};
ghost use Rattle.row_forms.specs.Fits.{IsFitRow};
ghost use Rattle.search_node.specs.inside.Spans.{AreBlocks, HaveIfRow, HaveSpans, KeepNames};
ghost use Rattle.search_node.specs.Tables.{IsBlockOf, HaveName, HavePlainRows, IsTableOf};

use crate::block::RowBlock;
use crate::names::{
    NameSpans, amount_names, before_last, berth_names, choice_names, clique_names, emptied_names,
    idle_names, limit_names, normal_names, only, operation_names, sided_names, total_names,
    wait_names,
};
use item_lists::Items;
use linear_form::{Objective, Row};
use named_rows::named_row;
use overlap_graph::Masks;
use plant_model::Plant;
use slot_box::RowName;
use slot_rows::objective;
use std::alloc::{AllocError, Global};

/// As many blocks of rows that no plain guess takes are kept, so that there is room for those of the greatest plants.
const MOST_OTHERS: usize = 48;

/// What boxes of a plant and of so many slots have in common: the objective of their forms, and rows by name.
#[derive(Debug, Drop)]
pub struct RowTable {
    pub objective: Objective,
    /// The rows of plain guesses: volumes, totals of tanks, demands.
    pub plain: Items<RowBlock>,
    /// Rows of other families.
    pub others: Items<RowBlock>,
}

/// Of what rows are made, and how many blocks of them at most.
#[derive(Drop)]
struct Source<'a> {
    plant: &'a Plant,
    cliques: &'a Masks,
    n: u32,
    most: Option<usize>,
}

/// Takes out the last block, where it has room, or makes a new one.
fn take_last(
    alloc: Global,
    source: &Source,
    blocks: &mut Items<RowBlock>,
) -> Result<RowBlock, AllocError>
    requires { AreBlocks source.now.plant.now source.now.n blocks.old }
    ensures rest { OnOk result (AreBlocks source.now.plant.now source.now.n blocks.new) }
    ensures block { IfOk result (IsBlockOf source.now.plant.now source.now.n) }
    ensures room { IfOk result (λ block. length block.names < MOST_ROWS) }
    ensures kept { IfOk result (λ block. KeepNames blocks.old (blocks.new ++ block ∷ [])) }
{
    let Some(last) = blocks.pop() else {
        return Ok(RowBlock::new(alloc));
    };
    if last.is_full() {
        blocks.push(last).map_err(|_| AllocError)?;
        return Ok(RowBlock::new(alloc));
    }
    Ok(last)
}

/// Adds a row under its name.
fn add_row(
    alloc: Global,
    source: &Source,
    blocks: &mut Items<RowBlock>,
    name: RowName,
    row: Row,
) -> Result<(), AllocError>
    requires blocks { AreBlocks source.now.plant.now source.now.n blocks.old }
    requires named { IsNamed source.now.plant.now source.now.n name row }
    requires fits { IsFitRow source.now.plant.now source.now.n row }
    ensures blocks { OnOk result (AreBlocks source.now.plant.now source.now.n blocks.new) }
    ensures kept { OnOk result (KeepNames blocks.old blocks.new) }
    ensures there { OnOk result (HaveName blocks.new name) }
{
    let mut block = take_last(alloc, source, blocks)?;
    block.push(name, row)?;
    blocks.push(block).map_err(|_| AllocError)?;
    Ok(())
}

/// Whether there are as many blocks as there may be.
fn is_enough(source: &Source, blocks: &Items<RowBlock>) -> bool
    ensures { source.now.most ≡ None → result ≡ false }
{
    match source.most {
        None => false,
        Some(most) => most <= blocks.as_slice().len(),
    }
}

/// Adds the row of a name, where there is one.
fn add_name(
    alloc: Global,
    source: &Source,
    blocks: &mut Items<RowBlock>,
    name: RowName,
) -> Result<(), AllocError>
    requires cliques { source.now.cliques.now ≡ cliques_of source.now.plant.now }
    requires blocks { AreBlocks source.now.plant.now source.now.n blocks.old }
    ensures blocks { OnOk result (AreBlocks source.now.plant.now source.now.n blocks.new) }
    ensures kept { OnOk result (KeepNames blocks.old blocks.new) }
    ensures there { source.now.most ≡ None → OnOk result (HaveIfRow source.now.plant.now source.now.n blocks.new name) }
{
    if is_enough(source, blocks) {
        return Ok(());
    }
    match named_row(alloc, source.plant, source.cliques, source.n, name)? {
        None => Ok(()),
        Some(row) => add_row(alloc, source, blocks, name, row),
    }
}

/// Adds the rows of names that differ in their last number.
fn add_by_last(
    alloc: Global,
    source: &Source,
    blocks: &mut Items<RowBlock>,
    spans: NameSpans,
) -> Result<(), AllocError>
    requires cliques { source.now.cliques.now ≡ cliques_of source.now.plant.now }
    requires one_a { spans.a.below ≡ spans.a.from + 1 }
    requires one_b { spans.b.below ≡ spans.b.from + 1 }
    requires one_c { spans.c.below ≡ spans.c.from + 1 }
    requires blocks { AreBlocks source.now.plant.now source.now.n blocks.old }
    ensures blocks { OnOk result (AreBlocks source.now.plant.now source.now.n blocks.new) }
    ensures kept { OnOk result (KeepNames blocks.old blocks.new) }
    ensures there { source.now.most ≡ None → OnOk result
        (HaveSpans source.now.plant.now source.now.n spans blocks.new) }
{
    for d in spans.d.from..spans.d.below {
        let name = RowName {
            family: spans.family,
            a: spans.a.from,
            b: spans.b.from,
            c: spans.c.from,
            d,
        };
        add_name(alloc, source, blocks, name)?;
    }
    Ok(())
}

/// Adds the rows of names that differ in their third and last numbers.
fn add_by_third(
    alloc: Global,
    source: &Source,
    blocks: &mut Items<RowBlock>,
    spans: NameSpans,
) -> Result<(), AllocError>
    requires cliques { source.now.cliques.now ≡ cliques_of source.now.plant.now }
    requires one_a { spans.a.below ≡ spans.a.from + 1 }
    requires one_b { spans.b.below ≡ spans.b.from + 1 }
    requires blocks { AreBlocks source.now.plant.now source.now.n blocks.old }
    ensures blocks { OnOk result (AreBlocks source.now.plant.now source.now.n blocks.new) }
    ensures kept { OnOk result (KeepNames blocks.old blocks.new) }
    ensures there { source.now.most ≡ None → OnOk result
        (HaveSpans source.now.plant.now source.now.n spans blocks.new) }
{
    for c in spans.c.from..spans.c.below {
        let spans = NameSpans {
            c: only(c),
            ..spans
        };
        add_by_last(alloc, source, blocks, spans)?;
    }
    Ok(())
}

/// Adds the rows of names that differ in all but their first number.
fn add_by_second(
    alloc: Global,
    source: &Source,
    blocks: &mut Items<RowBlock>,
    spans: NameSpans,
) -> Result<(), AllocError>
    requires cliques { source.now.cliques.now ≡ cliques_of source.now.plant.now }
    requires one_a { spans.a.below ≡ spans.a.from + 1 }
    requires blocks { AreBlocks source.now.plant.now source.now.n blocks.old }
    ensures blocks { OnOk result (AreBlocks source.now.plant.now source.now.n blocks.new) }
    ensures kept { OnOk result (KeepNames blocks.old blocks.new) }
    ensures there { source.now.most ≡ None → OnOk result
        (HaveSpans source.now.plant.now source.now.n spans blocks.new) }
{
    for b in spans.b.from..spans.b.below {
        let spans = NameSpans {
            b: only(b),
            ..spans
        };
        add_by_third(alloc, source, blocks, spans)?;
    }
    Ok(())
}

/// Adds the rows of names.
fn add_names(
    alloc: Global,
    source: &Source,
    blocks: &mut Items<RowBlock>,
    spans: NameSpans,
) -> Result<(), AllocError>
    requires cliques { source.now.cliques.now ≡ cliques_of source.now.plant.now }
    requires blocks { AreBlocks source.now.plant.now source.now.n blocks.old }
    ensures blocks { OnOk result (AreBlocks source.now.plant.now source.now.n blocks.new) }
    ensures kept { OnOk result (KeepNames blocks.old blocks.new) }
    ensures there { source.now.most ≡ None → OnOk result
        (HaveSpans source.now.plant.now source.now.n spans blocks.new) }
{
    for a in spans.a.from..spans.a.below {
        let spans = NameSpans {
            a: only(a),
            ..spans
        };
        add_by_second(alloc, source, blocks, spans)?;
    }
    Ok(())
}

/// The rows of plain guesses.
fn plain_rows(
    alloc: Global,
    plant: &Plant,
    cliques: &Masks,
    n: u32,
) -> Result<Items<RowBlock>, AllocError>
    requires cliques { cliques.now ≡ cliques_of plant.now }
    requires few { n ≤ MOST_SLOTS }
    ensures blocks { IfOk result (AreBlocks plant.now n) }
    ensures all { IfOk result (HavePlainRows plant.now n) }
{
    let source = Source {
        plant,
        cliques,
        n,
        most: None,
    };
    let mut blocks = Items::new(alloc);
    add_names(alloc, &source, &mut blocks, operation_names(plant, n, 2, 2))?;
    add_names(alloc, &source, &mut blocks, total_names(plant, n))?;
    add_names(alloc, &source, &mut blocks, sided_names(plant, 9))?;
    Ok(blocks)
}

/// Rows of other families, the coarsest first.
fn other_rows(
    alloc: Global,
    plant: &Plant,
    cliques: &Masks,
    n: u32,
) -> Result<Items<RowBlock>, AllocError>
    requires cliques { cliques.now ≡ cliques_of plant.now }
    requires few { n ≤ MOST_SLOTS }
    ensures { IfOk result (AreBlocks plant.now n) }
{
    let source = Source {
        plant,
        cliques,
        n,
        most: Some(MOST_OTHERS),
    };
    let mut blocks = Items::new(alloc);
    for spans in [
        amount_names(plant, only(n as u16)),
        emptied_names(plant),
        sided_names(plant, 11),
        sided_names(plant, 12),
        choice_names(n),
        wait_names(plant, n),
        limit_names(plant, n),
        idle_names(n),
        berth_names(plant, n),
        normal_names(plant, n),
        amount_names(plant, before_last(n)),
        operation_names(plant, n, 3, 2),
        operation_names(plant, n, 4, 3),
        clique_names(cliques.as_slice(), n),
    ] {
        add_names(alloc, &source, &mut blocks, spans)?;
    }
    Ok(blocks)
}

/// The row of a name, where one of the blocks has it.
fn find_in(blocks: &[RowBlock], name: RowName) -> Option<&Row>
    ensures { (parts : Parts) (n : ℕ) → AreBlocks parts n blocks.now → IfSome result (λ row.
        IsNamed parts n name row.now × IsFitRow parts n row.now) }
{
    for block in blocks {
        if let Some(row) = block.find(name) {
            return Some(row);
        }
    }
    None
}

impl RowTable {
    /// The table of a plant and of so many slots.
    pub fn new(
        alloc: Global,
        plant: &Plant,
        cliques: &Masks,
        n: u32,
    ) -> Result<RowTable, AllocError>
        requires cliques { cliques.now ≡ cliques_of plant.now }
        requires few { n ≤ MOST_SLOTS }
        ensures { IfOk result (IsTableOf plant.now n) }
    {
        Ok(RowTable {
            objective: objective(alloc, plant, n)?,
            plain: plain_rows(alloc, plant, cliques, n)?,
            others: other_rows(alloc, plant, cliques, n)?,
        })
    }

    /// The row of a name, where the table has it.
    pub(crate) fn find(&self, name: RowName) -> Option<&Row>
        ensures { (parts : Parts) (n : ℕ) → IsTableOf parts n self.now → IfSome result (λ row.
            IsNamed parts n name row.now × IsFitRow parts n row.now) }
    {
        match find_in(self.plain.as_slice(), name) {
            Some(row) => Some(row),
            None => find_in(self.others.as_slice(), name),
        }
    }
}
