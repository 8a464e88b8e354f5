//! The curves of all sets of blocks.

ghost use Rattle.std.specs.Prelude.{◌≡◌, ◌+◌, ◌^◌, ◌<◌, ◌≤◌, [], ◌∷◌, ◌++◌, length, All, IfOk, OnOk};
ghost use Rattle.sf_curves.specs.Points.{area_of};
ghost use Rattle.sf_model.specs.Legal.{block_count};
ghost use Rattle.sf_subsets.specs.Covering.{AreLeasts};
ghost use Rattle.sf_subsets.specs.Gathering.{AddsPair, AddsSplits, HasFloors, IsSetCurve, IsTable, curve_at};
ghost use Rattle.sf_subsets.specs.Sets.{IsPart};

use crate::budget::Budget;
use crate::gathering::{gather_pair, push_small};
use sf_curves::{Curve, Point, area};
use sf_model::{Design, Outline};
use std::alloc::{AllocError as NoMemory, Global};

/// The curves of all sets below a number, by the numbers of the sets, and for each curve an area that is no
/// greater than that of any of its points.
#[derive(Drop)]
pub struct Table {
    pub curves: Vec<Curve>,
    pub floors: Vec<u64>,
}

/// The least area of a point of the curve; where there is none, an area above each limit.
fn floor_of(curve: &Curve) -> u64
    requires { All (λ p. area_of p ≤ 2 ^ 40) curve.now }
    ensures floor { All (λ p. result ≤ area_of p) curve.now }
    ensures small { result ≤ 2 ^ 50 }
{
    match curve.least_area() {
        Some(point) => area(point),
        None => 1 << 50,
    }
}

/// Adds the curve of the next set.
fn push_curve(table: &mut Table, curve: Curve) -> Result<(), NoMemory>
    requires small { All (λ p. area_of p ≤ 2 ^ 40) curve }
    requires floors { HasFloors table.old }
    ensures curves { OnOk result (table.new.curves.items ≡ table.old.curves.items ++ curve ∷ []) }
    ensures floors { OnOk result (HasFloors table.new) }
{
    let floor = floor_of(&curve);
    table.curves.push(curve)?;
    table.floors.push(floor)?;
    Ok(())
}

/// The curve of no block, which has no plan.
fn empty_curve(alloc: Global, outline: Outline) -> Result<Curve, NoMemory>
    ensures { IfOk result (λ curve. curve ≡ []) }
{
    let none: Vec<Point> = Vec::new(alloc);
    Curve::of_shapes_in(Vec::new(alloc), &none, outline)
}

/// Adds the joins of two sets' points, unless the floors of their curves pass the limit together: then each
/// join does.
#[inline(always)]
fn gather_near(
    found: &mut Vec<Point>,
    sizes: &mut Vec<Point>,
    table: &Table,
    first: usize,
    second: usize,
    outline: Outline,
    limit: u64,
) -> Result<(), NoMemory>
    requires first { first < length table.now.curves.items }
    requires second { second < length table.now.curves.items }
    requires floors { HasFloors table.now }
    ensures { OnOk result (AddsPair outline limit (curve_at table.now.curves.items first)
        (curve_at table.now.curves.items second) found.old.items found.new.items) }
{
    if table.floors[first] + table.floors[second] > limit {
        return Ok(());
    }
    gather_pair(
        found,
        sizes,
        &table.curves[first],
        &table.curves[second],
        outline,
        limit,
    )
}

/// Adds the joins of all splits of the next set whose second part lies in `rest`, in falling order of this
/// part.
fn gather_splits(
    found: &mut Vec<Point>,
    sizes: &mut Vec<Point>,
    table: &Table,
    rest: usize,
    outline: Outline,
    limit: u64,
) -> Result<(), NoMemory>
    requires below { rest < length table.now.curves.items }
    requires part { IsPart rest (length table.now.curves.items) }
    requires floors { HasFloors table.now }
    ensures { OnOk result (AddsSplits outline limit table.now.curves.items (length table.now.curves.items)
        rest 0 found.old.items found.new.items) }
{
    let set = table.curves.len();
    let mut part = rest;
    while part > 0 {
        gather_near(found, sizes, table, set - part, part, outline, limit)?;
        part = (part - 1) & rest;
    }
    Ok(())
}

/// The curve of the next set, of the block and of `rest`, which are blocks before it.
fn set_curve(
    found: &mut Vec<Point>,
    sizes: &mut Vec<Point>,
    design: &Design,
    budget: &Budget,
    table: &Table,
    block: u16,
    rest: usize,
) -> Result<Curve, NoMemory>
    requires inside { block < block_count design.now }
    requires below { rest < 2 ^ block }
    requires leasts { AreLeasts design.now budget.now.leasts.items }
    requires table { IsTable design.now budget.now (2 ^ block + rest) table.now }
    ensures { IfOk result (IsSetCurve design.now budget.now table.now.curves.items (2 ^ block + rest)) }
{
    let limit = budget.limit(table.curves.len());
    found.clear();
    if rest == 0 {
        push_small(found, design.shapes_of(block), limit)?;
    }
    gather_splits(found, sizes, table, rest, design.outline, limit)?;
    Curve::of_shapes_in(Vec::new(*found.allocator()), found, design.outline)
}

/// Adds the curves of all sets whose highest block is the next one.
fn add_block(
    alloc: Global,
    table: &mut Table,
    design: &Design,
    budget: &Budget,
    block: u16,
) -> Result<(), NoMemory>
    requires inside { block < block_count design.now }
    requires leasts { AreLeasts design.now budget.now.leasts.items }
    requires table { IsTable design.now budget.now (2 ^ block) table.old }
    ensures { OnOk result (IsTable design.now budget.now (2 ^ (block + 1)) table.new) }
{
    let mut found = Vec::new(alloc);
    let mut sizes = Vec::new(alloc);
    let others = table.curves.len();
    for rest in 0..others {
        let curve = set_curve(&mut found, &mut sizes, design, budget, table, block, rest)?;
        push_curve(table, curve)?;
    }
    Ok(())
}

/// The curves of all sets within the budget.
pub fn set_curves(alloc: Global, design: &Design, budget: &Budget) -> Result<Table, NoMemory>
    requires leasts { AreLeasts design.now budget.now.leasts.items }
    ensures { IfOk result (IsTable design.now budget.now (2 ^ block_count design.now)) }
{
    let mut table = Table {
        curves: Vec::new(alloc),
        floors: Vec::new(alloc),
    };
    push_curve(&mut table, empty_curve(alloc, design.outline)?)?;
    for block in 0..design.block_count() {
        add_block(alloc, &mut table, design, budget, block)?;
    }
    Ok(table)
}
