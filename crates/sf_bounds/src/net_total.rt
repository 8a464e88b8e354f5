//! What the wires take after all tokens, read off the rows of a path.

ghost use Rattle.std.specs.Prelude.{◌≡◌, ◌<◌, ◌≤◌, ◌+◌, ◌^◌, length, IfSome};
ghost use Rattle.sf_node.specs.declared.part.Part.TheVariants.{Range, Pair, Hull};
ghost use Rattle.sf_node.specs.Children.{IsSubproblem};
ghost use Rattle.sf_standard.specs.Standard.{full_part, rest_part, wire_part, wires_by};
ghost use Rattle.sf_curves.specs.Direction.{token_in};
ghost use Rattle.sf_frames.specs.Kept.{IsNext};
ghost use Rattle.sf_nets.specs.Ends.{IsFitReach, met, reach_gap};
ghost use Rattle.sf_nets.specs.WireParts.{AreWireParts};
ghost use Rattle.sf_bounds.specs.declared.net_frame.Ending.TheVariants.{Joined, Open};
ghost use Rattle.sf_bounds.specs.Rows.{pushed_reach, joined_reach, cell_at, framed};
ghost use Rattle.sf_bounds.specs.Rows.{changed, tokens_of};
ghost use Rattle.sf_bounds.specs.Rows.{IsEnding, IsFitCell, AreKept, AreTop};

use crate::net_frame::{Cell, Changing, Ending, NetFrame, Nets, Totals};
use crate::net_push::{top_pair, wires_after};
use crate::net_rows::joined_reach;
use sf_curves::Direction;
use sf_model::Design;
use sf_nets::{WireParts, met, reach_gap, weighed, with_paths};
use sf_node::Node;
use sf_polish::Token;
use sf_standard::Extent;

/// How the tokens of a subproblem end; none where one block is all there is.
pub fn ending_of(node: &Node) -> Option<Ending>
    ensures { IfSome result (IsEnding node.now) }
{
    if !node.is_complete() {
        return Some(Ending::Open);
    }
    let tokens = node.tokens();
    if tokens.is_empty() {
        return None;
    }
    match tokens[tokens.len() - 1] {
        Token::Beside => Some(Ending::Joined(Direction::Beside)),
        Token::Above => Some(Ending::Joined(Direction::Above)),
        Token::Block(_) => None,
    }
}

/// How many tokens need a frame.
pub fn framed(ending: Ending, node: &Node) -> usize
    requires { IsEnding node.now ending }
    ensures is { result ≡ framed ending node.now.tokens }
    ensures inside { result ≤ length node.now.tokens }
{
    let count = node.tokens().len();
    match ending {
        Ending::Open => count,
        Ending::Joined(_) => count - 1,
    }
}

/// How far the pins of a net are apart in two joined items with the pads.
fn gap_with_pads(direction: Direction, by: Extent, left: Cell, right: Cell, pads: Cell) -> u64
    requires left { IsFitCell left }
    requires right { IsFitCell right }
    requires pads { IsFitCell pads }
    requires moved { IsFitReach (pushed_reach direction by right.reach) }
    ensures is { result ≡ reach_gap (met (joined_reach direction by left.reach right.reach) pads.reach) }
    ensures small { result ≤ 2800000000 }
{
    let joined = joined_reach(direction, by, left.reach, right.reach);
    reach_gap(met(joined, pads.reach))
}

/// The same of one of the nets that count, from the rows of the two items on top.
#[inline(always)]
fn joined_gap(
    nets: &Nets,
    design: &Design,
    node: &Node,
    direction: Direction,
    left: NetFrame,
    right: NetFrame,
    net: usize,
) -> u64
    requires subproblem { IsSubproblem design.now node.now }
    requires kept { AreKept design.now node.now.tokens nets.now }
    requires next { IsNext node.now.tokens (length nets.now.frames.items) (token_in direction) }
    requires top { AreTop design.now node.now.tokens nets.now.cells.items nets.now.start
        nets.now.frames.items left right }
    requires inside { net < length nets.now.weights.items }
    ensures is { let cell = cell_at nets.now.cells.items in
        let of_right = (cell (right.row + net)).reach in
        let items = joined_reach direction left.extent (cell (left.row + net)).reach of_right in
        result ≡ reach_gap (met items (cell (nets.now.start.at + net)).reach) }
    ensures small { result ≤ 2800000000 }
{
    let of_left = nets.cells[left.row + net];
    let of_right = nets.cells[right.row + net];
    let start = nets.cells[nets.start.at + net];
    gap_with_pads(direction, left.extent, of_left, of_right, start)
}

/// What the wires take at least where the last operator leaves one item, in which the pads count too. Its row
/// is made and read in one pass and not kept. Inlined where the direction is known.
#[inline(always)]
fn joined_totals(nets: &Nets, design: &Design, node: &Node, direction: Direction) -> Totals
    requires subproblem { IsSubproblem design.now node.now }
    requires whole { length node.now.steps ≡ length node.now.tokens }
    requires kept { AreKept design.now node.now.tokens nets.now }
    requires ending { IsEnding node.now (Joined direction) }
    requires all { length nets.now.frames.items ≡ framed (Joined direction) node.now.tokens }
    ensures sum { result.sum ≡ wire_part design.now node.now }
    ensures hull { result.hull ≡ wires_by design.now node.now Hull }
    ensures rest { result.rest ≡ rest_part design.now node.now }
    ensures small { result.rest ≤ 2 ^ 60 }
{
    let (left, right) = top_pair(nets, design, node, direction);
    let mut sum = 0;
    let mut hull = 0;
    let mut rest = 0;
    for net in 0..nets.weights.len() {
        let weight = nets.weights[net];
        let spare = nets.lefts[net];
        let start = nets.cells[nets.start.at + net];
        let gap = joined_gap(nets, design, node, direction, left, right, net);
        let part = u64::from(start.part).max(gap);
        sum += weighed(weight, part);
        hull += weighed(weight, gap);
        rest += weighed(spare, part);
    }
    Totals { sum, hull, rest }
}

/// What the wires take at least in an incomplete subproblem by what paths leave of the nets: read off the row
/// of the last frame.
#[inline(always)]
fn open_rest(nets: &Nets, design: &Design, node: &Node) -> u64
    requires subproblem { IsSubproblem design.now node.now }
    requires whole { length node.now.steps ≡ length node.now.tokens }
    requires kept { AreKept design.now node.now.tokens nets.now }
    requires ending { IsEnding node.now Open }
    requires all { length nets.now.frames.items ≡ length node.now.tokens }
    ensures rest { result ≡ rest_part design.now node.now }
    ensures small { result ≤ 2 ^ 60 }
{
    let at = wires_after(nets, design, node, nets.frames.len()).at;
    let mut rest = 0;
    for net in 0..nets.lefts.len() {
        let spare = nets.lefts[net];
        let cell = nets.cells[at + net];
        rest += weighed(spare, u64::from(cell.part));
    }
    rest
}

/// What the wires take at least after all tokens. Inlined, so that what is not read is not summed.
#[inline(always)]
fn totals(nets: &Nets, design: &Design, node: &Node, ending: Ending) -> Totals
    requires subproblem { IsSubproblem design.now node.now }
    requires whole { length node.now.steps ≡ length node.now.tokens }
    requires kept { AreKept design.now node.now.tokens nets.now }
    requires ending { IsEnding node.now ending }
    requires all { length nets.now.frames.items ≡ framed ending node.now.tokens }
    ensures sum { result.sum ≡ wire_part design.now node.now }
    ensures hull { result.hull ≡ wires_by design.now node.now Hull }
    ensures rest { result.rest ≡ rest_part design.now node.now }
    ensures small { result.rest ≤ 2 ^ 60 }
{
    match ending {
        Ending::Joined(Direction::Beside) => joined_totals(nets, design, node, Direction::Beside),
        Ending::Joined(Direction::Above) => joined_totals(nets, design, node, Direction::Above),
        Ending::Open => {
            let wires = wires_after(nets, design, node, nets.frames.len());
            Totals {
                sum: wires.sum,
                hull: wires.hull,
                rest: open_rest(nets, design, node),
            }
        }
    }
}

/// What the wires take at least by nets or by paths, and the gaps alone. Where the ends of the paths lie nowhere
/// apart, what is left of the nets is not looked at.
#[inline(always)]
fn full_and_hull(nets: &Nets, design: &Design, node: &Node, ending: Ending) -> (u64, u64)
    requires subproblem { IsSubproblem design.now node.now }
    requires whole { length node.now.steps ≡ length node.now.tokens }
    requires kept { AreKept design.now node.now.tokens nets.now }
    requires ending { IsEnding node.now ending }
    requires all { length nets.now.frames.items ≡ framed ending node.now.tokens }
    ensures full { result.0 ≡ full_part design.now node.now }
    ensures hull { result.1 ≡ wires_by design.now node.now Hull }
{
    if design.routes.wires == 0 {
        let alone = totals(nets, design, node, ending);
        return (alone.sum, alone.hull);
    }
    let both = totals(nets, design, node, ending);
    (with_paths(design, both.sum, both.rest), both.hull)
}

/// What the wires take at least after all tokens, by each part of the bound.
pub fn total_parts(nets: &Nets, design: &Design, node: &Node, ending: Ending) -> WireParts
    requires subproblem { IsSubproblem design.now node.now }
    requires whole { length node.now.steps ≡ length node.now.tokens }
    requires kept { AreKept design.now node.now.tokens nets.now }
    requires ending { IsEnding node.now ending }
    requires all { length nets.now.frames.items ≡ framed ending node.now.tokens }
    ensures { AreWireParts design.now node.now result }
{
    let (full, hull) = full_and_hull(nets, design, node, ending);
    WireParts {
        range: nets.ranges,
        pair: nets.pairs,
        hull,
        full,
    }
}

/// What the wires take at least after all tokens, by one part of the bound. Inlined where the part is known.
#[inline(always)]
pub fn total_by(nets: &Nets, design: &Design, node: &Node, ending: Ending, part: Changing) -> u64
    requires subproblem { IsSubproblem design.now node.now }
    requires whole { length node.now.steps ≡ length node.now.tokens }
    requires kept { AreKept design.now node.now.tokens nets.now }
    requires ending { IsEnding node.now ending }
    requires all { length nets.now.frames.items ≡ framed ending node.now.tokens }
    ensures { result ≡ wires_by design.now node.now (changed part) }
{
    let (full, hull) = full_and_hull(nets, design, node, ending);
    match part {
        Changing::Hull => hull,
        Changing::Full => full,
    }
}

/// The sums of the ranges and of the pairs, which no token changes.
pub fn steady_sums(nets: &Nets, design: &Design, node: &Node) -> (u64, u64)
    requires subproblem { IsSubproblem design.now node.now }
    requires whole { length node.now.steps ≡ length node.now.tokens }
    requires kept { AreKept design.now (tokens_of nets.now) nets.now }
    ensures range { result.0 ≡ wires_by design.now node.now Range }
    ensures pair { result.1 ≡ wires_by design.now node.now Pair }
{
    (nets.ranges, nets.pairs)
}
