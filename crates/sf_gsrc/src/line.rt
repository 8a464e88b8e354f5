//! What a line of a block file says by itself. Nothing here takes memory.

ghost use Rattle.std.specs.Prelude.{◌≡◌, ◌≤◌, ◌<◌, ◌*◌, length, IfOk, Ok, Err};
ghost use Rattle.sf_lex.specs.Text.{words};
ghost use Rattle.sf_lex.specs.Gap.{is_gap, first_word};
ghost use Rattle.sf_gsrc.specs.Line.{count_said, soft_said, count_in_word, aspect_in_word, area_in_word};
ghost use Rattle.sf_gsrc.specs.Line.{vertex_fault, box_said, hard_said, plain_said};
ghost use Rattle.sf_gsrc.specs.Statement.{IsNamed, Says};

use crate::fault::LineFault;
use crate::keywords::{Form, read_form};
use sf_lex::{
    BoxSize, Gap, LENGTH_LIMIT, Scale, VertexFault, count_fields, next_field, read_area, read_box,
    read_decimal, split_word,
};
use sf_parts::Kind;

/// What a line says that is no count line.
#[derive(Clone, Copy)]
pub enum Statement<'a> {
    Block(&'a [u8], Kind),
    Pad(&'a [u8]),
}

/// The greatest aspect, in millionths.
const ASPECT_LIMIT: u64 = 1_000_000_000_000;

/// A count.
fn read_count(word: &[u8]) -> Result<u64, LineFault>
    ensures value { result ≡ count_in_word word.now }
    ensures bound { IfOk result (λ n. n ≤ LENGTH_LIMIT) }
{
    Ok(read_decimal(word, 1, LENGTH_LIMIT)?)
}

/// An aspect, in millionths.
fn read_aspect(word: &[u8]) -> Result<u64, LineFault>
    ensures { result ≡ aspect_in_word word.now }
{
    Ok(read_decimal(word, 1_000_000, ASPECT_LIMIT)?)
}

/// The area of a soft block.
fn read_soft_area(word: &[u8], scale: Scale) -> Result<u64, LineFault>
    ensures { result ≡ area_in_word scale.per_unit word.now }
{
    Ok(read_area(word, scale.per_unit * scale.per_unit, LENGTH_LIMIT)?)
}

/// The number of a count line.
#[tactic(auto, unfolding(crate::specs::Line::count_said))]
pub fn read_count_line(line: &[u8]) -> Result<u64, LineFault>
    ensures { result ≡ count_said (words (is_gap Gap.Colons) line.now) }
{
    let Some((_, rest)) = next_field(line, Gap::Colons) else {
        return Err(LineFault::BadLine);
    };
    let Some((number, _)) = next_field(rest, Gap::Colons) else {
        return Err(LineFault::BadLine);
    };
    read_count(number)
}

/// What follows `name softrectangular`.
#[tactic(auto, unfolding(crate::specs::Line::soft_said))]
fn soft_line<'a>(name: &'a [u8], rest: &[u8], scale: Scale) -> Result<Statement<'a>, LineFault>
    ensures named { 0 < length name.now → IfOk result IsNamed }
    ensures says { Says result (soft_said scale.per_unit name.now (words (is_gap Gap.Blanks) rest.now)) }
{
    let Some((area, rest)) = next_field(rest, Gap::Blanks) else {
        return Err(LineFault::BadLine);
    };
    let Some((min, rest)) = next_field(rest, Gap::Blanks) else {
        return Err(LineFault::BadLine);
    };
    let Some((max, _)) = next_field(rest, Gap::Blanks) else {
        return Err(LineFault::BadLine);
    };
    let area = read_soft_area(area, scale)?;
    let min = read_aspect(min)?;
    let max = read_aspect(max)?;
    if area == 0 {
        return Err(LineFault::ZeroSide);
    }
    Ok(Statement::Block(name, Kind::Soft { area, min, max }))
}

/// The fault of vertices, as their line's.
fn line_fault(fault: VertexFault) -> LineFault
    ensures { result ≡ vertex_fault fault }
{
    match fault {
        VertexFault::Missing => LineFault::BadLine,
        VertexFault::BadNumber(number) => LineFault::BadNumber(number),
    }
}

/// A hard block with these sides.
fn box_line(name: &[u8], size: BoxSize) -> Result<Statement<'_>, LineFault>
    ensures named { 0 < length name.now → IfOk result IsNamed }
    ensures says { Says result (box_said name.now size) }
{
    let BoxSize { w, h } = size;
    if w == 0 || h == 0 {
        return Err(LineFault::ZeroSide);
    }
    Ok(Statement::Block(name, Kind::Hard { w, h }))
}

/// What follows `name hardrectilinear`.
#[tactic(auto, unfolding(crate::specs::Line::hard_said))]
fn hard_line<'a>(name: &'a [u8], rest: &[u8], scale: Scale) -> Result<Statement<'a>, LineFault>
    ensures named { 0 < length name.now → IfOk result IsNamed }
    ensures says { Says result (hard_said scale.per_unit name.now (words (is_gap Gap.Points) rest.now)) }
{
    let Some((count, places)) = next_field(rest, Gap::Points) else {
        return Err(LineFault::BadLine);
    };
    let count = read_count(count)?;
    if count == 0 || (count_fields(places, Gap::Points) as u64) < 2 * count {
        return Err(LineFault::BadLine);
    }
    match read_box(places, Gap::Points, count, scale) {
        Ok(size) => box_line(name, size),
        Err(fault) => Err(line_fault(fault)),
    }
}

/// What a line says that is no count line.
#[tactic(auto, unfolding(crate::specs::Line::plain_said))]
pub fn read_plain_line(line: &[u8], scale: Scale) -> Result<Statement<'_>, LineFault>
    ensures says { Says result (plain_said scale.per_unit line.now) }
    ensures named { 0 < length (first_word Gap.Blanks line.now) → IfOk result IsNamed }
{
    let (name, rest) = split_word(line, Gap::Blanks);
    let (word, rest) = split_word(rest, Gap::Blanks);
    match read_form(word) {
        Some(Form::Soft) => soft_line(name, rest, scale),
        Some(Form::Hard) => hard_line(name, rest, scale),
        Some(Form::Terminal) => Ok(Statement::Pad(name)),
        None => Err(LineFault::BadLine),
    }
}
