//! The vertices of an outline, and the box round them.

ghost use Rattle.std.specs.Prelude.{◌≡◌, ◌≤◌, Ok, Err};
ghost use Rattle.sf_lex.specs.Text.{words};
ghost use Rattle.sf_lex.specs.Gap.{is_gap};
ghost use Rattle.sf_lex.specs.Results.{seen};
ghost use Rattle.sf_lex.specs.Vertices.{coordinate_of, vertex_of, box_read};
ghost use Rattle.sf_lex.specs.Corners.{corner, grow, corners_read, size_of_corners};
ghost use Rattle.sf_lex.specs.declared.vertices.VertexFault.TheVariants.{BadNumber};

use crate::field::{Gap, next_field};
use crate::number::{LENGTH_LIMIT, NumberFault, read_signed};
use crate::scale::Scale;

/// Why a list of vertices can't be read.
#[derive(Clone, Copy)]
pub enum VertexFault {
    /// A word is missing.
    Missing,
    /// A word is no coordinate.
    BadNumber(NumberFault),
}

impl From<NumberFault> for VertexFault {
    ghost from_gives = { λ fault e. e ≡ BadNumber fault };

    fn from(fault: NumberFault) -> VertexFault {
        VertexFault::BadNumber(fault)
    }
}

/// The sides of a box.
#[derive(Clone, Copy)]
pub struct BoxSize {
    pub w: u64,
    pub h: u64,
}

/// The bounding box of some vertices.
#[derive(Clone, Copy)]
struct Corners {
    left: i64,
    right: i64,
    bottom: i64,
    top: i64,
}

impl Corners {
    /// The box of one vertex.
    fn new(vertex: (i64, i64)) -> Corners
        ensures { result ≡ corner vertex }
    {
        Corners {
            left: vertex.0,
            right: vertex.0,
            bottom: vertex.1,
            top: vertex.1,
        }
    }

    /// The box of these vertices and one more.
    fn with(self, vertex: (i64, i64)) -> Corners
        ensures { result ≡ grow self vertex }
    {
        Corners {
            left: self.left.min(vertex.0),
            right: self.right.max(vertex.0),
            bottom: self.bottom.min(vertex.1),
            top: self.top.max(vertex.1),
        }
    }

    /// How far the box reaches each way.
    fn size(self) -> BoxSize
        ensures { result ≡ size_of_corners self }
    {
        BoxSize {
            w: self.right.abs_diff(self.left),
            h: self.top.abs_diff(self.bottom),
        }
    }
}

/// A coordinate.
fn read_coordinate(word: &[u8], scale: Scale) -> Result<i64, VertexFault>
    ensures { result ≡ coordinate_of scale.per_unit word.now }
{
    Ok(read_signed(word, scale.per_unit, LENGTH_LIMIT)?)
}

/// The vertex at the front, and what follows it.
#[tactic(auto, unfolding(crate::specs::Vertices::vertex_of))]
fn next_vertex(places: &[u8], gap: Gap, scale: Scale) -> Result<((i64, i64), &[u8]), VertexFault>
    ensures { seen (λ r. (r.0, words (is_gap gap) r.1.now)) result
        ≡ vertex_of scale.per_unit (words (is_gap gap) places.now) }
{
    let Some((x, rest)) = next_field(places, gap) else {
        return Err(VertexFault::Missing);
    };
    let Some((y, rest)) = next_field(rest, gap) else {
        return Err(VertexFault::Missing);
    };
    let x = read_coordinate(x, scale)?;
    let y = read_coordinate(y, scale)?;
    Ok(((x, y), rest))
}

/// The box round so many vertices at the front.
fn read_corners(places: &[u8], gap: Gap, count: u64, scale: Scale) -> Result<Corners, VertexFault>
    requires count { 1 ≤ count }
    ensures { result ≡ corners_read scale.per_unit count (words (is_gap gap) places.now) }
{
    let (first, mut rest) = next_vertex(places, gap, scale)?;
    let mut corners = Corners::new(first);
    for _ in 1..count {
        let (vertex, after) = next_vertex(rest, gap, scale)?;
        corners = corners.with(vertex);
        rest = after;
    }
    Ok(corners)
}

/// The sides of the box round so many vertices at the front, each of which is two words.
pub fn read_box(places: &[u8], gap: Gap, count: u64, scale: Scale) -> Result<BoxSize, VertexFault>
    requires count { 1 ≤ count }
    ensures { result ≡ box_read scale.per_unit count (words (is_gap gap) places.now) }
{
    let corners = read_corners(places, gap, count, scale)?;
    Ok(corners.size())
}
