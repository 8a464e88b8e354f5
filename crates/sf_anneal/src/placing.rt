//! Where the blocks of an expression stand whose parts were found.

ghost use Rattle.std.specs.Prelude.{◌≡◌, ◌+◌, ◌-◌, ◌<◌, ◌≤◌, ◌^◌, length, pos, Any, Contains};
ghost use Rattle.sf_model.specs.declared.design.Design.{Design as DesignValue};
ghost use Rattle.sf_polish.specs.Normal.{IsNormal};
ghost use Rattle.sf_curves.specs.Forms.{IsNarrowestOn, IsLowestOn};
ghost use Rattle.sf_curves.specs.Points.{IsLowest, IsNarrowest};
ghost use Rattle.sf_anneal.specs.Parts.{AreMoved, HaveRoom, IsLaid, before_in, moved_curve, stretch, token_at};

use crate::keeping::Kept;
use crate::parts::curve_of;
use sf_curves::{Curve, Point};
use sf_model::Spot;
use sf_polish::Token;

/// Of two joined parts the number of the first, and the room of each.
#[derive(Clone, Copy)]
struct Rooms {
    left: usize,
    first: Point,
    second: Point,
}

/// The rectangle of a block of this size whose lower left corner stands here.
fn spot_at(block: u16, size: Point, x: u32, y: u32) -> Spot
    ensures { result ≡ record { block = block; x = pos x; y = pos y; w = size.w; h = size.h } }
{
    Spot {
        block,
        x: i64::from(x),
        y: i64::from(y),
        w: size.w,
        h: size.h,
    }
}

/// The narrowest point that is no higher than the limit, where there is one.
fn narrowest_point(curve: &Curve, limit: u32) -> Point
    requires { Any (λ q. q.h ≤ limit) curve.now }
    ensures { IsNarrowestOn curve.now limit result }
{
    let Some(point) = curve.narrowest(limit) else {
        unreachable!()
    };
    point
}

/// The lowest point that is no wider than the limit, where there is one.
fn lowest_point(curve: &Curve, limit: u32) -> Point
    requires { Any (λ q. q.w ≤ limit) curve.now }
    ensures { IsLowestOn curve.now limit result }
{
    let Some(point) = curve.lowest(limit) else {
        unreachable!()
    };
    point
}

impl Kept {
    /// The curve of a part of the moved expression.
    pub fn curve(&self, tokens: &[Token], part: usize) -> &Curve
        requires normal { IsNormal (length self.now.blocks.items) tokens.now }
        requires some { 1 ≤ part }
        requires inside { part ≤ length tokens.now }
        requires room { HaveRoom (length tokens.now + 1) self.now.known self.now.moved }
        ensures { result.now ≡ moved_curve self.now.blocks.items self.now.known self.now.moved tokens.now part }
    {
        curve_of(&self.blocks, &self.known, &self.moved, tokens, part)
    }

    /// The rooms of two parts that are joined side by side in a room of this size.
    fn rooms_beside(&self, tokens: &[Token], part: usize, size: Point) -> Rooms
        requires normal { IsNormal (length self.now.blocks.items) tokens.now }
        requires room { HaveRoom (length tokens.now + 1) self.now.known self.now.moved }
        requires parts { (design : DesignValue)
            × AreMoved design self.now.blocks.items self.now.known self.now.moved tokens.now }
        requires some { 1 ≤ part }
        requires inside { part ≤ length tokens.now }
        requires token { token_at tokens.now (part - 1) ≡ Token.Beside }
        requires on_curve { Contains
            (moved_curve self.now.blocks.items self.now.known self.now.moved tokens.now part) size }
        ensures left { result.left ≡ before_in self.now.moved.before.items (part - 1) }
        ensures some { 1 ≤ result.left }
        ensures before { result.left + 1 < part }
        ensures first { IsNarrowest size.h
            (moved_curve self.now.blocks.items self.now.known self.now.moved tokens.now result.left)
            result.first }
        ensures second { IsNarrowest size.h
            (moved_curve self.now.blocks.items self.now.known self.now.moved tokens.now (part - 1))
            result.second }
        ensures narrow { result.first.w + result.second.w ≤ size.w }
    {
        let left = usize::from(self.moved.before[part - 1]);
        let first = narrowest_point(self.curve(tokens, left), size.h);
        let second = narrowest_point(self.curve(tokens, part - 1), size.h);
        Rooms {
            left,
            first,
            second,
        }
    }

    /// The rooms of two parts that are joined one above the other in a room of this size.
    fn rooms_above(&self, tokens: &[Token], part: usize, size: Point) -> Rooms
        requires normal { IsNormal (length self.now.blocks.items) tokens.now }
        requires room { HaveRoom (length tokens.now + 1) self.now.known self.now.moved }
        requires parts { (design : DesignValue)
            × AreMoved design self.now.blocks.items self.now.known self.now.moved tokens.now }
        requires some { 1 ≤ part }
        requires inside { part ≤ length tokens.now }
        requires token { token_at tokens.now (part - 1) ≡ Token.Above }
        requires on_curve { Contains
            (moved_curve self.now.blocks.items self.now.known self.now.moved tokens.now part) size }
        ensures left { result.left ≡ before_in self.now.moved.before.items (part - 1) }
        ensures some { 1 ≤ result.left }
        ensures before { result.left + 1 < part }
        ensures first { IsLowest size.w
            (moved_curve self.now.blocks.items self.now.known self.now.moved tokens.now result.left)
            result.first }
        ensures second { IsLowest size.w
            (moved_curve self.now.blocks.items self.now.known self.now.moved tokens.now (part - 1))
            result.second }
        ensures low { result.first.h + result.second.h ≤ size.h }
    {
        let left = usize::from(self.moved.before[part - 1]);
        let first = lowest_point(self.curve(tokens, left), size.w);
        let second = lowest_point(self.curve(tokens, part - 1), size.w);
        Rooms {
            left,
            first,
            second,
        }
    }

    /// Writes the rectangles of a part of this size at the numbers of their blocks.
    pub fn place(
        &self,
        tokens: &[Token],
        part: usize,
        size: Point,
        x: u32,
        y: u32,
        spots: &mut [Spot],
    )
        requires normal { IsNormal (length self.now.blocks.items) tokens.now }
        requires spots { length spots.old ≡ length self.now.blocks.items }
        requires room { HaveRoom (length tokens.now + 1) self.now.known self.now.moved }
        requires parts { (design : DesignValue)
            × AreMoved design self.now.blocks.items self.now.known self.now.moved tokens.now }
        requires some { 1 ≤ part }
        requires inside { part ≤ length tokens.now }
        requires on_curve { Contains
            (moved_curve self.now.blocks.items self.now.known self.now.moved tokens.now part) size }
        requires right { x + size.w ≤ 2 ^ 20 }
        requires upper { y + size.h ≤ 2 ^ 20 }
        ensures { (design : DesignValue)
            → AreMoved design self.now.blocks.items self.now.known self.now.moved tokens.now
            → IsLaid design (stretch tokens.now (before_in self.now.moved.before.items part) part)
            size x y spots.old spots.new }
    {
        match tokens[part - 1] {
            Token::Block(block) => spots[usize::from(block)] = spot_at(block, size, x, y),
            Token::Beside => {
                let rooms = self.rooms_beside(tokens, part, size);
                self.place(tokens, rooms.left, rooms.first, x, y, spots);
                self.place(tokens, part - 1, rooms.second, x + rooms.first.w, y, spots);
            }
            Token::Above => {
                let rooms = self.rooms_above(tokens, part, size);
                self.place(tokens, rooms.left, rooms.first, x, y, spots);
                self.place(tokens, part - 1, rooms.second, x, y + rooms.first.h, spots);
            }
        }
    }
}
