//! A walk over the tags of a certificate.

ghost use Rattle.std.specs.Prelude.{◌≡◌, ◌∷◌, [], true, false, slice_index_or, IfOk, OnOk, MatchOption};
ghost use Rattle.sf_node.specs.Children.{IsSubproblem};
ghost use Rattle.sf_cursor.specs.Path.{IsPath};
ghost use Rattle.sf_resume.specs.Reading.{AreSomeTree, IsReading, IsReadOn};

use sf_certificate::Tag;
use sf_cursor::Cursor;
use sf_model::Design;
use sf_node::{Node, Values};
use std::alloc::{AllocError as NoMemory, Global};

/// Where the next tag stands, whether there is one, and how many were read.
#[derive(Drop)]
pub struct Reading {
    pub cursor: Cursor,
    pub more: bool,
    pub at: usize,
}

/// A cursor at a subproblem.
pub fn cursor_at<V: Values>(
    alloc: Global,
    design: &Design,
    values: &V,
    node: &Node,
) -> Result<Cursor, NoMemory>
    requires { IsSubproblem design.now node.now }
    ensures at { IfOk result (λ c. IsPath design.now (V.value values.now design.now) c) }
    ensures node { IfOk result (λ c. c.node ≡ node.now) }
{
    let mut cursor = Cursor::new(alloc, design, values)?;
    let steps = node.steps();
    for step in steps {
        cursor.enter(design, values, *step, None)?;
    }
    Ok(cursor)
}

impl Reading {
    /// Before the first tag.
    pub fn new<V: Values>(
        alloc: Global,
        design: &Design,
        values: &V,
        tags: &[Tag],
    ) -> Result<Reading, NoMemory>
        requires { AreSomeTree design.now tags.now }
        ensures reading { IfOk result (IsReading design.now (V.value values.now design.now) tags.now) }
        ensures first { IfOk result (λ r. r.at ≡ 0) }
    {
        let cursor = Cursor::new(alloc, design, values)?;
        Ok(Reading {
            cursor,
            more: true,
            at: 0,
        })
    }

    /// The same once more.
    pub fn copy<V: Values>(
        &self,
        alloc: Global,
        design: &Design,
        values: &V,
        tags: &[Tag],
    ) -> Result<Reading, NoMemory>
        requires { IsReading design.now (V.value values.now design.now) tags.now self.now }
        ensures reading { IfOk result (IsReading design.now (V.value values.now design.now) tags.now) }
        ensures at { IfOk result (λ r. r.at ≡ self.now.at) }
        ensures more { IfOk result (λ r. r.more ≡ self.now.more) }
        ensures node { IfOk result (λ r. r.cursor.node ≡ self.now.cursor.node) }
    {
        Ok(Reading {
            cursor: cursor_at(alloc, design, values, self.cursor.node())?,
            more: self.more,
            at: self.at,
        })
    }

    /// The tag that is next, if there is one.
    pub fn next<V: Values>(&self, design: &Design, values: &V, tags: &[Tag]) -> Option<Tag>
        requires { IsReading design.now (V.value values.now design.now) tags.now self.now }
        ensures { MatchOption result (self.now.more ≡ false)
            (λ tag. (self.now.more ≡ true) × (tag ≡ slice_index_or tags.now self.now.at tag)) }
    {
        if self.more { Some(tags[self.at]) } else { None }
    }

    /// Reads the tag that is next.
    pub fn pass<V: Values>(
        &mut self,
        design: &Design,
        values: &V,
        tags: &[Tag],
        tag: Tag,
    ) -> Result<(), NoMemory>
        requires reading { IsReading design.now (V.value values.now design.now) tags.now self.old }
        requires more { self.old.more ≡ true }
        requires next { tag ≡ slice_index_or tags.now self.old.at tag }
        ensures { OnOk result
            (IsReadOn design.now (V.value values.now design.now) tags.now self.old (tag ∷ []) self.new) }
    {
        self.more = self.cursor.follow(design, values, tag, None)?;
        self.at += 1;
        Ok(())
    }
}
