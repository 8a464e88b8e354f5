//! What a certificate says of each subproblem.

ghost use Rattle.std.specs.Prelude.{◌≡◌, min, length, IfOk};
ghost use Rattle.std.specs.List.{flat_map};

use sf_node::Part;
use std::alloc::{AllocError as NoMemory, Global};
use std::marker::Model;

/// What a certificate says of one subproblem. A closed one names the part of the bound that closes it.
#[derive(Clone, Copy, Debug, PartialEq, Eq)]
pub enum Tag {
    Extend,
    Split(u16),
    Closed(Part),
    Open,
}

/// A list of tags, in runs that follow one another: the pieces of several workers make one list with no tag copied.
/// Contracts see the list of all tags.
#[derive(Drop)]
pub struct TagList {
    runs: Vec<Vec<Tag>>,
}

impl Model for TagList {
    ghost use Rattle.std.specs.Prelude.{List};
    ghost use Rattle.std.specs.List.{flat_map};
    ghost use Rattle.sf_certificate.specs.declared.tag.Tag.{Tag as TagValue};

    ghost Value = { List TagValue };

    ghost view = { λ list. flat_map (λ run. run.items) list.runs.items };
}

impl TagList {
    /// The list of these runs.
    pub fn from_runs(runs: Vec<Vec<Tag>>) -> TagList
        ensures { result ≡ flat_map (λ run. run.items) runs.items }
    {
        TagList { runs }
    }

    /// The list of these tags, in one run.
    pub fn from_vec(alloc: Global, tags: Vec<Tag>) -> Result<TagList, NoMemory>
        ensures { IfOk result (λ list. list ≡ tags.items) }
    {
        let runs = vec![in alloc; tags]?;
        Ok(TagList { runs })
    }

    /// How many tags it has, or the most that a `usize` holds where they are more.
    pub fn len(&self) -> usize
        ensures { result ≡ min (length self.now) usize.MAX }
    {
        let mut len: usize = 0;
        for run in &self.runs {
            len = len.saturating_add(run.len());
        }
        len
    }

    /// Its tags in one vector. One run alone isn't copied; where there are several, the memory for all is taken at
    /// once, and each run is freed when it has been added.
    pub fn into_vec(self, alloc: Global) -> Result<Vec<Tag>, NoMemory>
        ensures { IfOk result (λ tags. tags.items ≡ self) }
    {
        let len = self.len();
        let mut tags = Vec::new(alloc);
        for mut run in self.runs {
            if tags.is_empty() {
                tags = run;
                tags.reserve(len.saturating_sub(tags.len()))?;
            } else {
                tags.append(&mut run)?;
            }
        }
        Ok(tags)
    }

    /// Its runs, lent, one behind another.
    pub fn runs(&self) -> &[Vec<Tag>]
        ensures { flat_map (λ run. run.items) result.now ≡ self.now }
    {
        &self.runs
    }
}
