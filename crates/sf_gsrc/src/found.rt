//! What the lines of a block file have said so far.

ghost use Rattle.std.specs.Prelude.{◌≡◌, ◌≤◌, ◌<◌, [], length, is_some, not, count_by, Ok};
ghost use Rattle.std.specs.Prelude.{List};
ghost use Rattle.sf_lex.specs.Scan.{line_of};
ghost use Rattle.sf_lex.specs.Gap.{first_word};
ghost use Rattle.sf_gsrc.specs.Blocks.{Entry, is_soft, compared, count_after, entry_after};
ghost use Rattle.sf_gsrc.specs.Blocks.{fault_at, finished};

use crate::count::Count;
use crate::fault::{GsrcFault, LineFault};
use crate::keywords::{Counted, count_word_in, read_counted};
use crate::line::{Statement, read_count_line, read_plain_line};
use crate::output::GsrcBlocks;
use sf_lex::{Scale, Word};
use sf_model::Name;
use sf_parts::{Kind, NameList, RawBlock, RawBlockList};
use std::alloc::Global;

/// The counts, blocks and pads of the lines so far.
#[derive(Drop)]
pub struct Found {
    soft: Option<Count>,
    hard: Option<Count>,
    terminals: Option<Count>,
    blocks: Vec<RawBlock>,
    pads: Vec<Name>,
}

/// The fault of a line, with the line's number.
pub fn at_line(fault: LineFault, line: u64) -> GsrcFault
    ensures { result ≡ fault_at line fault }
{
    match fault {
        LineFault::BadLine => GsrcFault::BadLine(line),
        LineFault::BadNumber(number) => GsrcFault::BadNumber(line, number),
        LineFault::ZeroSide => GsrcFault::ZeroSide(line),
    }
}

/// How many blocks are soft.
fn soft_count(blocks: &[RawBlock]) -> u64
    ensures { result ≡ count_by is_soft blocks.now }
{
    blocks
        .iter()
        .filter(|block| matches!(block.kind, Kind::Soft { .. }))
        .count() as u64
}

/// How many blocks are hard.
fn hard_count(blocks: &[RawBlock]) -> u64
    ensures { result ≡ count_by (λ b. not (is_soft b)) blocks.now }
{
    blocks
        .iter()
        .filter(|block| !matches!(block.kind, Kind::Soft { .. }))
        .count() as u64
}

/// A count agrees with what was found.
pub fn compare(count: Count, found: u64) -> Result<(), GsrcFault>
    ensures { result ≡ compared count found (Ok tt) }
{
    if count.said == found {
        Ok(())
    } else {
        Err(GsrcFault::CountDiffers(count.line, count.said, found))
    }
}

impl Found {
    ghost use Rattle.sf_lex.specs.declared.field.Gap.TheVariants.{Blanks};
    ghost use Rattle.sf_gsrc.specs.Found.{with_count, IsFound, Keeps, count_kept};
    ghost use Rattle.sf_gsrc.specs.Statement.{IsNamed, entry_in, plain_entry};

    /// Nothing yet.
    pub fn new(alloc: Global) -> Found
        ensures { IsFound result [] }
    {
        Found {
            soft: None,
            hard: None,
            terminals: None,
            blocks: Vec::new(alloc),
            pads: Vec::new(alloc),
        }
    }

    /// Whether there was such a count.
    fn has_count(&self, which: Counted) -> bool
        ensures { result ≡ is_some (count_kept self.now which) }
    {
        match which {
            Counted::Soft => self.soft.is_some(),
            Counted::Hard => self.hard.is_some(),
            Counted::Terminals => self.terminals.is_some(),
        }
    }

    /// Keeps a count.
    fn set_count(&mut self, which: Counted, count: Count)
        ensures { self.new ≡ with_count self.old which count }
    {
        match which {
            Counted::Soft => self.soft = Some(count),
            Counted::Hard => self.hard = Some(count),
            Counted::Terminals => self.terminals = Some(count),
        }
    }

    /// A count line: each kind of count stands once.
    fn take_count(&mut self, which: Counted, line: &Word) -> Result<(), GsrcFault>
        ensures { Keeps result self.old self.new (λ entries. count_after which entries (line_of line.now)) }
    {
        if self.has_count(which) {
            return Err(GsrcFault::BadLine(line.line));
        }
        match read_count_line(line.text) {
            Ok(said) => {
                self.set_count(
                    which,
                    Count {
                        line: line.line,
                        said,
                    },
                );
                Ok(())
            }
            Err(fault) => Err(at_line(fault, line.line)),
        }
    }

    /// Keeps what a line says that is no count line.
    fn keep(&mut self, alloc: Global, line: u64, statement: Statement) -> Result<(), GsrcFault>
        requires { IsNamed statement }
        ensures { Keeps result self.old self.new (λ entries. entry_in line statement.entry) }
    {
        match statement {
            Statement::Block(name, kind) => {
                let name = Name::new(alloc, name)?;
                self.blocks.push(RawBlock { name, kind })?;
            }
            Statement::Pad(name) => self.pads.push(Name::new(alloc, name)?)?,
        }
        Ok(())
    }

    /// A line that is no count line.
    fn take_plain(&mut self, alloc: Global, line: &Word, scale: Scale) -> Result<(), GsrcFault>
        requires content { 0 < length (first_word Blanks line.now.text.now) }
        ensures { Keeps result self.old self.new (λ entries. plain_entry scale.per_unit (line_of line.now)) }
    {
        match read_plain_line(line.text, scale) {
            Ok(statement) => self.keep(alloc, line.line, statement),
            Err(fault) => Err(at_line(fault, line.line)),
        }
    }

    /// The next line with content.
    pub fn take(&mut self, alloc: Global, line: &Word, scale: Scale) -> Result<(), GsrcFault>
        requires content { 0 < length (first_word Blanks line.now.text.now) }
        ensures { Keeps result self.old self.new
            (λ entries. entry_after scale.per_unit entries (line_of line.now)) }
    {
        match read_counted(count_word_in(line.text)) {
            Some(which) => self.take_count(which, line),
            None => self.take_plain(alloc, line, scale),
        }
    }

    /// What the whole text stands for, if its counts agree with it.
    pub fn finish(self, last: u64) -> Result<GsrcBlocks, GsrcFault>
        ensures { (entries : List Entry) → IsFound self entries → result ≡ finished last entries }
    {
        let (Some(soft), Some(hard), Some(terminals)) = (self.soft, self.hard, self.terminals)
        else {
            return Err(GsrcFault::Truncated(last));
        };
        compare(soft, soft_count(&self.blocks))?;
        compare(hard, hard_count(&self.blocks))?;
        compare(terminals, self.pads.len() as u64)?;
        Ok(GsrcBlocks {
            blocks: RawBlockList::from_vec(self.blocks),
            pads: NameList::from_vec(self.pads),
        })
    }
}
