//! What the lines of a nets file have said so far.

ghost use Rattle.std.specs.Prelude.{◌≡◌, ◌<◌, [], length, Some, None, Ok, OnOk, List};
ghost use Rattle.sf_lex.specs.Scan.{line_of};
ghost use Rattle.sf_lex.specs.Gap.{first_word};
ghost use Rattle.sf_gsrc.specs.Nets.{NetEntry, degree_kept, net_entry_by};
ghost use Rattle.sf_gsrc.specs.Nets.{net_entry_after, nets_finished, with_last};
ghost use Rattle.sf_gsrc.specs.Blocks.{Gives};

use crate::count::Count;
use crate::fault::GsrcFault;
use crate::found::{at_line, compare};
use crate::keywords::count_word_in;
use crate::line::read_count_line;
use crate::net_words::{NetWord, read_net_word};
use crate::output::GsrcNets;
use sf_lex::{Gap, Word, split_word};
use sf_model::Name;
use sf_parts::{RawNet, RawNetList, RawPin, RawPins};
use std::alloc::{AllocError, Global};
use std::mem;

/// The count, the nets before the last, and the degree and the pins of the last.
#[derive(Drop)]
pub struct NetsFound {
    count: Option<Count>,
    degree: Option<Count>,
    nets: Vec<RawNet>,
    pins: Vec<RawPin>,
}

impl NetsFound {
    ghost use Rattle.sf_lex.specs.declared.field.Gap.TheVariants.{Blanks};
    ghost use Rattle.sf_gsrc.specs.declared.net_words.NetWord.TheVariants.{Nets, Pins, Degree};
    ghost use Rattle.sf_gsrc.specs.NetsFound.{KeepsNets, ReadsNet};

    /// Nothing yet.
    pub fn new(alloc: Global) -> NetsFound
        ensures { KeepsNets result [] }
    {
        NetsFound {
            count: None,
            degree: None,
            nets: Vec::new(alloc),
            pins: Vec::new(alloc),
        }
    }

    /// The last net has as many pins as its degree says.
    fn check_degree(&self) -> Result<(), GsrcFault>
        ensures { result ≡ degree_kept self.now.degree (length self.now.pins.items) (Ok tt) }
    {
        let found = self.pins.len() as u64;
        match self.degree {
            Some(degree) if degree.said != found => {
                Err(GsrcFault::BadDegree(degree.line, degree.said, found))
            }
            _ => Ok(()),
        }
    }

    /// The number of nets, which stands once.
    fn take_nets(&mut self, line: &Word) -> Result<(), GsrcFault>
        ensures { ReadsNet result self.old self.new
            (λ past. net_entry_by past (line_of line.now) (Some Nets)) }
    {
        if self.count.is_some() {
            return Err(GsrcFault::BadLine(line.line));
        }
        match read_count_line(line.text) {
            Ok(said) => {
                self.count = Some(Count {
                    line: line.line,
                    said,
                });
                Ok(())
            }
            Err(fault) => Err(at_line(fault, line.line)),
        }
    }

    /// The number of pins, which is read and not compared.
    fn take_pins(&mut self, line: &Word) -> Result<(), GsrcFault>
        ensures { ReadsNet result self.old self.new
            (λ past. net_entry_by past (line_of line.now) (Some Pins)) }
    {
        match read_count_line(line.text) {
            Ok(_) => Ok(()),
            Err(fault) => Err(at_line(fault, line.line)),
        }
    }

    /// Closes the last net, if there is one. It keeps no room for further pins: a text may have millions of
    /// nets.
    fn close(&mut self, alloc: Global) -> Result<(), AllocError>
        ensures nets { OnOk result (self.new.nets.items
            ≡ with_last self.old.nets.items self.old.degree self.old.pins.items) }
        ensures pins { OnOk result (self.new.pins.items ≡ []) }
        ensures count { self.new.count ≡ self.old.count }
    {
        let mut pins = mem::replace(&mut self.pins, Vec::new(alloc));
        pins.shrink_to_fit();
        if self.degree.is_some() {
            self.nets.push(RawNet {
                pins: RawPins::from_vec(pins),
            })?;
        }
        Ok(())
    }

    /// A new net, of this degree.
    fn take_degree(&mut self, alloc: Global, line: &Word) -> Result<(), GsrcFault>
        ensures { ReadsNet result self.old self.new
            (λ past. net_entry_by past (line_of line.now) (Some Degree)) }
    {
        self.check_degree()?;
        match read_count_line(line.text) {
            Ok(said) => {
                self.close(alloc)?;
                self.degree = Some(Count {
                    line: line.line,
                    said,
                });
                Ok(())
            }
            Err(fault) => Err(at_line(fault, line.line)),
        }
    }

    /// A pin of the last net.
    fn take_pin(&mut self, alloc: Global, line: &Word) -> Result<(), GsrcFault>
        requires { 0 < length (first_word Blanks line.now.text.now) }
        ensures { ReadsNet result self.old self.new (λ past. net_entry_by past (line_of line.now) None) }
    {
        if self.degree.is_none() {
            return Err(GsrcFault::BadLine(line.line));
        }
        let (name, _) = split_word(line.text, Gap::Blanks);
        let name = Name::new(alloc, name)?;
        self.pins.push(RawPin::Named(name))?;
        Ok(())
    }

    /// The next line with content.
    pub fn take(&mut self, alloc: Global, line: &Word) -> Result<(), GsrcFault>
        requires { 0 < length (first_word Blanks line.now.text.now) }
        ensures { ReadsNet result self.old self.new (λ past. net_entry_after past (line_of line.now)) }
    {
        match read_net_word(count_word_in(line.text)) {
            Some(NetWord::Nets) => self.take_nets(line),
            Some(NetWord::Pins) => self.take_pins(line),
            Some(NetWord::Degree) => self.take_degree(alloc, line),
            None => self.take_pin(alloc, line),
        }
    }

    /// What the whole text stands for, if its numbers agree with it.
    pub fn finish(mut self, alloc: Global, last: u64) -> Result<GsrcNets, GsrcFault>
        ensures { (past : List NetEntry) → KeepsNets self past → Gives result (nets_finished last past) }
    {
        self.check_degree()?;
        self.close(alloc)?;
        let Some(count) = self.count else {
            return Err(GsrcFault::Truncated(last));
        };
        compare(count, self.nets.len() as u64)?;
        Ok(GsrcNets {
            nets: RawNetList::from_vec(self.nets),
        })
    }
}
