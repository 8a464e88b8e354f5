//! What the statements of a text have said so far.

ghost use Rattle.std.specs.Prelude.{◌≡◌, ◌<◌, length, None, OnOk};
ghost use Rattle.sf_lex.specs.Text.{words, is_blank_byte};
ghost use Rattle.sf_names.specs.Names.{index_of};
ghost use Rattle.sf_yal.specs.Numbers.{has_form};

use crate::fault::YalFault;
use crate::instance::{Instance, Label};
use crate::keyword::{Keyword, is_parent, read_keyword};
use crate::open_module::{OpenModule, Section};
use crate::piece::next_word;
use crate::vertices::{number_at, read_dimensions, read_length};
use sf_lex::{BoxSize, NumberFault, Scale};
use sf_model::Name;
use sf_names::{Names, TextHash};
use sf_parts::RawPad;
use std::alloc::{AllocError, Global};

/// What is kept of the statements: the module that is open; the names of all modules, and the boxes of
/// those that are closed; the place of the parent among them, and its pads and instances.
#[derive(Drop)]
pub struct Found<'a> {
    pub current: Option<OpenModule>,
    pub names: Names<'a>,
    pub sizes: Vec<Option<BoxSize>>,
    pub parent: Option<usize>,
    pub pad_names: Names<'a>,
    pub pads: Vec<RawPad>,
    pub instances: Vec<Instance<'a>>,
}

/// Words of a statement, and the line in which the statement begins.
#[derive(Clone, Copy)]
pub struct Words<'a> {
    pub text: &'a [u8],
    pub line: u64,
}

/// So many bytes a module takes at least when there are many: its two statements with a name of four letters.
const MODULE_LEN: usize = 22;

/// So many a terminal that is a pad takes.
const PAD_LEN: usize = 11;

/// The word has the form of a number, whether it can be read or not.
fn is_number(read: Result<i64, NumberFault>) -> bool
    ensures { result ≡ has_form read }
{
    !matches!(read, Err(NumberFault::NotNumber))
}

impl<'a> Found<'a> {
    ghost use Rattle.sf_yal.specs.Reading.{reading_in, Keeps, start, module_said, module_closed};
    ghost use Rattle.sf_yal.specs.Reading.{type_said, box_said};
    ghost use Rattle.sf_yal.specs.Reading.{list_opened, list_closed, outside_said, in_body_said, pad_taken};
    ghost use Rattle.sf_yal.specs.Reading.{terminal_said, placed_said, instance_said, in_terminals_said};
    ghost use Rattle.sf_yal.specs.Reading.{in_network_said, after_words};

    /// Nothing yet of this text.
    pub fn new(alloc: Global, text: &[u8]) -> Found<'a>
        ensures { reading_in result ≡ start }
    {
        let hash = TextHash::new(text);
        Found {
            current: None,
            names: Names::new(alloc, hash, text.len() / MODULE_LEN),
            sizes: Vec::new(alloc),
            parent: None,
            pad_names: Names::new(alloc, hash, text.len() / PAD_LEN),
            pads: Vec::new(alloc),
            instances: Vec::new(alloc),
        }
    }

    /// MODULE with these words behind it.
    #[tactic(auto, unfolding(crate::specs::Reading::module_said))]
    fn begin_module(&mut self, rest: Words<'a>) -> Result<(), YalFault>
        ensures { let rest = rest.entry in
            Keeps result self.new
            (module_said (reading_in self.old) rest.line (words is_blank_byte rest.text.now)) }
    {
        let Some((name, _)) = next_word(rest.text) else {
            return Err(YalFault::BadStatement(rest.line));
        };
        if self.names.note(name)?.is_some() {
            return Err(YalFault::BadStatement(rest.line));
        }
        self.current = Some(OpenModule::new());
        Ok(())
    }

    /// ENDMODULE.
    fn end_module(&mut self, current: OpenModule) -> Result<(), AllocError>
        ensures { OnOk result (reading_in self.new ≡ module_closed (reading_in self.old) current) }
    {
        self.sizes.push(current.size)?;
        self.current = None;
        Ok(())
    }

    /// TYPE with these words behind it.
    #[tactic(auto, unfolding(crate::specs::Reading::type_said))]
    fn take_type(&mut self, current: OpenModule, rest: Words) -> Result<(), YalFault>
        ensures { let rest = rest.entry in
            Keeps result self.new
            (type_said (reading_in self.old) current rest.line (words is_blank_byte rest.text.now)) }
    {
        let Some((word, _)) = next_word(rest.text) else {
            return Err(YalFault::BadStatement(rest.line));
        };
        if current.is_typed || current.has_list {
            return Err(YalFault::BadStatement(rest.line));
        }
        if !is_parent(word) {
            self.current = Some(OpenModule {
                is_typed: true,
                ..current
            });
            return Ok(());
        }
        if self.parent.is_some() {
            return Err(YalFault::TwoParents(rest.line));
        }
        self.parent = Some(self.sizes.len());
        self.current = Some(OpenModule {
            is_typed: true,
            is_parent: true,
            ..current
        });
        Ok(())
    }

    /// DIMENSIONS with these words behind it.
    #[tactic(auto, unfolding(crate::specs::Reading::box_said))]
    fn take_box(&mut self, current: OpenModule, rest: Words, scale: Scale) -> Result<(), YalFault>
        ensures { let rest = rest.entry in
            Keeps result self.new
            (box_said scale.per_unit (reading_in self.old) current rest.line
            (words is_blank_byte rest.text.now)) }
    {
        if current.size.is_some() {
            return Err(YalFault::BadStatement(rest.line));
        }
        let size = read_dimensions(rest.text, rest.line, scale)?;
        self.current = Some(OpenModule {
            size: Some(size),
            ..current
        });
        Ok(())
    }

    /// IOLIST or NETWORK.
    fn open_list(&mut self, current: OpenModule, section: Section)
        ensures { reading_in self.new ≡ list_opened (reading_in self.old) current section }
    {
        self.current = Some(OpenModule {
            section,
            has_list: true,
            ..current
        });
    }

    /// ENDIOLIST or ENDNETWORK.
    fn close_list(&mut self, current: OpenModule)
        ensures { reading_in self.new ≡ list_closed (reading_in self.old) current }
    {
        self.current = Some(OpenModule {
            section: Section::Body,
            ..current
        });
    }

    /// A statement outside of all modules.
    fn take_outside(&mut self, key: Keyword, rest: Words<'a>) -> Result<(), YalFault>
        ensures { let rest = rest.entry in
            Keeps result self.new
            (outside_said (reading_in self.old) rest.line key (words is_blank_byte rest.text.now)) }
    {
        match key {
            Keyword::Module => self.begin_module(rest),
            Keyword::EndModule => Err(YalFault::BadStatement(rest.line)),
            _ => Ok(()),
        }
    }

    /// A statement of a module outside of its lists.
    fn take_in_body(
        &mut self,
        current: OpenModule,
        key: Keyword,
        rest: Words,
        scale: Scale,
    ) -> Result<(), YalFault>
        ensures { let rest = rest.entry in
            Keeps result self.new
            (in_body_said scale.per_unit (reading_in self.old) current rest.line key
            (words is_blank_byte rest.text.now)) }
    {
        match key {
            Keyword::Module => return Err(YalFault::BadStatement(rest.line)),
            Keyword::EndModule => self.end_module(current)?,
            Keyword::Type => self.take_type(current, rest)?,
            Keyword::Dimensions => self.take_box(current, rest, scale)?,
            Keyword::IoList => self.open_list(current, Section::Terminals),
            Keyword::Network => self.open_list(current, Section::Network),
            _ => {}
        }
        Ok(())
    }

    /// A pad of the parent.
    fn add_pad(
        &mut self,
        alloc: Global,
        name: &'a [u8],
        place: (i64, i64),
    ) -> Result<(), AllocError>
        requires not_empty { 0 < length name.now }
        requires new { index_of name.now self.old.pad_names ≡ None }
        ensures { OnOk result (reading_in self.new ≡ pad_taken (reading_in self.old) name.now place) }
    {
        let pad = RawPad {
            name: Name::new(alloc, name)?,
            place: Some(place),
        };
        self.pads.push(pad)?;
        self.pad_names.add(name)
    }

    /// A terminal of the parent with its third and fourth words as numbers.
    #[tactic(auto, unfolding(crate::specs::Reading::placed_said))]
    fn take_placed(
        &mut self,
        alloc: Global,
        name: &'a [u8],
        x: Result<i64, NumberFault>,
        y: Result<i64, NumberFault>,
        line: u64,
    ) -> Result<(), YalFault>
        requires { 0 < length name.now }
        ensures { Keeps result self.new (placed_said (reading_in self.old) line name.now x y) }
    {
        if self.pad_names.index_of(name).is_some() || !(is_number(x) && is_number(y)) {
            return Ok(());
        }
        let x = number_at(x, line)?;
        let y = number_at(y, line)?;
        Ok(self.add_pad(alloc, name, (x, y))?)
    }

    /// A terminal of the parent.
    #[tactic(auto, unfolding(crate::specs::Reading::terminal_said))]
    fn take_terminal(&mut self, alloc: Global, all: Words<'a>, scale: Scale) -> Result<(), YalFault>
        ensures { let all = all.entry in
            Keeps result self.new
            (terminal_said scale.per_unit (reading_in self.old) all.line (words is_blank_byte all.text.now)) }
    {
        let Some((name, rest)) = next_word(all.text) else {
            return Ok(());
        };
        let Some((_, rest)) = next_word(rest) else {
            return Ok(());
        };
        let Some((x, rest)) = next_word(rest) else {
            return Ok(());
        };
        let Some((y, _)) = next_word(rest) else {
            return Ok(());
        };
        let x = read_length(x, scale);
        let y = read_length(y, scale);
        self.take_placed(alloc, name, x, y, all.line)
    }

    /// An instance of the parent.
    #[tactic(auto, unfolding(crate::specs::Reading::instance_said))]
    fn take_instance(&mut self, all: Words<'a>) -> Result<(), YalFault>
        ensures { let all = all.entry in
            Keeps result self.new
            (instance_said (reading_in self.old) all.line (words is_blank_byte all.text.now)) }
    {
        let Some((name, rest)) = next_word(all.text) else {
            return Err(YalFault::BadStatement(all.line));
        };
        let Some((module_name, signals)) = next_word(rest) else {
            return Err(YalFault::BadStatement(all.line));
        };
        self.instances.push(Instance {
            line: all.line,
            name: Label::new(name),
            module_name: Label::new(module_name),
            signals,
        })?;
        Ok(())
    }

    /// A statement of a list IOLIST.
    fn take_in_terminals(
        &mut self,
        alloc: Global,
        current: OpenModule,
        key: Keyword,
        all: Words<'a>,
        scale: Scale,
    ) -> Result<(), YalFault>
        ensures { let all = all.entry in
            Keeps result self.new
            (in_terminals_said scale.per_unit (reading_in self.old) current all.line key
            (words is_blank_byte all.text.now)) }
    {
        if key == Keyword::EndIoList {
            self.close_list(current);
        } else if current.is_parent {
            self.take_terminal(alloc, all, scale)?;
        }
        Ok(())
    }

    /// A statement of a list NETWORK.
    fn take_in_network(
        &mut self,
        current: OpenModule,
        key: Keyword,
        all: Words<'a>,
    ) -> Result<(), YalFault>
        ensures { let all = all.entry in
            Keeps result self.new
            (in_network_said (reading_in self.old) current all.line key (words is_blank_byte all.text.now)) }
    {
        if key == Keyword::EndNetwork {
            self.close_list(current);
        } else if current.is_parent {
            self.take_instance(all)?;
        }
        Ok(())
    }

    /// The next statement, which is passed over where it has no words.
    pub fn take(&mut self, alloc: Global, all: Words<'a>, scale: Scale) -> Result<(), YalFault>
        ensures { let all = all.entry in
            Keeps result self.new
            (after_words scale.per_unit (reading_in self.old) all.line (words is_blank_byte all.text.now)) }
    {
        let Some((word, text)) = next_word(all.text) else {
            return Ok(());
        };
        let key = read_keyword(word);
        let rest = Words { text, ..all };
        let Some(current) = self.current else {
            return self.take_outside(key, rest);
        };
        match current.section {
            Section::Body => self.take_in_body(current, key, rest, scale),
            Section::Terminals => self.take_in_terminals(alloc, current, key, all, scale),
            Section::Network => self.take_in_network(current, key, all),
        }
    }
}
