//! What a design is read without, told on the standard error.

use sf_designs::{FILE_LIMIT, Losses, count_losses, lossy_file};
use sf_io::{Failed, LoadFault, Shelf, Status};
use sf_options::{CommandWords, DesignWords, InputFiles};
use std::alloc::Global;

/// Whether an option is among the words, by itself or with its value behind it.
fn has_option(words: &[String], alone: &str, with_value: &str) -> bool {
    words.iter().any(|word| word.as_str() == alone || word.starts_with(with_value))
}

/// Whether the words may name a file of which something is lost: a YAL file, or nets without a pl file.
pub fn may_lose(words: &[String]) -> bool {
    if has_option(words, "--yal", "--yal=") {
        return true;
    }
    has_option(words, "--nets", "--nets=") && !has_option(words, "--pl", "--pl=")
}

/// The design that a command names, where there is one.
pub fn design_of<'a>(command: &Option<CommandWords<'a>>) -> Option<DesignWords<'a>> {
    match command {
        Some(CommandWords::Plan(words)) => Some(words.design),
        Some(CommandWords::Check(words)) => Some(words.design),
        Some(CommandWords::Resume(words)) => Some(words.design),
        Some(CommandWords::Measure(words)) => Some(words.design),
        Some(CommandWords::Shape(words)) => Some(words.design),
        Some(CommandWords::Gen(_)) | None => None,
    }
}

/// A design was read, whatever was made of it.
fn has_design(status: Status) -> bool {
    matches!(
        status,
        Status::Done | Status::NoneFits | Status::Open | Status::No | Status::WriteFault
    )
}

/// Whether a file may have anything to lose: a YAL file, or a blocks file that has the word of pads. To read it
/// once more for nothing would take longer than a small search.
fn is_lossy(input: InputFiles<'_>, text: &[u8]) -> bool {
    match input {
        InputFiles::Gsrc { .. } => text.windows(8).any(|word| word == b"terminal".as_slice()),
        InputFiles::Yal { .. } => true,
    }
}

/// What is lost of the text under this name, where a design is read of it.
fn losses_in(
    alloc: Global,
    design: Option<DesignWords<'_>>,
    name: &str,
    text: &[u8],
) -> Option<Losses> {
    let design = design?;
    let file = lossy_file(design.input)?;
    if file != name || text.len() as u64 > FILE_LIMIT || !is_lossy(design.input, text) {
        return None;
    }
    count_losses(alloc, design.input, design.scale, text)
}

/// A shelf that counts what is lost of the files of a design as they are loaded from it.
#[derive(Drop)]
pub struct CountingShelf<'a, S: Shelf + Drop> {
    shelf: S,
    alloc: Global,
    design: Option<DesignWords<'a>>,
    losses: Option<Losses>,
}

impl<'a, S: Shelf + Drop> CountingShelf<'a, S> {
    /// Texts are loaded from this shelf and stored there.
    pub fn new(shelf: S, alloc: Global, design: Option<DesignWords<'a>>) -> Self {
        CountingShelf {
            shelf,
            alloc,
            design,
            losses: None,
        }
    }

    /// Tells what was lost, in a line for each kind, where a run of this status read a design. A stream that
    /// doesn't take it changes nothing.
    pub fn tell<R: Eprint>(&self, rt: &R, status: Status) {
        if !has_design(status) {
            return;
        }
        match self.losses {
            Some(Losses::Pads(pads)) => tell_count(
                rt,
                "pads left out, since no pl file is named",
                pads,
            ),
            Some(Losses::Yal(losses)) => {
                tell_count(
                    rt,
                    "terminals left out, since they have no coordinates",
                    losses.unplaced,
                );
                tell_count(
                    rt,
                    "modules of TYPE PAD, whose instances are blocks",
                    losses.pad_modules,
                );
            }
            None => {}
        }
    }
}

/// Tells a count that isn't 0.
fn tell_count<R: Eprint>(rt: &R, what: &str, count: u64) {
    if count > 0 {
        let _ = eprintln!(rt; "floorplan: {what}: {count}");
    }
}

impl<'a, S: Shelf + Drop> Shelf for CountingShelf<'a, S> {
    ghost seen = { λ s. S.seen s.shelf };

    fn load(&mut self, name: &str, limit: u64) -> Result<Vec<u8>, LoadFault> {
        match self.shelf.load(name, limit) {
            Ok(text) => {
                self.losses = losses_in(self.alloc, self.design, name, &text).or(self.losses);
                Ok(text)
            }
            Err(fault) => Err(fault),
        }
    }

    fn store(&mut self, name: &str, bytes: &[u8]) -> Result<(), Failed> {
        self.shelf.store(name, bytes)
    }
}
