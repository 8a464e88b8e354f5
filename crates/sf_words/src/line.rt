//! The command line that clap is asked to read, and what its words mean.
ghost use Rattle.std.specs.Prelude.{◌≡◌, IfOk, IfErr, IfSome, IfNone, Some, false, map, string_bytes};
ghost use Rattle.clap.specs.Words.{app_of, with_rule, new_app, kind_of, subcommand_rows_of};
ghost use Rattle.clap.specs.declared.builder.command.Command.TheViews.{out-Command as fields_of};
ghost use Rattle.sf_words.specs.Table.{mode_text, keys_of};
ghost use Rattle.sf_words.specs.Words.{HasForm};
ghost use Rattle.sf_words.specs.Seen.{token_of};
ghost use Rattle.sf_options.specs.Seen.{command_seen};
ghost use Rattle.sf_words.specs.Meaning.{Means, HasNoMeaning};
ghost use Rattle.sf_words.specs.App.{rule_of_key, with_keys, bare, floorplan};
ghost use Rattle.sf_words.specs.Kept.{rows_for};

use crate::meaning::read_command;
use crate::options::{Key, Mode};
use crate::parsed::Parsed;
use crate::settings::{Form, read_form};
use clap::error::ErrorKind;
use clap::{Arg, ArgAction, ArgMatches, Command, Error};
use sf_options::CommandWords;
use std::alloc::{AllocError, Global};

/// The command with one more option.
fn with_key<'a>(alloc: Global, command: Command<'a>, key: Key) -> Result<Command<'a>, AllocError>
    ensures app { IfOk result (λ r. app_of r ≡ with_rule (app_of command.entry) (rule_of_key key)) }
    ensures local { IfOk result (λ r. (fields_of r).has_globals ≡ (fields_of command.entry).has_globals) }
{
    let name: &'a str = key.text();
    let arg = Arg::new(alloc, name).long(name);
    if key.is_flag() {
        command.arg(arg.action(ArgAction::SetTrue))
    } else {
        command.arg(arg)
    }
}

/// A command with its options.
fn subcommand<'a>(alloc: Global, mode: Mode) -> Result<Command<'a>, AllocError>
    ensures app { IfOk result (λ r. app_of r ≡ with_keys (new_app (mode_text mode)) (keys_of mode)) }
    ensures local { IfOk result (λ r. (fields_of r).has_globals ≡ false) }
{
    let name: &'a str = mode.text();
    let mut command = Command::new(alloc, name);
    for key in mode.keys() {
        command = with_key(alloc, command, *key)?;
    }
    Ok(command)
}

/// The command line before its commands: no name of a program, and no help.
fn bare<'a>(alloc: Global) -> Command<'a>
    ensures { app_of result ≡ bare }
{
    Command::new(alloc, "floorplan")
        .no_binary_name(true)
        .disable_help_flag(true)
        .disable_help_subcommand(true)
}

/// The whole command line.
fn floorplan<'a>(alloc: Global) -> Result<Command<'a>, AllocError>
    ensures { IfOk result (λ r. app_of r ≡ floorplan) }
{
    let mut command = bare(alloc);
    for mode in Mode::all() {
        command = command.subcommand(subcommand(alloc, *mode)?)?;
    }
    Ok(command)
}

/// Reads words that have the form of a command and its options.
fn parse<'a>(alloc: Global, words: &'a [String], form: &Form) -> Result<ArgMatches<'a>, Error>
    requires { HasForm (map string_bytes words.now) form.now.mode (map token_of form.now.settings.items) }
    ensures rows { IfOk result (λ m. subcommand_rows_of m
        ≡ Some (mode_text form.now.mode, rows_for form.now.mode (map token_of form.now.settings.items))) }
    ensures memory { IfErr result (λ e. kind_of e ≡ ErrorKind.OutOfMemory) }
{
    floorplan(alloc)?.try_get_matches_from(words)
}

/// What the words mean, those behind the name of the program: a command with its options and their
/// defaults, or nothing. Files are named and not read. Help and version texts are no commands, and `--help`
/// has no meaning.
pub fn read_words(alloc: Global, words: &[String]) -> Result<Option<CommandWords<'_>>, Error>
    ensures means { IfOk result (λ r. IfSome r (λ c. Means (map string_bytes words.now) (command_seen c))) }
    ensures none { IfOk result (λ r. IfNone r (HasNoMeaning (map string_bytes words.now))) }
    ensures memory { IfErr result (λ e. kind_of e ≡ ErrorKind.OutOfMemory) }
{
    let Some(form) = read_form(alloc, words)? else {
        return Ok(None);
    };
    let matches = parse(alloc, words, &form)?;
    match matches.subcommand() {
        Some((_, options)) => Ok(read_command(form.mode, &Parsed { options })),
        None => Ok(None),
    }
}
