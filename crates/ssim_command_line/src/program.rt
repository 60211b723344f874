//! The commands of the table as `clap` sees them.
ghost use Rattle.std.specs.Prelude.{◌≡◌, IfOk, false, map};
ghost use Rattle.std.specs.List.{fold};
ghost use Rattle.clap.specs.Words.{app_of, new_rule, rule_of, with_subcommand};
ghost use Rattle.ssim_command_line.specs.Line.{needed};
ghost use Rattle.ssim_command_line.specs.Usage.{whole_program};
ghost use Rattle.ssim_command_line.specs.internal.Table.{IsLeaf, rule_of_word, shape_of_row};

use crate::command_help::help_of;
use crate::table::{ABOUT, COMMANDS, CommandRow, EXAMPLES, Word};
use crate::word_help::about_word;
use clap::{Arg, ArgAction, Command};
use std::alloc::{AllocError, Global};

/// The version that `--version` prints.
const VERSION: &str = "1.0.0";

/// A word that `clap` knows by `id`, and help shows as `shown`.
fn named<'a>(alloc: Global, id: &'a str, shown: &'a str) -> Arg<'a>
    ensures rule { rule_of result ≡ record (new_rule id.entry.now) { value_names = 1 } }
    ensures local { result.global ≡ false }
{
    Arg::new(alloc, id)
        .value_name(shown)
        .help(about_word(id, shown))
}

/// A value that has to be there.
fn needed<'a>(alloc: Global, id: &'a str, shown: &'a str) -> Arg<'a>
    ensures rule { rule_of result ≡ needed id.entry.now }
    ensures local { result.global ≡ false }
{
    named(alloc, id, shown).required(true)
}

impl Word {
    /// The argument of a word.
    fn arg<'a>(&self, alloc: Global) -> Arg<'a>
        ensures rule { rule_of result ≡ rule_of_word self.now }
        ensures local { result.global ≡ false }
    {
        match *self {
            Word::First(shown) => needed(alloc, "first", shown),
            Word::Second(shown) => needed(alloc, "second", shown),
            Word::Third(shown) => needed(alloc, "third", shown),
            Word::Fourth(shown) => needed(alloc, "fourth", shown),
            Word::Possible(shown) => named(alloc, "second", shown),
            Word::Several(shown) => needed(alloc, "texts", shown).action(ArgAction::Append),
            Word::Any(shown) => named(alloc, "texts", shown).action(ArgAction::Append),
            Word::Valued(name, shown) => named(alloc, name, shown).long(name),
            Word::Repeated(name, shown) => named(alloc, name, shown)
                .long(name)
                .action(ArgAction::Append),
            Word::Flag(name) => Arg::new(alloc, name)
                .long(name)
                .action(ArgAction::SetTrue)
                .help(about_word(name, "")),
        }
    }
}

impl CommandRow {
    /// The command of a row.
    fn command<'a>(&self, alloc: Global) -> Result<Command<'a>, AllocError>
        ensures { IfOk result (IsLeaf (shape_of_row self.now)) }
    {
        let (about, example) = help_of(self.name);
        let mut command = Command::new(alloc, self.name)
            .about(about)
            .after_help(example);
        for word in self.words {
            command = command.arg(word.arg(alloc))?;
        }
        Ok(command)
    }
}

/// The program with the commands of these rows.
fn with_commands<'a>(
    alloc: Global,
    mut program: Command<'a>,
    rows: &[CommandRow],
) -> Result<Command<'a>, AllocError>
    ensures { IfOk result
        (λ c. app_of c ≡ fold with_subcommand (app_of program.entry) (map shape_of_row rows.now)) }
{
    for row in rows {
        program = program.subcommand(row.command(alloc)?)?;
    }
    Ok(program)
}

/// The program with its commands.
pub fn program<'a>(alloc: Global) -> Result<Command<'a>, AllocError>
    ensures { IfOk result (λ c. app_of c ≡ whole_program) }
{
    let program = Command::new(alloc, "ssimdesk")
        .version(VERSION)
        .about(ABOUT)
        .after_help(EXAMPLES)
        .subcommand_required(true);
    with_commands(alloc, program, COMMANDS)
}
