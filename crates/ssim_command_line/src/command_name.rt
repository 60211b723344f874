//! Which command a name names.
ghost use Rattle.std.specs.Prelude.{◌≡◌, ℕ, IfNone, IfSome, List};
ghost use Rattle.clap.specs.Words.{Row};
ghost use Rattle.ssim_command_line.specs.Line.{Text, line_from};
ghost use Rattle.ssim_command_line.specs.internal.Names.{spelled};

use crate::table::commands;

/// The commands, in the order of help.
#[derive(Clone, Copy, Debug, PartialEq, Eq)]
pub(crate) enum CommandName {
    Check,
    Problems,
    Tidy,
    Start,
    Take,
    Receive,
    Merge,
    Carry,
    Texts,
    Withdraw,
    Show,
    History,
    Blame,
    List,
    Board,
    Calendar,
    Info,
    Stations,
    Sql,
    Diff,
    Publish,
    Page,
    Findings,
    Export,
    Select,
    Convert,
    Split,
    Rehearse,
    Explain,
}

/// The command of the row that has the name.
macro_rules! name_of {
    (($of:expr)
        $($($name:literal $words:tt => $command:ident $fields:tt
        $about:literal $example:literal)+);+) => {
        match $of {
            $($($name => Some(CommandName::$command),)+)+
            _ => None,
        }
    };
}

/// The command that has the name.
pub(crate) fn command_named(name: &str) -> Option<CommandName>
    ensures named { IfSome result (λ command. name.now ≡ spelled command) }
    ensures other { IfNone result
        ((rows : List Row) (values : List Text) → line_from name.now rows values ≡ None) }
{
    commands!(name_of of (name))
}
