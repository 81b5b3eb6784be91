// The names that may stand in words, as the options of a command.
ghost use Rattle.std.specs.Prelude.{◌≡◌, IfOk, map};
ghost use Rattle.clap.specs.Words.{app_of};
ghost use Rattle.px_words.specs.Options.{app, with_names};

use clap::{Arg, ArgAction, Command};
use std::alloc::{AllocError, Global};

/// The names that an item may have.
pub const NAMES: [&str; 10] = [
    "program",
    "from",
    "rounds",
    "partitions",
    "frames",
    "frame-bytes",
    "max-supersteps",
    "seed",
    "generate",
    "stats",
];

/// The command whose options are these names. Each takes one text, and may be used once. Only memory can be short.
pub fn command<'a>(alloc: Global) -> Result<Command<'a>, AllocError>
    ensures { IfOk result (λ c. app_of c ≡ app) }
{
    let command = Command::new(alloc, "px")
        .no_binary_name(true)
        .disable_help_flag(true);
    with_options(alloc, command, &NAMES)
}

// A command with one option more for each name.
fn with_options<'a>(
    alloc: Global,
    mut command: Command<'a>,
    names: &[&'a str],
) -> Result<Command<'a>, AllocError>
    ensures { IfOk result (λ c. app_of c ≡ with_names (app_of command.entry) (map (λ name. name.now) names.now)) }
{
    'names: for name in names {
        let option = Arg::new(alloc, name).long(name).action(ArgAction::Set);
        command = command.arg(option)?;
    }
    Ok(command)
}
