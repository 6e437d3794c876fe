//! The command of the program, as `clap` is to read it.

ghost use Rattle.std.specs.Prelude.{◌≡◌, IfOk};
ghost use Rattle.clap.specs.Words.{app_of, with_subcommand};
ghost use Rattle.command_words.specs.Command.{alone_shape, office_app, program_app, valued_shape};

use clap::{Arg, Command};
use std::alloc::{AllocError, Global};

/// The command with all subcommands. Neither help nor the version is among them.
pub fn office_command<'a>(alloc: Global) -> Result<Command<'a>, AllocError>
    ensures { IfOk result (λ command. app_of command ≡ office_app) }
{
    let office = with_alone(alloc, program(alloc), "assess")?;
    let office = with_alone(alloc, office, "batch")?;
    let office = with_valued(alloc, office, "voucher")?;
    let office = with_alone(alloc, office, "export")?;
    let office = with_valued(alloc, office, "import")?;
    let office = with_valued(alloc, office, "due")?;
    let office = with_valued(alloc, office, "targets")?;
    let office = with_valued(alloc, office, "make")?;
    with_valued(alloc, office, "trial")
}

/// The command without its subcommands.
fn program<'a>(alloc: Global) -> Command<'a>
    ensures { app_of result ≡ program_app }
{
    Command::new(alloc, "office")
        .no_binary_name(true)
        .disable_help_flag(true)
        .disable_help_subcommand(true)
        .disable_version_flag(true)
        .subcommand_required(true)
}

/// Adds a subcommand that has no value.
fn with_alone<'a>(
    alloc: Global,
    office: Command<'a>,
    name: &'a str,
) -> Result<Command<'a>, AllocError>
    ensures { IfOk result (λ command. app_of command ≡ with_subcommand (app_of office.entry) (alone_shape name.entry.now)) }
{
    office.subcommand(Command::new(alloc, name))
}

/// Adds a subcommand that has one value.
fn with_valued<'a>(
    alloc: Global,
    office: Command<'a>,
    name: &'a str,
) -> Result<Command<'a>, AllocError>
    ensures { IfOk result (λ command. app_of command ≡ with_subcommand (app_of office.entry) (valued_shape name.entry.now)) }
{
    let value = Arg::new(alloc, "value").required(true);
    let valued = Command::new(alloc, name).arg(value)?;
    office.subcommand(valued)
}
