//! What the words ask for.

ghost use Rattle.std.specs.Prelude.{◌≡◌, IfOk, Some};
ghost use Rattle.command_words.specs.Words.{HasClerk as NamesClerk};
ghost use Rattle.office_prog.specs.Task.{built, task_in, HasClerk};

use crate::report::Report;
use command_words::{Subcommand, subcommand_in};
use plain_data::NoMemory;
use std::alloc::Global;

/// What the program is to do.
#[derive(Clone, Copy)]
pub enum Task {
    /// To assess one household.
    Assess,
    /// To answer the lines of a batch.
    Batch,
    /// To write a report of the book.
    Report(Report),
    /// To take applicants in, for the clerk of that number, from 1 to 9,999.
    Import(u32),
    /// To write the lines of a made office of so many households, from 1 to 300.
    Make(u32),
    /// To answer these lines in memory, and to sum up what that comes to.
    Trial(u32),
}

/// What the words ask, and None where they ask nothing that the program does.
pub fn task_in(alloc: Global, words: &[String]) -> Result<Option<Task>, NoMemory>
    ensures exact { IfOk result (λ found. found ≡ task_in words.now) }
    ensures clerk { IfOk result HasClerk }
{
    match subcommand_in(alloc, words)? {
        Some(subcommand) => Ok(built(subcommand)),
        None => Ok(None),
    }
}

/// The task of a subcommand, if the program has it.
fn built(subcommand: Subcommand) -> Option<Task>
    ensures exact { result ≡ built subcommand }
    ensures clerk { NamesClerk (Some subcommand) → HasClerk result }
{
    match subcommand {
        Subcommand::Assess => Some(Task::Assess),
        Subcommand::Batch => Some(Task::Batch),
        Subcommand::Export => Some(Task::Report(Report::Export)),
        Subcommand::Due(day) => Some(Task::Report(Report::Due(day))),
        Subcommand::Targets(day) => Some(Task::Report(Report::Targets(day))),
        Subcommand::Import(clerk) => Some(Task::Import(clerk)),
        Subcommand::Voucher(month) => Some(Task::Report(Report::Voucher(month))),
        Subcommand::Make(households) => Some(Task::Make(households)),
        Subcommand::Trial(households) => Some(Task::Trial(households)),
    }
}
