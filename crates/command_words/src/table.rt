//! The table of the program's words, read by hand.

ghost use Rattle.std.specs.Prelude.{◌≡◌, ◌≤◌, IfSome};
ghost use Rattle.command_words.specs.Words.{subcommand_alone, subcommand_with, HasClerk};
ghost use Rattle.numerals.specs.Numerals.{plain_number_between};

use crate::Subcommand;
use days_core::{day_of_text, month_of_text};
use numerals::plain_number_between;

/// The greatest number of a clerk.
const CLERK_MOST: u32 = 9_999;

/// The most households of an office that is made.
const HOUSEHOLDS_MOST: u32 = 300;

/// What a word asks that stands alone.
pub fn subcommand_alone(name: &str) -> Option<Subcommand>
    ensures exact { result ≡ subcommand_alone name.now }
    ensures clerk { HasClerk result }
{
    match name {
        "assess" => Some(Subcommand::Assess),
        "batch" => Some(Subcommand::Batch),
        "export" => Some(Subcommand::Export),
        _ => None,
    }
}

/// What a word asks that has a value after it.
pub fn subcommand_with(name: &str, value: &str) -> Option<Subcommand>
    ensures exact { result ≡ subcommand_with name.now value.now }
    ensures clerk { HasClerk result }
{
    match name {
        "voucher" => Some(Subcommand::Voucher(month_of_text(value).ok()?)),
        "import" => Some(Subcommand::Import(number_up_to(CLERK_MOST, value)?)),
        "due" => Some(Subcommand::Due(day_of_text(value).ok()?)),
        "targets" => Some(Subcommand::Targets(day_of_text(value).ok()?)),
        "make" => Some(Subcommand::Make(number_up_to(HOUSEHOLDS_MOST, value)?)),
        "trial" => Some(Subcommand::Trial(number_up_to(HOUSEHOLDS_MOST, value)?)),
        _ => None,
    }
}

/// The number from 1 to `most` that the word writes, without a sign and without a zero in front.
fn number_up_to(most: u32, word: &str) -> Option<u32>
    ensures exact { result ≡ plain_number_between 1 most word.now }
    ensures least { IfSome result (λ number. 1 ≤ number) }
    ensures most { IfSome result (λ number. number ≤ most) }
{
    plain_number_between(word.as_bytes(), 1, most)
}
