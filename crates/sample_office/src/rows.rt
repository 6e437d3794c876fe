//! The sample's rows.

ghost use Rattle.std.specs.Prelude.{◌≡◌, IfOk};

use crate::days::{day, month};
use book_rows::ActRow;
use plain_data::{NoMemory, SharedText, Text};
use std::alloc::Global;
use voucher_core::Line;

/// The words as an owned text.
pub fn text(alloc: Global, words: &str) -> Result<Text, NoMemory>
    ensures { IfOk result (λ text. text ≡ words.now) }
{
    Ok(Text::new(words.as_bytes().to_vec(alloc)?))
}

/// An act of session 1 on 2024-01-01.
pub fn act_row(n: u32, clerk: u32, request: u32, body: SharedText) -> ActRow
    ensures n { result.n ≡ n }
    ensures clerk { result.clerk ≡ clerk }
    ensures request { result.request ≡ request }
{
    ActRow {
        n,
        session: 1,
        clerk,
        request,
        day: day("2024-01-01"),
        body,
    }
}

/// What household 1 is paid for the whole of January 2024 by its record 1: 548.
pub fn line(act: u32, place: u32) -> Line
    ensures act { result.act ≡ act }
    ensures place { result.place ≡ place }
{
    let january = month("2024-01");
    Line {
        act,
        place,
        month: january,
        household: 1,
        for_month: january,
        first: day("2024-01-01"),
        last: day("2024-01-31"),
        old: 0,
        new: 1,
        amount: 548,
    }
}
