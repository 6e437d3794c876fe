//! Rows of acts, and batches.

use days_core::Day;
use plain_data::{Listed, NoMemory, SharedText};
use record_history::{Dates, Record};
use std::alloc::Global;
use voucher_core::Line;

/// An act that the office accepted.
#[derive(Debug, Drop, PartialEq, Eq)]
pub struct ActRow {
    /// Its number, from 1.
    pub n: u32,
    /// The session in which it was asked.
    pub session: u32,
    pub clerk: u32,
    /// The clerk's own number of the request.
    pub request: u32,
    pub day: Day,
    /// The text of its command.
    pub body: SharedText,
}

impl ActRow {
    ghost use Rattle.std.specs.Prelude.{◌≡◌, IfOk};

    /// Another row that is the same. The two share the text, so that it takes no memory.
    pub fn try_clone(&self) -> Result<ActRow, NoMemory>
        ensures { IfOk result (λ act. act ≡ self.now) }
    {
        let body = self.body.try_clone()?;
        Ok(ActRow {
            n: self.n,
            session: self.session,
            clerk: self.clerk,
            request: self.request,
            day: self.day,
            body,
        })
    }
}

/// The rows that one act appends.
#[derive(Debug, Drop, PartialEq, Eq)]
pub struct Batch {
    pub act: ActRow,
    /// The record that the act made.
    pub made: Option<Record>,
    /// The lines of the closing that the act made.
    pub lines: Listed<Line>,
}

impl Batch {
    ghost use Rattle.std.specs.Prelude.{◌≡◌, IfOk};

    /// Another batch of the same rows.
    pub fn try_clone(&self, alloc: Global) -> Result<Batch, NoMemory>
        ensures { IfOk result (λ batch. batch ≡ self.now) }
    {
        let act = self.act.try_clone()?;
        let lines = self.lines.as_slice().to_vec(alloc)?;
        Ok(Batch {
            act,
            made: self.made,
            lines: Listed::new(lines),
        })
    }
}

/// Which of a book's tables a row is in.
#[derive(Clone, Copy, Debug, PartialEq, Eq)]
pub enum Table {
    Acts,
    Records,
    Lines,
}
