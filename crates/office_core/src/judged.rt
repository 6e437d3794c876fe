//! What comes of judging a call: a step, the first reply again, or why neither.

use book_rows::{Batch, Command};
use office_answers::office_step::{Done, Refusal};
use plain_data::Text;
use record_history::{Dates, Record};
use std::marker::Model;

/// The rows of an act that an office accepts, made by `Office::plan_step` for the office as it then is.
#[derive(Drop)]
pub struct Step {
    pub(crate) batch: Batch,
    pub(crate) asked: Command,
    /// That of the household that it makes.
    pub(crate) name: Option<Text>,
}

impl Model for Step {
    ghost use Rattle.office_core.specs.Planned.{Planned, HoldsRecord};

    ghost Value = { Planned };

    ghost view = { λ step. record { rows = step.batch; asked = step.asked; name = step.name } };

    ghost invariant = { λ step. HoldsRecord (record { rows = step.batch; asked = step.asked; name = step.name }) };
}

impl Step {
    ghost use Rattle.std.specs.Prelude.{◌≡◌};

    /// The rows that the step appends.
    pub fn batch(&self) -> &Batch
        ensures { result.now ≡ self.now.rows }
    {
        &self.batch
    }

    /// Frees it. It stands apart, so that no other proof has a case for each kind of command that goes out of use.
    pub fn let_go(self) {}
}

/// What an office makes of a call that it doesn't refuse.
#[derive(Drop)]
pub enum Judged {
    /// The act was accepted before, with this reply.
    Repeat(Done),
    New(Step),
}

/// Why there is neither a reply nor a step.
#[derive(Clone, Copy, Debug, PartialEq, Eq)]
pub enum Judgment {
    Refused(Refusal),
    NoMemory,
}
