//! The first reply to an act, made again of the book.

ghost use Rattle.std.specs.Prelude.{◌≡◌, ◌≤◌, length, nat_le, count_by, option_copied, IfSome};
ghost use Rattle.std.specs.Option.{option_map_or};
ghost use Rattle.record_history.specs.Held.{IsWithin};
ghost use Rattle.record_history.specs.Limits.{most_lines};
ghost use Rattle.office_answers.specs.Below.office_step.Reply as reply;
ghost use Rattle.office_answers.specs.Below.office_step.declared.reply.Made.TheVariants as nothing;

use crate::{Judged, Judgment, Office};
use book_replay::book_search::{lines_of_act, record_of_act};
use book_replay::office_laws::{
    applicant_replies, books_are_kept, requests_are_once, unit_replies, within_room,
};
use book_rows::{ActRow, Command, UnitAct};
use days_core::Month;
use office_answers::office_refusals::certified;
use office_answers::office_step::{Application, Call, Done, Made, Refusal};
use plain_data::Text;
use record_history::{Dates, Record};
use voucher_core::{Line, total};

impl Office {
    ghost use Rattle.std.specs.Prelude.{◌≡◌, ◌==◌, ◌≤◌, ℕ, Some, nat_le, length, filter, find, option_copied, Contains, IfOk, IfSome};
    ghost use Rattle.book_rows.specs.declared.command.Command.TheVariants as command;
    ghost use Rattle.book_replay.specs.Below.command_forms.Commands.{body_of, command_in};
    ghost use Rattle.record_history.specs.Held.{IsWithin};
    ghost use Rattle.office_answers.specs.Below.office_step.Acts.{applications_of, units_of};
    ghost use Rattle.office_answers.specs.Below.office_step.Refusals.{is_request_of};
    ghost use Rattle.office_answers.specs.Below.office_step.Reply.{acts_up_to, done_of, made_by};
    ghost use Rattle.office_answers.specs.Below.office_step.Step.{step};
    ghost use Rattle.office_core.specs.Judged.{Judges, PlansFor};
    ghost use Rattle.record_history.specs.Limits.{most_lines};

    /// The answer to a call whose clerk and request an act has.
    pub(crate) fn answered(
        &self,
        row: &ActRow,
        body: &Text,
        call: &Call,
    ) -> Result<Judged, Judgment>
        requires found { find (is_request_of call.now.clerk call.now.request) self.now.book.acts ≡ Some row.now }
        requires body { body.now ≡ body_of call.now.command }
        requires reads { command_in body.now ≡ Some call.now.command }
        ensures judged { (session clock : ℕ) → Judges (step self.now.book self.now.capacity session clock call.now) result }
        ensures planned { IfOk result (λ judged. PlansFor self.now.capacity self.now.book judged) }
    {
        requests_are_once();
        let _known = &self.capacity;
        if row.body.as_bytes() == body.as_bytes() {
            Ok(Judged::Repeat(self.done(row, &call.command)))
        } else {
            Err(Judgment::Refused(Refusal::RequestReused { act: row.n }))
        }
    }

    /// The reply to an act of the book.
    fn done(&self, row: &ActRow, command: &Command) -> Done
        requires held { Contains self.now.book.acts row.now }
        requires reads { command_in row.now.body ≡ Some command.now }
        ensures { result ≡ done_of self.now.book row.now }
    {
        let made = self.made_by(row, command);
        Done {
            act: row.n,
            day: row.day,
            made,
        }
    }

    fn made_by(&self, row: &ActRow, command: &Command) -> Made
        requires held { Contains self.now.book.acts row.now }
        requires reads { command_in row.now.body ≡ Some command.now }
        ensures { result ≡ made_by self.now.book row.now.n command.now }
    {
        match command {
            Command::Unit(unit) => Made::Unit(self.units_up_to(row, unit)),
            Command::Apply(_) => Made::Applicant(self.applicants_up_to(row.n)),
            Command::Close(close) => closed(self.lines_of(row.n), close.month),
            _ => certified_by(self.record_of(row.n)),
        }
    }

    /// How many units there were once the act had made one.
    fn units_up_to(&self, row: &ActRow, unit: &UnitAct) -> u32
        requires held { Contains self.now.book.acts row.now }
        requires reads { command_in row.now.body ≡ Some (command.Unit unit.now) }
        ensures { result ≡ length (units_of (acts_up_to self.now.book row.now.n)) }
    {
        unit_replies();
        self.register.table().unit_named(&unit.name).unwrap_or(0)
    }

    /// How many had applied by that act.
    fn applicants_up_to(&self, n: u32) -> u32
        ensures { result ≡ length (applications_of (acts_up_to self.now.book n)) }
    {
        applicant_replies();
        applied_by(self.register.applications(), n) as u32
    }

    fn lines_of(&self, n: u32) -> &[Line]
        ensures lines { result.now ≡ filter (λ line. line.act == n) self.now.book.lines }
        ensures few { length result.now ≤ most_lines }
    {
        books_are_kept();
        within_room();
        lines_of_act(&self.tables.lines, n)
    }

    fn record_of(&self, n: u32) -> Option<&Record>
        ensures made { option_copied result ≡ find (λ r. r.act == n) self.now.book.records }
        ensures within { IfSome (option_copied result) IsWithin }
    {
        books_are_kept();
        record_of_act(&self.tables.records, n)
    }
}

fn applied_by(applications: &[Application], n: u32) -> usize
    ensures { result ≡ count_by (λ application. nat_le application.act n) applications.now }
{
    applications
        .iter()
        .filter(|application| application.act <= n)
        .count()
}

/// The total of a closing's lines, and how many they are.
pub fn closed(lines: &[Line], month: Month) -> Made
    requires { length lines.now ≤ most_lines }
    ensures { result ≡ reply.closed lines.now month }
{
    Made::Closed {
        amount: total(lines),
        lines: lines.len() as u32,
        month,
    }
}

/// The record made, as a reply, or nothing.
pub fn certified_by(made: Option<&Record>) -> Made
    requires { IfSome (option_copied made) IsWithin }
    ensures { result ≡ option_map_or reply.certified (option_copied made.entry) nothing.Nothing }
{
    match made {
        Some(made) => certified(made),
        None => Made::Nothing,
    }
}
