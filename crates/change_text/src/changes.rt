//! Changes of a household in JSON.

ghost use Rattle.std.specs.Prelude.{◌≡◌, true, map, IfOk};
ghost use Rattle.serde_json.specs.View.{view, members_view};
ghost use Rattle.json_form.specs.{Gives.Gives, Written.names_of};
ghost use Rattle.book_rows.specs.Fit.{is_fit};
ghost use Rattle.book_rows.specs.declared.command.Command.TheVariants as command;
ghost use Rattle.command_forms.specs.Commands.{command_members};
ghost use Rattle.command_forms.specs.Changes.{ask_transfer_at, ask_transfer_members, change_at, change_members, change_word, household_at, household_members};
ghost use Rattle.command_forms.specs.declared.kind.ChangeKind.TheVariants as kind;

use book_rows::{
    AnnualAct, AskTransferAct, Command, CorrectAct, GrossAct, HouseholdAct, HouseholdChange,
    InterimAct, MoveOutAct, ResumeAct, TerminateAct, TransferAct, WithdrawAct,
};
use command_forms::ChangeKind;
use json_form::{FormFault, Members, field};
use plain_data::NoMemory;
use record_history::Dates;
use serde_json::Value;
use std::alloc::Global;

#[tactic(auto, unfolding(command_forms::specs::Changes::ask_transfer_members))]
pub fn ask_transfer_members(alloc: Global, ask: &AskTransferAct) -> Result<Members, NoMemory>
    ensures { IfOk result (λ all. members_view all.members.entries ≡ ask_transfer_members ask.now) }
{
    Members::new(alloc)
        .with("accessible", &ask.accessible)?
        .with("household", &ask.household)?
        .with("wanted", &ask.wanted)
}

#[tactic(auto, unfolding(command_forms::specs::Changes::household_members))]
pub fn household_members(alloc: Global, act: &HouseholdAct) -> Result<Members, NoMemory>
    ensures { IfOk result (λ all. members_view all.members.entries ≡ household_members act.now) }
{
    change_members(alloc, &act.change)?
        .with("seen", &act.seen)?
        .with("household", &act.household)
}

#[tactic(auto, unfolding(command_forms::specs::Changes::change_members))]
fn change_members(alloc: Global, change: &HouseholdChange) -> Result<Members, NoMemory>
    ensures { IfOk result (λ all. members_view all.members.entries ≡ change_members change.now) }
{
    let none = Members::new(alloc);
    match change {
        HouseholdChange::Annual(annual) => none
            .with("facts", &annual.facts)?
            .with("from", &annual.from),
        HouseholdChange::Interim(interim) => none
            .with("done", &interim.dates.done)?
            .with("event", &interim.dates.event)?
            .with("facts", &interim.facts)?
            .with("from", &interim.from)?
            .with("notice", &interim.dates.notice),
        HouseholdChange::Resume(resume) => none
            .with("done", &resume.done)?
            .with("facts", &resume.facts)?
            .with("from", &resume.from),
        HouseholdChange::Gross(gross) => none.with("from", &gross.from),
        HouseholdChange::Correct(correct) => none
            .with("facts", &correct.facts)?
            .with("from", &correct.from)?
            .with("record", &correct.target),
        HouseholdChange::Transfer(transfer) => none
            .with("from", &transfer.from)?
            .with("unit", &transfer.unit),
        HouseholdChange::MoveOut(move_out) => none.with("last", &move_out.last),
        HouseholdChange::Terminate(terminate) => none.with("from", &terminate.from),
        HouseholdChange::Withdraw(withdraw) => none.with("record", &withdraw.target),
    }
}

/// The word for its kind.
pub fn change_word(change: &HouseholdChange) -> &'static str
    ensures { result.now ≡ change_word change.now }
{
    match change {
        HouseholdChange::Annual(_) => "annual",
        HouseholdChange::Interim(_) => "interim",
        HouseholdChange::Resume(_) => "resume",
        HouseholdChange::Gross(_) => "gross",
        HouseholdChange::Correct(_) => "correct",
        HouseholdChange::Transfer(_) => "transfer",
        HouseholdChange::MoveOut(_) => "move_out",
        HouseholdChange::Terminate(_) => "terminate",
        HouseholdChange::Withdraw(_) => "withdraw",
    }
}

#[tactic(auto, unfolding(command_forms::specs::Changes::ask_transfer_at))]
pub fn ask_transfer_of(alloc: Global, value: &Value) -> Result<Command, FormFault>
    ensures exact { Gives (λ asked. asked) result (ask_transfer_at (view value.now)) }
    ensures fit { IfOk result (λ asked. is_fit asked ≡ true) }
{
    let household = field(alloc, value, "household")?;
    let wanted = field(alloc, value, "wanted")?;
    let accessible = field(alloc, value, "accessible")?;
    Ok(Command::AskTransfer(AskTransferAct {
        household,
        wanted,
        accessible,
    }))
}

#[tactic(auto, unfolding(command_forms::specs::Changes::household_at))]
pub fn household_of(alloc: Global, value: &Value, kind: ChangeKind) -> Result<Command, FormFault>
    ensures exact { Gives (λ asked. asked) result (household_at kind (view value.now)) }
    ensures fit { IfOk result (λ asked. is_fit asked ≡ true) }
{
    let household = field(alloc, value, "household")?;
    let seen = field(alloc, value, "seen")?;
    let change = change_of(alloc, value, kind)?;
    Ok(Command::Household(HouseholdAct {
        household,
        seen,
        change,
    }))
}

#[tactic(auto, unfolding(command_forms::specs::Changes::change_at))]
fn change_of(alloc: Global, value: &Value, kind: ChangeKind) -> Result<HouseholdChange, FormFault>
    ensures { Gives (λ change. change) result (change_at kind (view value.now)) }
{
    match kind {
        ChangeKind::Annual => {
            let from = field(alloc, value, "from")?;
            let facts = field(alloc, value, "facts")?;
            Ok(HouseholdChange::Annual(AnnualAct { from, facts }))
        }
        ChangeKind::Interim => interim_of(alloc, value),
        ChangeKind::Resume => resume_of(alloc, value),
        ChangeKind::Gross => {
            let from = field(alloc, value, "from")?;
            Ok(HouseholdChange::Gross(GrossAct { from }))
        }
        ChangeKind::Correct => correct_of(alloc, value),
        ChangeKind::Transfer => {
            let unit = field(alloc, value, "unit")?;
            let from = field(alloc, value, "from")?;
            Ok(HouseholdChange::Transfer(TransferAct { unit, from }))
        }
        ChangeKind::MoveOut => {
            let last = field(alloc, value, "last")?;
            Ok(HouseholdChange::MoveOut(MoveOutAct { last }))
        }
        ChangeKind::Terminate => {
            let from = field(alloc, value, "from")?;
            Ok(HouseholdChange::Terminate(TerminateAct { from }))
        }
        ChangeKind::Withdraw => {
            let target = field(alloc, value, "record")?;
            Ok(HouseholdChange::Withdraw(WithdrawAct { target }))
        }
    }
}

#[tactic(auto, unfolding(command_forms::specs::Changes::change_at))]
fn interim_of(alloc: Global, value: &Value) -> Result<HouseholdChange, FormFault>
    ensures { Gives (λ change. change) result (change_at kind.Interim (view value.now)) }
{
    let event = field(alloc, value, "event")?;
    let notice = field(alloc, value, "notice")?;
    let done = field(alloc, value, "done")?;
    let from = field(alloc, value, "from")?;
    let facts = field(alloc, value, "facts")?;
    let dates = Dates {
        event,
        notice,
        done,
    };
    Ok(HouseholdChange::Interim(InterimAct { dates, from, facts }))
}

#[tactic(auto, unfolding(command_forms::specs::Changes::change_at))]
fn resume_of(alloc: Global, value: &Value) -> Result<HouseholdChange, FormFault>
    ensures { Gives (λ change. change) result (change_at kind.Resume (view value.now)) }
{
    let done = field(alloc, value, "done")?;
    let from = field(alloc, value, "from")?;
    let facts = field(alloc, value, "facts")?;
    Ok(HouseholdChange::Resume(ResumeAct { done, from, facts }))
}

#[tactic(auto, unfolding(command_forms::specs::Changes::change_at))]
fn correct_of(alloc: Global, value: &Value) -> Result<HouseholdChange, FormFault>
    ensures { Gives (λ change. change) result (change_at kind.Correct (view value.now)) }
{
    let target = field(alloc, value, "record")?;
    let from = field(alloc, value, "from")?;
    let facts = field(alloc, value, "facts")?;
    Ok(HouseholdChange::Correct(CorrectAct {
        target,
        from,
        facts,
    }))
}

/// The names of its members, in their byte order.
#[tactic(auto, unfolding(command_forms::specs::Commands::command_members, command_forms::specs::Changes::household_members, command_forms::specs::Changes::change_members))]
pub fn household_names(act: &HouseholdAct) -> &'static [&'static str]
    ensures { map (λ name. name.now) result.now ≡ names_of (command_members (command.Household act.now)) }
{
    match &act.change {
        HouseholdChange::Annual(_) => &["facts", "from", "household", "kind", "seen"],
        HouseholdChange::Interim(_) => &[
            "done",
            "event",
            "facts",
            "from",
            "household",
            "kind",
            "notice",
            "seen",
        ],
        HouseholdChange::Resume(_) => { &["done", "facts", "from", "household", "kind", "seen"] }
        HouseholdChange::Gross(_) => &["from", "household", "kind", "seen"],
        HouseholdChange::Correct(_) => { &["facts", "from", "household", "kind", "record", "seen"] }
        HouseholdChange::Transfer(_) => &["from", "household", "kind", "seen", "unit"],
        HouseholdChange::MoveOut(_) => &["household", "kind", "last", "seen"],
        HouseholdChange::Terminate(_) => &["from", "household", "kind", "seen"],
        HouseholdChange::Withdraw(_) => &["household", "kind", "record", "seen"],
    }
}
