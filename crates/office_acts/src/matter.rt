//! What a command is about: the one place of a judgement that asks which command it is.

ghost use Rattle.std.specs.Prelude.{◌≡◌, ◌+◌, ◌<◌, Some};
ghost use Rattle.days_core.specs.OfficeDays.{last_office_day};
ghost use Rattle.book_rows.specs.declared.{command.Command.Command, household.HouseholdChange.HouseholdChange};
ghost use Rattle.office_acts.specs.Matter.{matter_by};
ghost use Rattle.admission_order.specs.Below.office_step.Matter.{quiet, recording, resumed_dates, move_in, said_in, said_by, matter_of};

use admission_order::office_refusals::{Basis, basis_of};
use admission_order::office_register::Register;
use admission_order::office_step::MoveIn;
use book_rows::{AdmitAct, Command, HouseholdChange, TransferAct};
use days_core::{Day, Month};
use plain_data::Text;
use record_history::{Dates, Kind};
use wait_list::Candidate;

/// What is known when a command is asked, and what the command says, as the definition lists it.
#[derive(Clone, Copy)]
pub struct Matter<'a> {
    pub register: &'a Register,
    pub gives_plan: bool,
    pub month: Option<Month>,
    pub name: Option<&'a Text>,
    pub sets_from: Option<Day>,
    pub household: Option<u32>,
    pub applicant: Option<u32>,
    pub unit: Option<u32>,
    pub target: Option<u32>,
    pub seen: Option<u32>,
    pub told: Option<Dates>,
    pub from: Option<Day>,
    pub last: Option<Day>,
    pub kind: Option<Kind>,
    pub basis: Basis<'a>,
    pub moves: Option<MoveIn>,
    pub begins: bool,
}

/// What the command is about.
pub fn matter_of<'a>(register: &'a Register, command: &'a Command) -> Matter<'a>
    ensures { matter_by result ≡ matter_of register.now.known command.now }
{
    Matter {
        basis: basis_of(command),
        ..said_by(register, command)
    }
}

/// What it says, but for what its record rests on.
fn said_by<'a>(register: &'a Register, command: &'a Command) -> Matter<'a>
    ensures { matter_by result ≡ said_by register.now.known command.now }
{
    let quiet = quiet(register);
    match command {
        Command::Plan(_) => Matter {
            gives_plan: true,
            ..quiet
        },
        Command::Unit(unit) => Matter {
            name: Some(&unit.name),
            ..quiet
        },
        Command::Rents(rents) => setting(register, rents.from),
        Command::Limits(limits) => setting(register, limits.from),
        Command::Apply(_) => quiet,
        Command::Remove(remove) => Matter {
            applicant: Some(remove.applicant),
            ..quiet
        },
        Command::Start(start) => Matter {
            unit: Some(start.unit),
            ..recording(register, Kind::IC, start.from)
        },
        Command::Admit(admit) => admitting(register, admit),
        Command::AskTransfer(ask) => Matter {
            household: Some(ask.household),
            ..quiet
        },
        Command::Household(act) => Matter {
            household: Some(act.household),
            seen: Some(act.seen),
            ..change_of(register, act.household, &act.change)
        },
        Command::Close(close) => Matter {
            month: Some(close.month),
            ..quiet
        },
    }
}

/// What a change of the household is about.
fn change_of<'a>(register: &'a Register, household: u32, change: &'a HouseholdChange) -> Matter<'a>
    ensures { matter_by result ≡ said_in register.now.known household change.now }
{
    match change {
        HouseholdChange::Annual(annual) => recording(register, Kind::AR, annual.from),
        HouseholdChange::Interim(interim) => Matter {
            told: Some(interim.dates),
            ..recording(register, Kind::IR, interim.from)
        },
        HouseholdChange::Resume(resume) => Matter {
            told: resumed_dates(resume.done),
            begins: true,
            ..recording(register, Kind::IC, resume.from)
        },
        HouseholdChange::Gross(gross) => recording(register, Kind::GR, gross.from),
        HouseholdChange::Correct(correct) => Matter {
            target: Some(correct.target),
            from: Some(correct.from),
            ..quiet(register)
        },
        HouseholdChange::Transfer(transfer) => transferring(register, household, *transfer),
        HouseholdChange::MoveOut(move_out) => Matter {
            kind: Some(Kind::MO),
            last: Some(move_out.last),
            ..quiet(register)
        },
        HouseholdChange::Terminate(terminate) => recording(register, Kind::TM, terminate.from),
        HouseholdChange::Withdraw(withdraw) => Matter {
            kind: Some(Kind::WD),
            target: Some(withdraw.target),
            ..quiet(register)
        },
    }
}

/// One that sets rents or limits from a day on.
fn setting(register: &Register, from: Day) -> Matter
    ensures { matter_by result ≡ record (quiet register.now.known) { sets_from = Some from } }
{
    Matter {
        sets_from: Some(from),
        ..quiet(register)
    }
}

/// An admission.
fn admitting<'a>(register: &'a Register, admit: &'a AdmitAct) -> Matter<'a>
    ensures { matter_by result ≡ said_by register.now.known (Command.Admit admit.now) }
{
    let candidate = Candidate::Applicant(admit.applicant);
    Matter {
        applicant: Some(admit.applicant),
        unit: Some(admit.unit),
        moves: move_in(candidate, admit.unit, admit.from),
        begins: true,
        ..recording(register, Kind::MI, admit.from)
    }
}

/// A transfer of the household.
fn transferring(register: &Register, household: u32, transfer: TransferAct) -> Matter
    ensures { matter_by result ≡ said_in register.now.known household (HouseholdChange.Transfer transfer) }
{
    let candidate = Candidate::Household(household);
    Matter {
        unit: Some(transfer.unit),
        moves: move_in(candidate, transfer.unit, transfer.from),
        ..recording(register, Kind::UT, transfer.from)
    }
}

/// One that makes a record of that kind and first day.
fn recording(register: &Register, kind: Kind, from: Day) -> Matter
    ensures { matter_by result ≡ recording register.now.known kind from }
{
    Matter {
        kind: Some(kind),
        from: Some(from),
        ..quiet(register)
    }
}

/// A command that says nothing.
fn quiet(register: &Register) -> Matter
    ensures { matter_by result ≡ quiet register.now.known }
{
    Matter {
        register,
        gives_plan: false,
        month: None,
        name: None,
        sets_from: None,
        household: None,
        applicant: None,
        unit: None,
        target: None,
        seen: None,
        told: None,
        from: None,
        last: None,
        kind: None,
        basis: Basis::Nothing,
        moves: None,
        begins: false,
    }
}

/// All three days are the one on which the work was done.
fn resumed_dates(done: Day) -> Option<Dates>
    ensures { result ≡ resumed_dates done }
{
    Some(Dates {
        event: done,
        notice: done,
        done,
    })
}

fn move_in(candidate: Candidate, unit: u32, from: Day) -> Option<MoveIn>
    ensures { result ≡ move_in candidate unit from }
{
    Some(MoveIn {
        candidate,
        unit,
        from,
    })
}

impl Matter<'_> {
    ghost use Rattle.std.specs.Prelude.{◌≡◌, ◌≤◌, ◌<◌, IfSome};
    ghost use Rattle.days_core.specs.OfficeDays.{last_office_day};
    ghost use Rattle.record_history.specs.Records.{newest_number};
    ghost use Rattle.admission_order.specs.Below.office_step.Matter.{household_of, own, certifies, begins_on};
    ghost use Rattle.office_acts.specs.Matter.{matter_by};
    ghost use Rattle.office_acts.specs.Judged.{IsInTime};

    /// The household that it names, or the one that comes next.
    pub fn household(&self) -> u32
        ensures { result ≡ household_of (matter_by self.now) }
    {
        match self.household {
            Some(household) => household,
            None => self.register.history().households() + 1,
        }
    }

    /// The newest record of that household.
    pub fn newest(&self) -> u32
        ensures { result ≡ newest_number (own (matter_by self.now)) }
    {
        self.register.history().newest(self.household())
    }

    /// Whether its record rests on facts, or on what was certified before.
    pub fn certifies(&self) -> bool
        ensures { result ≡ certifies (matter_by self.now).basis }
    {
        match self.basis {
            Basis::Facts(_) | Basis::Carried => true,
            Basis::Nothing => false,
        }
    }

    /// The first day of its record.
    pub fn begins_on(&self) -> Day
        requires { IsInTime (matter_by self.now) }
        ensures value { result ≡ begins_on (matter_by self.now) }
        ensures within { result ≤ last_office_day }
    {
        match (self.from, self.last) {
            (Some(from), _) => from,
            (None, Some(last)) => day_after(last),
            (None, None) => Day::from_number(0).unwrap(),
        }
    }
}

fn day_after(day: Day) -> Day
    requires { day < last_office_day }
    ensures { result ≡ day + 1 }
{
    Day::from_number(day.number() + 1).unwrap()
}
