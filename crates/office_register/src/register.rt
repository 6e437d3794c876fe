//! The register: what an office knows, kept so that no question scans its acts.

ghost use Rattle.std.specs.Prelude.{◌≡◌, true, Some, IfOk, is_some, min, max};
ghost use Rattle.wait_list.specs.Rank.{best_rank};
ghost use Rattle.office_refusals.specs.Below.office_step.Acts.{ranks_of};

use book_rows::{
    AdmitAct, ApplyAct, AskTransferAct, CloseAct, Command, HouseholdAct, LimitsAct, RemoveAct,
    RentsAct, StartAct, UnitAct,
};
use days_core::{Day, Month, first_of};
use facts_core::{Facts, eligible_members};
use office_refusals::office_step::{Application, Closed, Request};
use office_refusals::{Basis, annual_right, basis_of, continued};
use plain_data::{Listed, NoMemory, Text};
use record_history::{Dates, History, Record};
use rent_table::{LimitRow, Plan, RentRow, RentTable, Unit};
use std::alloc::Global;
use std::marker::Model;
use tenancy_rules::Tenancies;
use wait_list::{Applicant, WaitList, best_rank};

/// What an office knows by its acts: its plan, units, rents and limits, who applied and who waits, and of each household
/// its name, its records and what it said of another unit.
#[derive(Drop)]
pub struct Register {
    count: u32,
    plan: Option<Plan>,
    plan_act: Option<u32>,
    table: RentTable,
    applications: Vec<Application>,
    list: WaitList,
    names: Vec<Text>,
    tenancies: Tenancies,
    requests: Vec<Option<Request>>,
    // Of each act the eligible members of the record that it made, and 0 where it made none.
    eligible: Vec<u32>,
    closing: Option<Closed>,
    reviewed: Option<Reviewed>,
    // The rightful day of each household's next annual, where it has one.
    annuals: Vec<Option<Day>>,
}

/// A closing that no plan or unit came after: it looked for stale rents on all days before this one, and no rents came
/// after it that begin before.
#[derive(Clone, Copy)]
struct Reviewed {
    act: u32,
    next: Day,
}

impl Model for Register {
    ghost use Rattle.office_register.specs.Registered.{Registered, IsRegister};

    ghost Value = { Registered };

    ghost use Rattle.office_register.specs.View.{known_in, room_in};

    ghost view = { λ register. record { known = known_in register; room = room_in register; record_room = register.tenancies.room } };

    ghost invariant = { λ register. IsRegister (known_in register) register.reviewed register.annuals.items };
}

impl Register {
    ghost use Rattle.std.specs.Prelude.{◌≡◌, ◌≤◌, ◌<◌, ◌+◌, [], ◌∷◌, ◌++◌, ℕ, None, Some, length, true, All, IfSome, IfOk, OnOk, IsOk, is_some, option_copied, sum_by, nat_le};
    ghost use Rattle.days_core.specs.OfficeDays.{last_office_month};
    ghost use Rattle.days_core.specs.Calendar.{last_of};
    ghost use Rattle.record_history.specs.Held.{room_of, with_record, IsWithin};
    ghost use Rattle.record_history.specs.Records.{newest_act};
    ghost use Rattle.wait_list.specs.Waiting.{without};
    ghost use Rattle.book_rows.specs.Book.{empty_book};
    ghost use Rattle.book_rows.specs.Fit.{is_plan, are_rents};
    ghost use Rattle.book_rows.specs.declared.command.Command.TheVariants as command;
    ghost use Rattle.office_refusals.specs.Below.office_step.Acts.{at_number, name_given};
    ghost use Rattle.office_register.specs.Accepted.{applicant_name};
    ghost use Rattle.office_refusals.specs.Below.office_step.Known.{known_of, own_in};
    ghost use Rattle.office_refusals.specs.Below.office_step.Against.{plan_day};
    ghost use Rattle.office_refusals.specs.Below.office_step.Refusals.{annual_right};
    ghost use Rattle.office_refusals.specs.Below.office_step.After.{next_act, known_after, eligible_next};
    ghost use Rattle.office_refusals.specs.Below.office_step.Eligible.{eligible_of_record, AllEligible};
    ghost use Rattle.office_refusals.specs.Below.office_step.Households.{continued};
    ghost use Rattle.certified_figures.specs.Figures.{AreEligible};
    ghost use Rattle.std.specs.Option.{option_map_or};
    ghost use Rattle.office_register.specs.Registered.{HasDates, IsReviewed, EndsBefore, rent_due_from};
    ghost use Rattle.office_register.specs.Accepted.{IsAccepted, IsNext, with_household, with_further};
    ghost use Rattle.record_history.specs.Limits.{most_acts};

    pub fn new(alloc: Global) -> Result<Register, NoMemory>
        ensures { IfOk result (λ register. register.known ≡ known_of empty_book) }
    {
        Ok(Register {
            count: 0,
            plan: None,
            plan_act: None,
            table: RentTable::new(alloc)?,
            applications: Vec::new(alloc),
            list: WaitList::new(alloc)?,
            names: Vec::new(alloc),
            tenancies: Tenancies::new(alloc)?,
            requests: Vec::new(alloc),
            eligible: Vec::new(alloc),
            closing: None,
            reviewed: None,
            annuals: Vec::new(alloc),
        })
    }

    /// The number of acts.
    pub fn count(&self) -> u32
        ensures count { result ≡ self.now.known.count }
        ensures few { result ≤ most_acts }
    {
        self.count
    }

    /// The plan, if one was given.
    pub fn plan(&self) -> Option<&Plan>
        ensures plan { option_copied result ≡ self.now.known.plan }
        ensures fit { IfSome (option_copied result) (λ plan. is_plan plan ≡ true) }
        ensures given { is_some self.now.known.plan_act ≡ is_some self.now.known.plan }
    {
        self.plan.as_ref()
    }

    /// The act that gave the plan.
    pub fn plan_act(&self) -> Option<u32>
        ensures { result ≡ self.now.known.plan_act }
    {
        self.plan_act
    }

    /// The units, and the rents and limits that were ever set.
    pub fn table(&self) -> &RentTable
        ensures units { result.now.units ≡ self.now.known.units }
        ensures rents { result.now.rents ≡ self.now.known.rents }
        ensures limits { result.now.limits ≡ self.now.known.limits }
        ensures bedrooms { All (λ unit. unit.bedrooms ≤ 5) result.now.units }
        ensures within { All (λ row. are_rents row.rents ≡ true) result.now.rents }
    {
        &self.table
    }

    /// The number of units.
    pub fn units(&self) -> u32
        ensures units { result ≡ length self.now.known.units }
        ensures few { result ≤ most_acts }
    {
        self.table.unit_rows().len() as u32
    }

    /// All who ever applied.
    pub fn applications(&self) -> &[Application]
        ensures applications { result.now ≡ self.now.known.applications }
        ensures few { length result.now ≤ self.now.known.count }
        ensures few_acts { self.now.known.count ≤ most_acts }
    {
        &self.applications
    }

    /// Those who wait.
    pub fn list(&self) -> &WaitList
        ensures waiting { result.now.applicants ≡ self.now.known.waiting }
    {
        &self.list
    }

    pub fn households(&self) -> u32
        ensures households { result ≡ length self.now.known.households }
        ensures few { result ≤ self.now.known.count }
    {
        self.tenancies.history().households()
    }

    /// The name of the household of that number, if there is one.
    pub fn household_name(&self, household: u32) -> Option<&Text>
        ensures { option_copied result ≡ at_number self.now.known.names household }
    {
        if household == 0 {
            return None;
        }
        self.names.get(household as usize - 1)
    }

    /// The households' records.
    pub fn history(&self) -> &History
        ensures households { result.now.households ≡ self.now.known.households }
        ensures few { length result.now.households ≤ self.now.known.count }
        ensures few_households { length result.now.households ≤ most_acts }
        ensures few_records { sum_by length result.now.households ≤ most_acts }
        ensures dates { All (All HasDates) result.now.households }
    {
        self.tenancies.history()
    }

    /// The households' records, by which a double use of a unit is found.
    pub fn tenancies(&self) -> &Tenancies
        ensures { result.now.households ≡ self.now.known.households }
    {
        &self.tenancies
    }

    /// The rightful day of the household's next annual, if there is one.
    pub fn next_annual(&self, household: u32) -> Option<Day>
        ensures { result ≡ annual_right (own_in self.now.known household) }
    {
        if household == 0 {
            return None;
        }
        match self.annuals.get(household as usize - 1) {
            Some(day) => *day,
            None => None,
        }
    }

    /// What each household said last of another unit.
    pub fn requests(&self) -> &[Option<Request>]
        ensures requests { result.now ≡ self.now.known.requests }
        ensures one_each { length result.now ≡ length self.now.known.households }
    {
        &self.requests
    }

    /// The eligible members of the record's family (24 CFR 5.520).
    pub fn eligible_of_record(&self, held: &Record) -> u32
        ensures value { result ≡ eligible_of_record self.now.known.eligible held.now }
        ensures all { AllEligible self.now.known.eligible self.now.known.households }
    {
        // The invariant is known where a field is read.
        let _numbers = &self.eligible;
        match self.eligible_by(held.act) {
            Some(eligible) => *eligible,
            None => 0,
        }
    }

    fn eligible_by(&self, act: u32) -> Option<&u32>
        ensures { option_copied result ≡ at_number self.now.known.eligible act }
    {
        if act == 0 {
            return None;
        }
        self.eligible.get(act as usize - 1)
    }

    /// The last closing.
    pub fn closing(&self) -> Option<Closed>
        ensures closing { result ≡ self.now.known.closing }
        ensures month { IfSome result (λ closing. closing.month ≤ last_office_month) }
        ensures earlier { IfSome result (λ closing. closing.act ≤ self.now.known.count) }
    {
        self.closing
    }

    /// The first day of the plan, and 1880-01-01 where there is none.
    pub fn plan_day(&self) -> Day
        ensures { result ≡ plan_day self.now.known }
    {
        match &self.plan {
            Some(plan) => first_of(plan.first),
            None => Day::from_number(0).unwrap(),
        }
    }

    /// From which day on the household's rents may have become stale: what is looked for from the plan's first day on is
    /// found from this one on. All days before it were looked at by the last closing, where nothing has changed them since.
    pub fn review_day(&self, household: u32) -> Day
        ensures { (last : ℕ) → rent_due_from self.now.known household result last ≡ rent_due_from self.now.known household (plan_day self.now.known) last }
    {
        match self.reviewed {
            Some(reviewed) if self.is_unchanged(household, reviewed.act) => reviewed.next,
            _ => self.plan_day(),
        }
    }

    /// Whether no record of the household came after the act.
    fn is_unchanged(&self, household: u32, act: u32) -> bool
        ensures { result ≡ nat_le (newest_act (own_in self.now.known household)) act }
    {
        self.history().newest_act(household) <= act
    }

    /// Knows of one more act, and takes no memory: the one of the command that was asked, the name of the household that it
    /// makes and the record that it makes.
    pub fn note(&mut self, command: Command, name: Option<Text>, made: Option<Record>)
        requires room { 1 ≤ self.old.room }
        requires record_room { IfSome made (λ r. 1 ≤ room_of self.old.record_room r.household) }
        requires accepted { IsAccepted self.old.known command made }
        requires within { IfSome made IsWithin }
        requires dates { IfSome made HasDates }
        requires name { name ≡ name_given self.old.known.applications command }
        ensures known { self.new.known ≡ known_after self.old.known command made }
    {
        let eligible = self.eligible_next(&command, &made);
        match command {
            Command::Plan(plan) => self.note_plan(plan),
            Command::Unit(unit) => self.note_unit(unit),
            Command::Rents(rents) => self.note_rents(rents),
            Command::Limits(limits) => self.note_limits(limits),
            Command::Apply(apply) => self.note_application(apply),
            Command::Remove(remove) => self.note_removal(remove),
            Command::Start(start) => self.note_start(start, made, eligible),
            Command::Admit(admit) => self.note_admission(admit, name, made, eligible),
            Command::AskTransfer(ask) => self.note_request(ask),
            Command::Close(close) => self.note_closing(close),
            Command::Household(act) => self.note_further(&act, made, eligible),
        }
    }

    /// The eligible members of the record that the act makes, and 0 if it makes none.
    fn eligible_next(&self, command: &Command, made: &Option<Record>) -> u32
        requires accepted { IsAccepted self.now.known command.now made.now }
        ensures { result ≡ eligible_next self.now.known command.now made.now }
    {
        match made {
            Some(made) => self.eligible_of_next(command, made),
            None => 0,
        }
    }

    fn eligible_of_next(&self, command: &Command, made: &Record) -> u32
        requires accepted { IsAccepted self.now.known command.now (Some made.now) }
        ensures { result ≡ eligible_next self.now.known command.now (Some made.now) }
    {
        match basis_of(command) {
            Basis::Facts(facts) => eligible_members(facts),
            Basis::Carried => self.eligible_continued(made.household, made.from),
            Basis::Nothing => 0,
        }
    }

    /// The eligible members of the record that one of that first day continues.
    fn eligible_continued(&self, household: u32, from: Day) -> u32
        ensures { result ≡ option_map_or (eligible_of_record self.now.known.eligible) (continued (own_in self.now.known household) from) 0 }
    {
        match continued(self.history(), household, from) {
            Some(held) => self.eligible_of_record(held),
            None => 0,
        }
    }

    /// The name of the household that the command makes, if it makes one: its own, or that of the applicant.
    pub fn name_given(&self, alloc: Global, command: &Command) -> Result<Option<Text>, NoMemory>
        ensures { IfOk result (λ name. name ≡ name_given self.now.known.applications command.now) }
    {
        match command {
            Command::Start(start) => Ok(Some(copy_of(alloc, &start.name)?)),
            Command::Admit(admit) => Ok(Some(self.applicant_name(alloc, admit.applicant)?)),
            _ => Ok(None),
        }
    }

    /// The name of the applicant of that number, and the empty one of one who isn't there.
    fn applicant_name(&self, alloc: Global, number: u32) -> Result<Text, NoMemory>
        ensures { IfOk result (λ name. name ≡ applicant_name self.now.known.applications number) }
    {
        match self.application(number) {
            Some(application) => copy_of(alloc, &application.apply.name),
            None => Ok(Text::new(Vec::new(alloc))),
        }
    }

    fn application(&self, number: u32) -> Option<&Application>
        ensures { option_copied result ≡ at_number self.now.known.applications number }
    {
        if number == 0 {
            return None;
        }
        self.applications.get(number as usize - 1)
    }

    /// Makes room for one more row of every sort, and for one more record of the household, which is one of those there
    /// are or the next; 0 is none.
    pub fn reserve(&mut self, household: u32) -> Result<(), NoMemory>
        requires { household ≤ length self.old.known.households + 1 }
        ensures known { self.new.known ≡ self.old.known }
        ensures room { OnOk result (1 ≤ self.new.room) }
        ensures record_room { OnOk result (1 ≤ household → 1 ≤ room_of self.new.record_room household) }
        ensures kept { self.old.room ≤ self.new.room }
        ensures records_kept { (other : ℕ) → room_of self.old.record_room other ≤ room_of self.new.record_room other }
        ensures succeeds { 1 ≤ self.old.room → (1 ≤ household → 1 ≤ room_of self.old.record_room household) → IsOk result }
    {
        self.reserve_rows()?;
        if household > 0 {
            self.tenancies.reserve(household)?;
        }
        Ok(())
    }

    fn reserve_rows(&mut self) -> Result<(), NoMemory>
        ensures known { self.new.known ≡ self.old.known }
        ensures room { OnOk result (1 ≤ self.new.room) }
        ensures record_room { self.new.record_room ≡ self.old.record_room }
        ensures kept { self.old.room ≤ self.new.room }
        ensures succeeds { 1 ≤ self.old.room → IsOk result }
    {
        self.list.reserve()?;
        self.table.reserve()?;
        self.applications.reserve(1)?;
        self.names.reserve(1)?;
        self.requests.reserve(1)?;
        self.annuals.reserve(1)?;
        self.eligible.reserve(1)?;
        Ok(())
    }

    /// Goes on to the next act, which makes no record, and of which nothing but its number is kept.
    fn pass(&mut self)
        requires few { self.old.known.count < most_acts }
        requires room { 1 ≤ self.old.room }
        ensures { self.new.known ≡ record self.old.known { count = next_act self.old.known; eligible = self.old.known.eligible ++ 0 ∷ [] } }
    {
        self.count += 1;
        self.eligible.push_reserved(0);
    }

    fn note_plan(&mut self, plan: Plan)
        requires room { 1 ≤ self.old.room }
        requires accepted { IsAccepted self.old.known (command.Plan plan) None }
        ensures { self.new.known ≡ known_after self.old.known (command.Plan plan) None }
    {
        self.count += 1;
        self.plan = Some(plan);
        self.plan_act = Some(self.count);
        self.reviewed = None;
        self.eligible.push_reserved(0);
    }

    fn note_unit(&mut self, unit: UnitAct)
        requires room { 1 ≤ self.old.room }
        requires accepted { IsAccepted self.old.known (command.Unit unit) None }
        ensures { self.new.known ≡ known_after self.old.known (command.Unit unit) None }
    {
        let number = self.table.unit_rows().len() as u32 + 1;
        self.count += 1;
        self.table.push_unit(Unit {
            number,
            name: unit.name,
            group: unit.group,
            bedrooms: unit.bedrooms,
            accessible: unit.accessible,
        });
        self.reviewed = None;
        self.eligible.push_reserved(0);
    }

    fn note_rents(&mut self, rents: RentsAct)
        requires room { 1 ≤ self.old.room }
        requires accepted { IsAccepted self.old.known (command.Rents rents) None }
        ensures { self.new.known ≡ known_after self.old.known (command.Rents rents) None }
    {
        let reviewed = self.reviewed_before(rents.from);
        self.count += 1;
        self.table.push_rents(RentRow {
            group: rents.group,
            from: rents.from,
            act: self.count,
            rents: rents.rents,
        });
        self.reviewed = reviewed;
        self.eligible.push_reserved(0);
    }

    /// What is left of the last review where something changes from the day on.
    fn reviewed_before(&self, day: Day) -> Option<Reviewed>
        ensures review { IfSome result (IsReviewed self.now.known) }
        ensures before { IfSome result (EndsBefore self.now.known day) }
    {
        let reviewed = self.reviewed?;
        let next = later_of(self.plan_day(), earlier_of(reviewed.next, day));
        Some(Reviewed {
            act: reviewed.act,
            next,
        })
    }

    fn note_limits(&mut self, limits: LimitsAct)
        requires room { 1 ≤ self.old.room }
        requires accepted { IsAccepted self.old.known (command.Limits limits) None }
        ensures { self.new.known ≡ known_after self.old.known (command.Limits limits) None }
    {
        let LimitsAct {
            from,
            low,
            very_low,
            extremely_low,
        } = limits;
        self.count += 1;
        self.table.push_limits(LimitRow {
            from,
            act: self.count,
            low,
            very_low,
            extremely_low,
        });
        self.eligible.push_reserved(0);
    }

    fn note_application(&mut self, apply: ApplyAct)
        requires room { 1 ≤ self.old.room }
        requires accepted { IsAccepted self.old.known (command.Apply apply) None }
        ensures { self.new.known ≡ known_after self.old.known (command.Apply apply) None }
    {
        self.count += 1;
        self.list.push(Applicant {
            number: self.applications.len() as u32 + 1,
            act: self.count,
            size: apply.size,
            persons: apply.persons,
            rank: rank_by(&self.plan, &apply.preferences),
            accessible: apply.accessible,
            annual: apply.annual,
        });
        self.applications.push_reserved(Application {
            act: self.count,
            apply,
        });
        self.eligible.push_reserved(0);
    }

    fn note_removal(&mut self, remove: RemoveAct)
        requires room { 1 ≤ self.old.room }
        requires accepted { IsAccepted self.old.known (command.Remove remove) None }
        ensures { self.new.known ≡ known_after self.old.known (command.Remove remove) None }
    {
        self.take_off(remove.applicant);
        self.pass();
    }

    fn take_off(&mut self, number: u32)
        ensures known { self.new.known ≡ record self.old.known { waiting = without number self.old.known.waiting } }
        ensures room { self.old.room ≤ self.new.room }
        ensures record_room { self.new.record_room ≡ self.old.record_room }
    {
        self.list.remove(number);
    }

    fn note_request(&mut self, ask: AskTransferAct)
        requires room { 1 ≤ self.old.room }
        requires accepted { IsAccepted self.old.known (command.AskTransfer ask) None }
        ensures { self.new.known ≡ known_after self.old.known (command.AskTransfer ask) None }
    {
        self.count += 1;
        self.requests[ask.household as usize - 1] = Some(Request {
            act: self.count,
            wanted: ask.wanted,
            accessible: ask.accessible,
        });
        self.eligible.push_reserved(0);
    }

    fn note_closing(&mut self, close: CloseAct)
        requires room { 1 ≤ self.old.room }
        requires accepted { IsAccepted self.old.known (command.Close close) None }
        ensures { self.new.known ≡ known_after self.old.known (command.Close close) None }
    {
        let next = self.day_behind(close.month);
        self.count += 1;
        self.closing = Some(Closed {
            month: close.month,
            act: self.count,
        });
        self.reviewed = Some(Reviewed {
            act: self.count,
            next,
        });
        self.eligible.push_reserved(0);
    }

    /// The first day behind the month, or the plan's first where that one is later.
    fn day_behind(&self, month: Month) -> Day
        requires { month ≤ last_office_month }
        ensures first { plan_day self.now.known ≤ result }
        ensures behind { (day : ℕ) → day < result → plan_day self.now.known ≤ day → day ≤ last_of month }
    {
        let behind = first_of(Month::from_number(month.number() + 1).unwrap());
        later_of(self.plan_day(), behind)
    }

    fn note_start(&mut self, start: StartAct, made: Option<Record>, eligible: u32)
        requires room { 1 ≤ self.old.room }
        requires record_room { IfSome made (λ r. 1 ≤ room_of self.old.record_room r.household) }
        requires accepted { IsAccepted self.old.known (command.Start start) made }
        requires within { IfSome made IsWithin }
        requires dates { IfSome made HasDates }
        requires eligible { eligible ≡ eligible_next self.old.known (command.Start start) made }
        ensures { self.new.known ≡ known_after self.old.known (command.Start start) made }
    {
        // The invariant is known where a field is read: what gave a plan left one.
        let _given = &self.plan_act;
        self.add_household(start.name, record_in(made), eligible);
    }

    fn note_admission(
        &mut self,
        admit: AdmitAct,
        name: Option<Text>,
        made: Option<Record>,
        eligible: u32,
    )
        requires room { 1 ≤ self.old.room }
        requires record_room { IfSome made (λ r. 1 ≤ room_of self.old.record_room r.household) }
        requires accepted { IsAccepted self.old.known (command.Admit admit) made }
        requires within { IfSome made IsWithin }
        requires dates { IfSome made HasDates }
        requires eligible { eligible ≡ eligible_next self.old.known (command.Admit admit) made }
        requires name { name ≡ Some (applicant_name self.old.known.applications admit.applicant) }
        ensures { self.new.known ≡ known_after self.old.known (command.Admit admit) made }
    {
        // As above.
        let _given = &self.plan_act;
        self.take_off(admit.applicant);
        self.add_household(name.unwrap(), record_in(made), eligible);
    }

    /// Adds the household that comes next, of which this is the first record. Of its members so many are eligible.
    fn add_household(&mut self, name: Text, held: Record, eligible: u32)
        requires few { self.old.known.count < most_acts }
        requires room { 1 ≤ self.old.room }
        requires record_room { 1 ≤ room_of self.old.record_room held.household }
        requires household { held.household ≡ length self.old.known.households + 1 }
        requires next { IsNext self.old.known held }
        requires within { IsWithin held }
        requires dates { HasDates held }
        requires eligible { AreEligible eligible held.size }
        ensures { self.new.known ≡ with_household self.old.known name held eligible }
    {
        let household = held.household;
        self.count += 1;
        self.names.push_reserved(name);
        self.requests.push_reserved(None);
        self.tenancies.push(held);
        let next = annual_right(self.tenancies.history(), household);
        self.annuals.push_reserved(next);
        self.eligible.push_reserved(eligible);
    }

    fn note_further(&mut self, act: &HouseholdAct, made: Option<Record>, eligible: u32)
        requires room { 1 ≤ self.old.room }
        requires record_room { IfSome made (λ r. 1 ≤ room_of self.old.record_room r.household) }
        requires accepted { IsAccepted self.old.known (command.Household act.now) made }
        requires within { IfSome made IsWithin }
        requires dates { IfSome made HasDates }
        requires eligible { eligible ≡ eligible_next self.old.known (command.Household act.now) made }
        ensures { self.new.known ≡ known_after self.old.known (command.Household act.now) made }
    {
        // That its records are numbered is known where they are read.
        let _records = self.tenancies.history().records(act.household);
        match made {
            Some(held) => self.hold(held, eligible),
            None => self.pass(),
        }
    }

    /// Holds the next record of a household that there is. Of its members so many are eligible.
    fn hold(&mut self, held: Record, eligible: u32)
        requires few { self.old.known.count < most_acts }
        requires room { 1 ≤ self.old.room }
        requires record_room { 1 ≤ room_of self.old.record_room held.household }
        requires household { held.household ≤ length self.old.known.households }
        requires next { IsNext self.old.known held }
        requires within { IsWithin held }
        requires dates { HasDates held }
        requires eligible { AreEligible eligible held.size }
        ensures { self.new.known ≡ with_further self.old.known held eligible }
    {
        let household = held.household;
        self.count += 1;
        self.tenancies.push(held);
        let next = annual_right(self.tenancies.history(), household);
        self.annuals[household as usize - 1] = next;
        self.eligible.push_reserved(eligible);
    }
}

fn earlier_of(day: Day, other: Day) -> Day
    ensures { result ≡ min day other }
{
    if other < day { other } else { day }
}

fn later_of(day: Day, other: Day) -> Day
    ensures { result ≡ max day other }
{
    if day < other { other } else { day }
}

fn copy_of(alloc: Global, text: &Text) -> Result<Text, NoMemory>
    ensures { IfOk result (λ copy. copy ≡ text.now) }
{
    Ok(Text::new(text.as_bytes().to_vec(alloc)?))
}

fn record_in(made: Option<Record>) -> Record
    requires { is_some made ≡ true }
    ensures { made ≡ Some result }
{
    let held = made.unwrap();
    // The check refuses a move of a record where Dates aren't named.
    let _dates: Option<Dates> = held.dates;
    held
}

/// The rank of an applicant with these preferences, by the plan if there is one.
fn rank_by(plan: &Option<Plan>, preferences: &Listed<u32>) -> u32
    ensures { result ≡ best_rank (ranks_of plan.now) preferences.now }
{
    match plan {
        Some(plan) => best_rank(plan, preferences.as_slice()),
        None => 100,
    }
}
