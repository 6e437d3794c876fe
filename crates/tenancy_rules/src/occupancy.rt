//! Which unit a household has, and where one unit would have two.

ghost use Rattle.std.specs.Prelude.{◌≡◌, ◌+◌, None, Some, option_copied, option_and_then, fold, nat_le, filter};
ghost use Rattle.std.specs.Option.{option_map_or};
ghost use Rattle.days_core.specs.OfficeDays.{last_office_day};
ghost use Rattle.record_history.specs.Records.{latest, live_records};
ghost use Rattle.record_history.specs.Held.{records_of};
ghost use Rattle.tenancy_rules.specs.Changed.{changed_records, AddsNext};
ghost use Rattle.tenancy_rules.specs.Occupancy.{unit_kept, is_one_unit, have_one_unit_on, is_rival_on, use_on, first_day_before, first_double_use};
ghost use Rattle.tenancy_rules.specs.Beginnings.{sooner_beginning, sooner_rivalry};
ghost use Rattle.tenancy_rules.specs.Uses.{UnitsNeverFall, TellUses, end_beside, sooner_use, sooner_uses};

use crate::Change;
use crate::changed::latest_before;
use crate::uses::{Use, of_unit};
use days_core::{Day, LAST_OFFICE_DAY};
use record_history::{History, Kind, Record};

/// Another household that would have the unit too, and a day on which it would.
#[derive(Clone, Copy, Debug, PartialEq, Eq)]
pub struct DoubleUse {
    pub household: u32,
    pub day: Day,
}

/// How many days there are from 1880-01-01 through 2099-12-31.
const DAYS: u32 = LAST_OFFICE_DAY + 1;

/// The first day through 2099-12-31 on which one unit would have the household and another after the change, with the
/// least of such others on that day; None where there is no such day. Own rule: a household has the unit of its record in
/// force, unless that is a move-out. It is for callers outside: `Tenancies` looks at few households.
pub fn double_use(history: &History, household: u32, change: &Change) -> Option<DoubleUse>
    requires next { AddsNext (records_of history.now.households household) household change.now }
    ensures { result ≡ first_double_use history.now.households household change.now }
{
    let mut first = None;
    for place in 0..history.households() {
        let pair = Pair {
            history,
            household,
            change,
            other: place + 1,
        };
        first = pair.sooner_rivalry(first);
    }
    first
}

/// The same, where the uses tell which households ever had a record in a unit: no other household is looked at.
pub fn double_use_by(
    history: &History,
    uses: &[Use],
    household: u32,
    change: &Change,
) -> Option<DoubleUse>
    requires next { AddsNext (records_of history.now.households household) household change.now }
    requires uses { TellUses history.now.households uses.now }
    ensures { result ≡ first_double_use history.now.households household change.now }
{
    let live = history.live_records(household);
    let first = first_by_records(history, uses, household, change, live);
    match &change.add {
        Some(added) => first_among(history, household, change, first, of_unit(uses, added.unit)),
        None => first,
    }
}

/// The first double use with a household that had a record in the unit of one of these records. Records of one unit mostly
/// follow each other: its uses are gone through for the first of them alone.
fn first_by_records(
    history: &History,
    uses: &[Use],
    household: u32,
    change: &Change,
    records: &[Record],
) -> Option<DoubleUse>
    requires { UnitsNeverFall uses.now }
    ensures { result ≡ fold (sooner_uses (is_rival_on history.now.households household change.now) 80354 uses.now) None records.now }
{
    let mut first = None;
    let mut unit = None;
    for held in records {
        if unit != Some(held.unit) {
            unit = Some(held.unit);
            first = first_among(history, household, change, first, of_unit(uses, held.unit));
        }
    }
    first
}

/// The first of the double use so far and of those with the households of the uses.
fn first_among(
    history: &History,
    household: u32,
    change: &Change,
    first: Option<DoubleUse>,
    uses: &[Use],
) -> Option<DoubleUse>
    ensures { result ≡ fold (sooner_use (is_rival_on history.now.households household change.now) 80354) first uses.now }
{
    let mut found = first;
    for used in uses {
        let pair = Pair {
            history,
            household,
            change,
            other: used.household,
        };
        found = pair.sooner_use(found);
    }
    found
}

/// A household after a change, and another.
#[derive(Clone, Copy)]
struct Pair<'a> {
    history: &'a History,
    household: u32,
    change: &'a Change,
    other: u32,
}

impl Pair<'_> {
    /// The other household and the first day on which it is a rival, where that comes before the day so far.
    fn sooner_rivalry(&self, first: Option<DoubleUse>) -> Option<DoubleUse>
        ensures { result ≡ sooner_rivalry (is_rival_on self.now.history.now.households self.now.household self.now.change.now) 80354 first self.now.other }
    {
        match self.first_day(end_of(&first)) {
            Some(day) => Some(self.use_on(day)),
            None => first,
        }
    }

    /// The same where households come in any order: on one day that of the lesser number comes first.
    fn sooner_use(&self, first: Option<DoubleUse>) -> Option<DoubleUse>
        ensures { result ≡ option_map_or (λ day. Some (use_on day self.now.other)) (first_day_before (end_beside first self.now.other 80354) (is_rival_on self.now.history.now.households self.now.household self.now.change.now self.now.other)) first }
    {
        match self.first_day(end_beside(&first, self.other)) {
            Some(day) => Some(self.use_on(day)),
            None => first,
        }
    }

    fn use_on(&self, day: Day) -> DoubleUse
        ensures { result ≡ use_on day self.now.other }
    {
        DoubleUse {
            household: self.other,
            day,
        }
    }

    /// The first day on which the other is a rival, of the days before the end.
    ///
    /// Whether it is one changes only on days on which a record of either begins that counts.
    fn first_day(&self, end: u32) -> Option<Day>
        ensures { result ≡ first_day_before end (is_rival_on self.now.history.now.households self.now.household self.now.change.now self.now.other) }
    {
        let own = self.history.live_records(self.household);
        let others = self.history.live_records(self.other);
        let first = self.first_beginning(end, None, own);
        let first = self.first_beginning(end, first, others);
        match &self.change.add {
            Some(added) => self.sooner_beginning(end, first, added),
            None => first,
        }
    }

    fn first_beginning(&self, end: u32, first: Option<Day>, records: &[Record]) -> Option<Day>
        ensures { result ≡ fold (sooner_beginning (is_rival_on self.now.history.now.households self.now.household self.now.change.now self.now.other) end) first records.now }
    {
        let mut first = first;
        for held in records {
            first = self.sooner_beginning(end, first, held);
        }
        first
    }

    fn sooner_beginning(&self, end: u32, first: Option<Day>, held: &Record) -> Option<Day>
        ensures { result ≡ sooner_beginning (is_rival_on self.now.history.now.households self.now.household self.now.change.now self.now.other) end first held.now }
    {
        let end = match first {
            Some(first) => first.number(),
            None => end,
        };
        let is_sooner = held.from.number() < end && self.is_rival_on(held.from);
        if is_sooner { Some(held.from) } else { first }
    }

    #[tactic(auto, unfolding(crate::specs::Occupancy::is_rival_on))]
    fn is_rival_on(&self, day: Day) -> bool
        ensures { result ≡ is_rival_on self.now.history.now.households self.now.household self.now.change.now self.now.other day }
    {
        self.other != self.household && self.have_one_unit_on(day)
    }

    fn have_one_unit_on(&self, day: Day) -> bool
        ensures { result ≡ have_one_unit_on (changed_records (records_of self.now.history.now.households self.now.household) self.now.change.now) (live_records (records_of self.now.history.now.households self.now.other)) day }
    {
        let own = changed_in_force(self.history, self.household, self.change, day);
        let others = self.history.in_force(self.other, day);
        is_one_unit(unit_kept(own), unit_kept(others))
    }
}

/// The number of the day before which an earlier double use would lie.
fn end_of(first: &Option<DoubleUse>) -> u32
    ensures { result ≡ option_map_or (λ found. found.day) first.now (last_office_day + 1) }
{
    match first {
        Some(found) => found.day.number(),
        None => DAYS,
    }
}

/// The number of the day before which a double use with the other household would come first.
fn end_beside(first: &Option<DoubleUse>, other: u32) -> u32
    ensures { result ≡ end_beside first.now other (last_office_day + 1) }
{
    match first {
        Some(found) => {
            if other < found.household {
                found.day.number() + 1
            } else {
                found.day.number()
            }
        }
        None => DAYS,
    }
}

/// The record in force on the day, after the change.
fn changed_in_force<'a>(
    history: &'a History,
    household: u32,
    change: &'a Change,
    day: Day,
) -> Option<&'a Record>
    ensures { option_copied result ≡ latest (filter (λ r. nat_le r.from day) (changed_records (records_of history.now.households household) change.now)) }
{
    // Records are numbered from 1, so each that comes before number 0 of the next day has begun by this one.
    latest_before(history, household, change, day.number() + 1, 0)
}

fn unit_kept(held: Option<&Record>) -> Option<u32>
    ensures { result ≡ option_and_then unit_kept (option_copied held.entry) }
{
    match held {
        Some(held) if held.kind != Kind::MO => Some(held.unit),
        _ => None,
    }
}

fn is_one_unit(unit: Option<u32>, other: Option<u32>) -> bool
    ensures { result ≡ is_one_unit unit other }
{
    unit.is_some() && unit == other
}
