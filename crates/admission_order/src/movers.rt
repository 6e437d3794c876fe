//! The households that would move to a unit.

ghost use Rattle.std.specs.Prelude.{◌≡◌, ◌≤◌, nat_lt, true, false, if◌then◌else◌, filter, fold, option_copied, option_to_list};
ghost use Rattle.std.specs.Option.{option_map_or};
ghost use Rattle.row_choice.specs.Latest.{later};
ghost use Rattle.record_history.specs.Held.{records_of};
ghost use Rattle.due_dates.specs.Stale.{ends_assistance};
ghost use Rattle.office_register.specs.Below.office_step.Candidates.{newest_transfer, counts, would_move, would_move_on, request_in, mover_of, movers_of, first_mover};
ghost use Rattle.admission_order.specs.Turns.{came_first, newer, is_turn, first_of_movers};

use days_core::Day;
use office_register::office_step::{Mover, Request};
use record_history::{Dates, History, Kind, Record, is_live};
use rent_table::{Plan, Unit, suits};

/// A unit that is free from a day on, and what households say of other units.
#[derive(Clone, Copy)]
pub struct Vacancy<'a> {
    pub plan: &'a Plan,
    /// Of at most 5 bedrooms.
    pub unit: &'a Unit,
    pub day: Day,
    pub history: &'a History,
    pub requests: &'a [Option<Request>],
}

/// The household whose turn it is: of those who need the accessible features of the unit, or of the others.
pub fn first_mover(vacancy: &Vacancy, needing: bool) -> Option<u32>
    requires { vacancy.now.unit.now.bedrooms ≤ 5 }
    ensures { result ≡ first_mover (filter (is_turn vacancy.now.unit.now needing) (movers_of vacancy.now.plan.now vacancy.now.unit.now vacancy.now.day vacancy.now.requests.now vacancy.now.history.now.households)) }
{
    first_of_movers(vacancy, needing).map(|mover| mover.household)
}

fn first_of_movers(vacancy: &Vacancy, needing: bool) -> Option<Mover>
    requires { vacancy.now.unit.now.bedrooms ≤ 5 }
    ensures { result ≡ first_of_movers (filter (is_turn vacancy.now.unit.now needing) (movers_of vacancy.now.plan.now vacancy.now.unit.now vacancy.now.day vacancy.now.requests.now vacancy.now.history.now.households)) }
{
    let mut first = None;
    for place in 0..vacancy.history.households() {
        let mover = mover_of(vacancy, place + 1);
        first = sooner(first, mover, vacancy.unit, needing);
    }
    first
}

/// The first of the mover so far and another, where it is the other's turn.
fn sooner(first: Option<Mover>, mover: Option<Mover>, unit: &Unit, needing: bool) -> Option<Mover>
    ensures { result ≡ fold (later came_first) first (filter (is_turn unit.now needing) (option_to_list mover)) }
{
    match mover {
        Some(mover) if is_turn(unit, needing, mover) => Some(first_of_two(first, mover)),
        _ => first,
    }
}

fn first_of_two(first: Option<Mover>, mover: Mover) -> Mover
    ensures { result ≡ option_map_or (λ best. if nat_lt mover.act best.act then mover else best) first mover }
{
    match first {
        Some(best) if best.act <= mover.act => best,
        _ => mover,
    }
}

fn is_turn(unit: &Unit, needing: bool, mover: Mover) -> bool
    ensures { result ≡ is_turn unit.now needing mover }
{
    if needing {
        unit.accessible && mover.accessible
    } else {
        !(unit.accessible && mover.accessible)
    }
}

/// The household as a mover, where it is one.
fn mover_of(vacancy: &Vacancy, household: u32) -> Option<Mover>
    requires { vacancy.now.unit.now.bedrooms ≤ 5 }
    ensures { result ≡ mover_of vacancy.now.plan.now vacancy.now.unit.now vacancy.now.day vacancy.now.requests.now vacancy.now.history.now.households household }
{
    let request = request_in(vacancy.requests, household)?;
    if counts(vacancy.history.records(household), request) && would_move_on(vacancy, household) {
        Some(Mover {
            household,
            act: request.act,
            accessible: request.accessible,
        })
    } else {
        None
    }
}

fn request_in(requests: &[Option<Request>], household: u32) -> Option<Request>
    ensures { result ≡ request_in requests.now household }
{
    if household == 0 {
        return None;
    }
    match requests.get(household as usize - 1) {
        Some(request) => *request,
        None => None,
    }
}

/// Whether the household wants another unit, and wanted it after its last transfer that counts.
fn counts(records: &[Record], request: Request) -> bool
    ensures { result ≡ counts records.now request }
{
    request.wanted && follows(newest_transfer(records), request.act)
}

fn follows(newest: Option<&Record>, act: u32) -> bool
    ensures { result ≡ option_map_or (λ r. nat_lt r.act act) (option_copied newest.entry) true }
{
    match newest {
        Some(held) => held.act < act,
        None => true,
    }
}

/// The transfer that counts with the greatest number.
fn newest_transfer(records: &[Record]) -> Option<&Record>
    ensures { option_copied result ≡ newest_transfer records.now }
{
    let mut newest = None;
    for held in records {
        if is_live(records, held) && held.kind == Kind::UT {
            newest = newer(newest, held);
        }
    }
    newest
}

fn newer<'a>(newest: Option<&'a Record>, held: &'a Record) -> Option<&'a Record>
    ensures { option_copied result ≡ later newer (option_copied newest.entry) held.now }
{
    match newest {
        Some(best) if held.number <= best.number => Some(best),
        _ => Some(held),
    }
}

fn would_move_on(vacancy: &Vacancy, household: u32) -> bool
    requires { vacancy.now.unit.now.bedrooms ≤ 5 }
    ensures { result ≡ would_move_on vacancy.now.plan.now vacancy.now.unit.now vacancy.now.day (records_of vacancy.now.history.now.households household) }
{
    match vacancy.history.in_force(household, vacancy.day) {
        Some(held) => would_move(vacancy.plan, vacancy.unit, held),
        None => false,
    }
}

/// Whether the household has assistance in another unit, and this one is for so many persons.
fn would_move(plan: &Plan, unit: &Unit, held: &Record) -> bool
    requires { unit.now.bedrooms ≤ 5 }
    ensures { result ≡ would_move plan.now unit.now held.now }
{
    !ends_assistance(held.kind) && held.unit != unit.number && suits(plan, unit, held.persons)
}

fn ends_assistance(kind: Kind) -> bool
    ensures { result ≡ ends_assistance kind }
{
    match kind {
        Kind::MO | Kind::TM => true,
        Kind::MI | Kind::IC | Kind::AR | Kind::IR | Kind::GR | Kind::UT | Kind::WD => false,
    }
}
