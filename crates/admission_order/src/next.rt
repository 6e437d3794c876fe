//! Who is next for a unit, by the waiting list, the requests and the year's admissions.

ghost use Rattle.std.specs.Prelude.{◌≡◌, ◌≤◌, false, if◌then◌else◌, None, filter};
ghost use Rattle.rent_table.specs.Table.{limits_on};
ghost use Rattle.wait_list.specs.Next.{next_candidate};
ghost use Rattle.wait_list.specs.Target.{wants_extremely_low};
ghost use Rattle.office_register.specs.Below.office_step.Candidates.{asked_of, targets_of, in_need, first_mover, movers_of};

use crate::admissions::targets;
use crate::movers::{Vacancy, first_mover};
use days_core::Day;
use office_register::Register;
use rent_table::{Plan, Unit};
use wait_list::{Ask, Candidate, wants_extremely_low};

/// Who is next for the unit on the day, and None where nobody is.
pub fn next_for(register: &Register, plan: &Plan, unit: &Unit, day: Day) -> Option<Candidate>
    requires { unit.now.bedrooms ≤ 5 }
    ensures { result ≡ next_candidate (asked_of plan.now unit.now day (limits_on register.now.known.limits day) register.now.known.requests register.now.known.households) register.now.known.waiting }
{
    let vacancy = Vacancy {
        plan,
        unit,
        day,
        history: register.history(),
        requests: register.requests(),
    };
    let needing = needing_mover(&vacancy);
    let other = first_mover(&vacancy, false);
    let first = next_if(register, &vacancy, needing, other, false);
    let extremely_low = next_if(register, &vacancy, needing, other, true);
    by_targets(register, plan, day, first, extremely_low)
}

/// Who is next for the unit of the vacancy, if an extremely low-income family is wanted or isn't, where these households
/// would move there.
fn next_if(
    register: &Register,
    vacancy: &Vacancy,
    needing: Option<u32>,
    other: Option<u32>,
    wanted: bool,
) -> Option<Candidate>
    requires bedrooms { vacancy.now.unit.now.bedrooms ≤ 5 }
    ensures { result ≡ next_candidate (record { unit = vacancy.now.unit.now; plan = vacancy.now.plan.now; limits = limits_on register.now.known.limits vacancy.now.day; wanted = wanted; needing = needing; other = other }) register.now.known.waiting }
{
    register.list().next_for(&Ask {
        unit: vacancy.unit,
        plan: vacancy.plan,
        limits: register.table().limits_on(vacancy.day),
        wanted,
        needing,
        other,
    })
}

/// Of two who would be next the one that the admissions of the year want. They are counted only where they decide.
fn by_targets(
    register: &Register,
    plan: &Plan,
    day: Day,
    first: Option<Candidate>,
    extremely_low: Option<Candidate>,
) -> Option<Candidate>
    ensures { result ≡ (if wants_extremely_low (targets_of plan.now day register.now.known.households) then extremely_low else first) }
{
    if first == extremely_low {
        return first;
    }
    if wants_extremely_low(&targets(register, plan, day)) {
        extremely_low
    } else {
        first
    }
}

/// The first mover who needs accessible features that the unit has.
#[tactic(auto, using(crate::proofs::Turn::none_in_need))]
fn needing_mover(vacancy: &Vacancy) -> Option<u32>
    requires { vacancy.now.unit.now.bedrooms ≤ 5 }
    ensures { result ≡ first_mover (filter (in_need vacancy.now.unit.now) (movers_of vacancy.now.plan.now vacancy.now.unit.now vacancy.now.day vacancy.now.requests.now vacancy.now.history.now.households)) }
{
    if vacancy.unit.accessible {
        first_mover(vacancy, true)
    } else {
        None
    }
}
