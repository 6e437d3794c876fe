//! What passes call for and ask of household 1.

ghost use Rattle.std.specs.Prelude.{◌≤◌};

use keeper_core::PlannedKeeper;
use office_core::office_answers::{Answer, Question, Reply};
use office_core::{Done, Made};
use sample_desks::{call_of, outcome_of};
use sample_office::{INTERIM, office_day};
use shared_desk::{AskOutcome, Naming, Pass, SharedDesk};
use std::alloc::Global;
use std::process::Abort;
use std::sync::Wait;

/// Has the pass call for the interim on a day, by that clerk, and looks what it is told, and at which point.
pub fn raise<B: Naming, R: Abort + Wait>(
    rt: &R,
    alloc: Global,
    desk: &SharedDesk<PlannedKeeper, B>,
    pass: &mut Pass<B>,
    clerk: u32,
    today: &str,
    wanted: (u32, Reply),
)
    requires { (1 ≤ clerk) × (clerk ≤ 9999) }
{
    let call = call_of(alloc, clerk, 50, INTERIM).expect(rt, "a call");
    let outcome = outcome_of(rt, alloc, desk, pass, today, call);
    assert!(rt; (outcome.point, outcome.reply) == wanted);
}

/// The number of the newest record of household 1 as the pass is told, and the point; and 0 where there is none.
pub fn newest<B: Naming, R: Abort + Wait>(
    rt: &R,
    alloc: Global,
    desk: &SharedDesk<PlannedKeeper, B>,
    pass: &mut Pass<B>,
) -> (u32, u32) {
    let AskOutcome { point, answer } = desk.ask(
        rt,
        alloc,
        pass,
        &Question::Household { household: 1 },
    );
    match answer {
        Ok(Answer::Household(summary)) => (summary.newest, point),
        _ => (0, point),
    }
}

/// The reply to the interim where it is the act of that number.
pub fn certified(act: u32) -> Reply {
    Reply::Accepted(Done {
        act,
        day: office_day("2024-02-01"),
        made: Made::Certified {
            assistance: 500,
            household: 1,
            target: 2,
            reimbursement: 0,
            tenant_rent: 200,
            ttp: 260,
        },
    })
}
