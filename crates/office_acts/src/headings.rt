//! What the record of an act says beside its figures.

ghost use Rattle.std.specs.Prelude.{◌≡◌, ◌≤◌, IfSome};
ghost use Rattle.admission_order.specs.Below.office_step.Matter.{household_of, begins_on};
ghost use Rattle.admission_order.specs.Below.office_step.Made.{heading_in, own_heading, heading_over};
ghost use Rattle.admission_order.specs.Below.office_register.Registered.{HasDates};
ghost use Rattle.office_acts.specs.Judged.{IsInTime, IsReady, AreKept};
ghost use Rattle.office_acts.specs.Matter.{matter_by};

use crate::lookups::{target_in, unit_continued};
use crate::matter::Matter;
use admission_order::office_step::Heading;
use days_core::Day;
use record_history::{Dates, Kind, Record};

/// The heading of the record that comes of it, if one does.
pub fn heading_in(about: &Matter) -> Option<Heading>
    requires in_time { IsInTime (matter_by about.now) }
    requires facts { AreKept (matter_by about.now).basis (begins_on (matter_by about.now)) }
    ensures value { result ≡ heading_in (matter_by about.now) }
    ensures ready { IfSome result (IsReady (matter_by about.now).basis) }
{
    match about.target {
        None => Some(own_heading(about, about.kind?)),
        Some(target) => Some(heading_over(about, target_in(about, target)?)),
    }
}

/// Of a record of its own kind.
fn own_heading(about: &Matter, kind: Kind) -> Heading
    requires { IsInTime (matter_by about.now) }
    ensures { result ≡ own_heading (matter_by about.now) kind }
{
    let household = about.household();
    let from = about.begins_on();
    Heading {
        household,
        kind,
        from,
        corrects: 0,
        unit: match about.unit {
            Some(unit) => unit,
            None => unit_continued(about.register, household, from),
        },
        dates: about.told,
    }
}

/// Of a record that corrects another or withdraws it.
fn heading_over(about: &Matter, target: &Record) -> Heading
    requires { IsInTime (matter_by about.now) }
    ensures { result ≡ heading_over (matter_by about.now) target.now }
{
    let household = about.household();
    if about.certifies() {
        Heading {
            household,
            kind: target.kind,
            from: about.begins_on(),
            corrects: target.number,
            unit: target.unit,
            dates: target.dates,
        }
    } else {
        Heading {
            household,
            kind: Kind::WD,
            from: target.from,
            corrects: target.number,
            unit: 0,
            dates: None,
        }
    }
}
