//! Laws of order and of who has a unit.

ghost use Rattle.std.specs.Prelude.{◌≡◌, ◌<◌, ◌+◌};
ghost use Rattle.record_history.specs.{Held.records_of, Records.newest_number};
ghost use Rattle.tenancy_rules.specs.Law.{NoUnitHasTwo, DoubleUseHasTwo, ChangeIsWhatLives};
ghost use Rattle.tenancy_rules.specs.OrderLaw.{OrderIsPlain, MoveOutIsLast, FaultIsFirst};
ghost use Rattle.tenancy_rules.specs.UseLaw.{OccupancyIsPlain, DoubleUseIsFirst, NoDoubleUse};

use record_history::{History, Record};

/// What it comes to that no record is out of order, and that one is the first that is, in plain facts. It does nothing.
pub fn order_is_plain()
    ensures none { OrderIsPlain }
    ensures move_out { MoveOutIsLast }
    ensures fault { FaultIsFirst }
{}

/// Where no double use is found there is none on any day through 2099-12-31, and one that is found is one. It does
/// nothing.
pub fn no_unit_has_two()
    ensures none { NoUnitHasTwo }
    ensures found { DoubleUseHasTwo }
{}

/// Which unit a household has on a day, in plain facts. It does nothing.
pub fn occupancy_is_plain()
    ensures { OccupancyIsPlain }
{}

/// The double use that is found is the first, and of those of its day the one with the least household. It does nothing.
pub fn double_use_is_first()
    ensures found { DoubleUseIsFirst }
    ensures none { NoDoubleUse }
{}

/// The records that are judged are those that live once the added one is held, which is the next of its household and
/// corrects or withdraws an earlier one or none. It does nothing.
pub fn change_is_what_lives(history: &History, held: &Record)
    requires number { held.now.number ≡ newest_number (records_of history.now.households held.now.household) + 1 }
    requires earlier { held.now.corrects < held.now.number }
    ensures { ChangeIsWhatLives (records_of history.now.households held.now.household) held.now }
{
    let _records = history.records(held.household);
}
