//! Laws of the rows that stand on a day, and of units found.

ghost use Rattle.std.specs.Prelude.{◌≡◌, ◌≢◌, ◌↔◌, ℕ, None, Some, List, All, Contains};
ghost use Rattle.days_core.specs.declared.rents.Rents.{Rents};
ghost use Rattle.rent_table.specs.declared.rows.Unit.{Unit as UnitRow};
ghost use Rattle.rent_table.specs.declared.rows.RentRow.{RentRow};
ghost use Rattle.rent_table.specs.declared.rows.LimitRow.{LimitRow};
ghost use Rattle.rent_table.specs.Table.{rents_on, limits_on, unit_at, unit_named};
ghost use Rattle.rent_table.specs.Table.{HaveOwnNumbers, HaveOwnNames, RentActsRise, LimitActsRise};
ghost use Rattle.rent_table.specs.Standing.{SetsRentsBy, SetsRentsOn, SetsLimitsBy, SetsLimitsOn};

/// The rents of a group on a day are those of the one row of the group that begins by the day, where none such begins
/// later or on the same day by a later act; and there are none exactly where there is no such row. It does nothing.
pub fn one_row_sets_rents()
    ensures rents { (rows : List RentRow) (group day : ℕ) (rents : Rents) → RentActsRise rows →
        ((rents_on rows group day ≡ Some rents) ↔ ((row : RentRow) × SetsRentsOn rows group day row × (row.rents ≡ rents))) }
    ensures none { (rows : List RentRow) (group day : ℕ) →
        ((rents_on rows group day ≡ None) ↔ ((row : RentRow) → ¬ SetsRentsBy rows group day row)) }
{}

/// The income limits on a day are the one row that begins by the day, where none such begins later or on the same day by
/// a later act; and there are none exactly where no row begins by the day. It does nothing.
pub fn one_row_sets_limits()
    ensures limits { (rows : List LimitRow) (day : ℕ) (row : LimitRow) → LimitActsRise rows →
        ((limits_on rows day ≡ Some row) ↔ SetsLimitsOn rows day row) }
    ensures none { (rows : List LimitRow) (day : ℕ) →
        ((limits_on rows day ≡ None) ↔ ((row : LimitRow) → ¬ SetsLimitsBy rows day row)) }
{}

/// A unit is found by a number or a name exactly where it is there and has it, among units that have numbers and
/// names of their own. It does nothing.
pub fn units_are_found()
    ensures number { (units : List UnitRow) (number : ℕ) (unit : UnitRow) → HaveOwnNumbers units →
        ((unit_at units number ≡ Some unit) ↔ (Contains units unit × (unit.number ≡ number))) }
    ensures no_number { (units : List UnitRow) (number : ℕ) →
        ((unit_at units number ≡ None) ↔ All (λ unit. unit.number ≢ number) units) }
    ensures name { (units : List UnitRow) (name : List ℕ) (number : ℕ) → HaveOwnNames units →
        ((unit_named units name ≡ Some number) ↔ ((unit : UnitRow) × Contains units unit × (unit.name ≡ name) × (unit.number ≡ number))) }
    ensures no_name { (units : List UnitRow) (name : List ℕ) →
        ((unit_named units name ≡ None) ↔ All (λ unit. unit.name ≢ name) units) }
{}
