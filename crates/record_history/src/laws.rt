//! Laws of the record in force.

ghost use Rattle.std.specs.Prelude.{◌≤◌, ℕ, List, Contains};
ghost use Rattle.record_history.specs.declared.records.Record.{Record};
ghost use Rattle.record_history.specs.Records.{in_force, in_force_as_of};
ghost use Rattle.record_history.specs.Held.{AreNumbered};
ghost use Rattle.record_history.specs.Law.{IsOneInForce};

/// The record in force on a day is the one record held that withdraws nothing, that none held corrects or withdraws,
/// and that begins by the day, where no other such record begins later or on the same day with a greater number; and
/// there is none exactly where no record is such. As of an act the same holds of the records that acts up to that
/// one made. It does nothing.
pub fn one_record_is_in_force()
    ensures known { (records : List Record) (day : ℕ) → AreNumbered records →
        IsOneInForce (Contains records) day (in_force records day) }
    ensures as_of { (records : List Record) (act day : ℕ) → AreNumbered records →
        IsOneInForce (λ r. Contains records r × (r.act ≤ act)) day (in_force_as_of act records day) }
{}
