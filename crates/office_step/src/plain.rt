//! The laws of the tests, by their numbers, and of what a reply tells.

ghost use Rattle.office_step.specs.plain.Planned.{NoPlanIsPlain, PlanGivenIsPlain, BookFullIsPlain};
ghost use Rattle.office_step.specs.plain.Named.{NoSuchIsPlain};
ghost use Rattle.office_step.specs.plain.Seen.{StaleIsPlain, UnseenIsPlain};
ghost use Rattle.office_step.specs.plain.Facts.{FactsRuleIsPlain};
ghost use Rattle.office_step.specs.plain.Days.{DayRangeIsPlain};
ghost use Rattle.office_step.specs.plain.Standing.{NoRentIsPlain, NoLimitsIsPlain, NotLiveIsPlain};
ghost use Rattle.office_step.specs.plain.Rightful.{WrongDayIsPlain};
ghost use Rattle.office_step.specs.plain.Tenancy.{DisorderIsPlain, UnitTakenIsPlain};
ghost use Rattle.office_step.specs.plain.Units.{NameTakenIsPlain, SizeMisfitIsPlain};
ghost use Rattle.office_step.specs.plain.Turns.{NotNextIsPlain};
ghost use Rattle.office_step.specs.plain.Admitted.{IneligibleIsPlain, NoAssistanceIsPlain};
ghost use Rattle.office_step.specs.plain.Months.{WrongMonthIsPlain};
ghost use Rattle.office_step.specs.plain.Closing.{RentDueIsPlain, OverdueIsPlain};
ghost use Rattle.office_step.specs.plain.Acceptance.{RefusalIsPlain, AcceptanceIsPlain};
ghost use Rattle.office_step.specs.plain.Replies.{CertifiedIsPlain};

/// 2: an act comes before the plan. It does nothing.
pub fn no_plan_is_plain()
    ensures { NoPlanIsPlain }
{}

/// 3: an act is a second plan. It does nothing.
pub fn plan_given_is_plain()
    ensures { PlanGivenIsPlain }
{}

/// 4: the book has no room. It does nothing.
pub fn book_full_is_plain()
    ensures { BookFullIsPlain }
{}

/// 5: an act names what isn't there. It does nothing.
pub fn no_such_is_plain()
    ensures { NoSuchIsPlain }
{}

/// 6: the clerk missed a newer record. It does nothing.
pub fn stale_is_plain()
    ensures { StaleIsPlain }
{}

/// 7: the clerk saw a record that isn't there. It does nothing.
pub fn unseen_is_plain()
    ensures { UnseenIsPlain }
{}

/// 8: facts break a rule. It does nothing.
pub fn facts_rule_is_plain()
    ensures { FactsRuleIsPlain }
{}

/// 9: a day lies outside its range. It does nothing.
pub fn day_range_is_plain()
    ensures { DayRangeIsPlain }
{}

/// 10: a unit has no rents on a day. It does nothing.
pub fn no_rent_is_plain()
    ensures { NoRentIsPlain }
{}

/// 11: no limits stand on a day. It does nothing.
pub fn no_limits_is_plain()
    ensures { NoLimitsIsPlain }
{}

/// 12: a record doesn't count. It does nothing.
pub fn not_live_is_plain()
    ensures { NotLiveIsPlain }
{}

/// 13: a record doesn't begin on its rightful day. It does nothing.
pub fn wrong_day_is_plain()
    ensures { WrongDayIsPlain }
{}

/// 14: records would be out of place. It does nothing.
pub fn disorder_is_plain()
    ensures { DisorderIsPlain }
{}

/// 15: a unit has the name already. It does nothing.
pub fn name_taken_is_plain()
    ensures { NameTakenIsPlain }
{}

/// 16: a unit is for more or for fewer persons. It does nothing.
pub fn size_misfit_is_plain()
    ensures { SizeMisfitIsPlain }
{}

/// 17: another household has the unit. It does nothing.
pub fn unit_taken_is_plain()
    ensures { UnitTakenIsPlain }
{}

/// 18: somebody else is next for the unit. It does nothing.
pub fn not_next_is_plain()
    ensures { NotNextIsPlain }
{}

/// 19: an income is above the limit. It does nothing.
pub fn ineligible_is_plain()
    ensures { IneligibleIsPlain }
{}

/// 20: there is nothing to assist. It does nothing.
pub fn no_assistance_is_plain()
    ensures { NoAssistanceIsPlain }
{}

/// 21: a month isn't the next to close. It does nothing.
pub fn wrong_month_is_plain()
    ensures { WrongMonthIsPlain }
{}

/// 22: rents are old. It does nothing.
pub fn rent_due_is_plain()
    ensures { RentDueIsPlain }
{}

/// 23: an annual is missing. It does nothing.
pub fn overdue_is_plain()
    ensures { OverdueIsPlain }
{}

/// None of the tests refuses exactly where no cause stands, and the refusal that is told stands. It does nothing.
pub fn refusal_is_plain()
    ensures { RefusalIsPlain }
{}

/// A new call whose lines fit is accepted exactly where no cause stands against it. It does nothing.
pub fn acceptance_is_plain()
    ensures { AcceptanceIsPlain }
{}

/// The reply tells what the record certifies: tenant rent and assistance come to the contract rent and the reimbursement,
/// of which a family that pays rent gets none. It does nothing.
pub fn certified_is_plain()
    ensures { CertifiedIsPlain }
{}
