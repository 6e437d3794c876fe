//! Who would move to a unit, who of them comes first, and which admissions count.

ghost use Rattle.office_laws.specs.Movers.{MoversArePlain, AskedIsPlain};
ghost use Rattle.office_laws.specs.Targets.{TargetsAreCounted};

/// The movers to a unit on a day are just the households of which the plain facts hold; and an office asks for the first of
/// those in need of features that the unit has, for the first of the others, and by the limits that stand. It does nothing.
pub fn movers_are_plain()
    ensures movers { MoversArePlain }
    ensures asked { AskedIsPlain }
{}

/// The admissions that an office counts against its target are just the move-ins of the fiscal year that count, each once.
/// It does nothing.
pub fn targets_are_counted()
    ensures { TargetsAreCounted }
{}
