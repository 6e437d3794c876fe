//! Laws of closings and their lines.

ghost use Rattle.voucher_core.specs.Law.{ClosingSettles, NothingIsSettled, SettledPaysNoOther, CertifiedStays, SettledStays, PaidIsTheSum};
ghost use Rattle.voucher_core.specs.Naming.{LinesNameTheirPairs, ChangesAreLongest, NumberTellsAssistance};
ghost use Rattle.voucher_core.specs.EachRun.{LinesTellEachRun};

/// The law of one closing: with its lines, each household has been paid what it is certified for. It does nothing.
pub fn one_closing_settles()
    ensures begins { NothingIsSettled }
    ensures settles { ClosingSettles }
    ensures elsewhere { SettledPaysNoOther }
{}

/// Later acts leave what was certified as of an act, and so what is settled as of it. It does nothing.
pub fn certified_stays()
    ensures certified { CertifiedStays }
    ensures settled { SettledStays }
{}

/// Each line of a closing names its records on each of its days, and none is for 0. The days of the lines are of the
/// longest runs with one pair of records. It does nothing.
pub fn lines_name_their_pairs()
    ensures named { LinesNameTheirPairs }
    ensures longest { ChangesAreLongest }
{}

/// The lines of a closing tell each longest run of days with one pair of records that isn't for 0, once and in order. It
/// does nothing.
pub fn lines_tell_each_run()
    ensures { LinesTellEachRun }
{}

/// The number of a record in force tells its assistance. It does nothing.
pub fn number_tells_assistance()
    ensures { NumberTellsAssistance }
{}

/// What lines pay for a household and month is the sum of the amounts of those that are for both. It does nothing.
pub fn paid_is_the_sum()
    ensures { PaidIsTheSum }
{}
