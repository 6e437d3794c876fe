//! The law that shares total their part.

ghost use Rattle.share_rules.specs.Law.{SharesTotalTheirPart, NoShareIsAboveTheAmount};

/// The shares of the days up to any one are the amount's part in proportion, to the nearest dollar. It does nothing.
pub fn shares_total_their_part()
    ensures total { SharesTotalTheirPart }
    ensures within { NoShareIsAboveTheAmount }
{}
