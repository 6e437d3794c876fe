//! Laws by which the office finds at once what a definition searches for.

ghost use Rattle.office_laws.specs.AtHand.{NewRequests, RepeatedRequests, ReusedRequests, NewReplies, UnitReplies, ApplicantReplies, ApplicationsRise, LastDayIsLived, NextDayIsLived, NextDayStays, LinesStandInOrder, LinesNameHouseholds, NextRecords, ActsAreWithinRoom, LinesAreWithinRoom};

/// One act at most is of a clerk and request, so that finding it says whether a call repeats it or uses its request
/// again. It does nothing.
pub fn requests_are_once()
    ensures new { NewRequests }
    ensures repeated { RepeatedRequests }
    ensures reused { ReusedRequests }
{}

/// The reply to a new act, by what was known before it and by its rows. It does nothing.
pub fn new_replies()
    ensures { NewReplies }
{}

/// The reply to an act that made a unit, by the unit's name. It does nothing.
pub fn unit_replies()
    ensures { UnitReplies }
{}

/// The reply to an act by which somebody applied, by the acts of the applications. It does nothing.
pub fn applicant_replies()
    ensures count { ApplicantReplies }
    ensures rise { ApplicationsRise }
{}

/// No act is of a later day than 2099-12-31, nor is the next one, and that day is its own. It does nothing.
pub fn days_are_lived()
    ensures last { LastDayIsLived }
    ensures next { NextDayIsLived }
    ensures stays { NextDayStays }
{}

/// The lines of a book stand by closing, month and household, whose numbers are no greater than there are acts. It does
/// nothing.
pub fn lines_stand_in_order()
    ensures order { LinesStandInOrder }
    ensures households { LinesNameHouseholds }
{}

/// The record of an act that isn't refused is of a household that is there, or of the one that comes next. It does
/// nothing.
pub fn next_records()
    ensures { NextRecords }
{}

/// A book holds no more than an office's largest capacity: 100,000 acts and 4,000,000 lines. It does nothing.
pub fn within_room()
    ensures acts { ActsAreWithinRoom }
    ensures lines { LinesAreWithinRoom }
{}
