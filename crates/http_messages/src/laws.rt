//! Laws of how messages are cut.

ghost use Rattle.http_messages.specs.Cutting.{CutInOneWay, SettledByTheFront};

/// The messages of some bytes and the kind of their end are a function of the bytes, however they were read.
pub fn cut_in_one_way()
    ensures { CutInOneWay }
{}

/// Bytes that follow change neither a message nor a refusal.
pub fn settled_by_the_front()
    ensures { SettledByTheFront }
{}
