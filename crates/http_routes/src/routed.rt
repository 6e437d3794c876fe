//! Where a message leads.

ghost use Rattle.std.specs.Prelude.{◌≡◌};
ghost use Rattle.http_routes.specs.Asks.{name_of};

use questions::Question;

/// Where a method and a target lead.
#[derive(Clone, Copy, Debug)]
pub enum Routed {
    /// To the acts: the body says which.
    Act,
    Question(Question),
    /// No route fits the target.
    NoRoute,
    /// The route has another method.
    NoMethod,
    /// The first part of the target that is no number, day or month where its route has one.
    BadPart(ValuePart),
}

/// A part of a target that says a value.
#[derive(Clone, Copy, Debug, PartialEq, Eq)]
pub enum ValuePart {
    Household,
    Record,
    Unit,
    Day,
    Month,
}

impl ValuePart {
    /// The name that its routes give it.
    pub fn name(self) -> &'static str
        ensures { result.now ≡ name_of self }
    {
        match self {
            ValuePart::Household => "{h}",
            ValuePart::Record => "{r}",
            ValuePart::Unit => "{u}",
            ValuePart::Day => "{day}",
            ValuePart::Month => "{month}",
        }
    }
}
