//! Where a route leads.

use questions::QuestionKind;

/// Where a route leads.
#[derive(Clone, Copy, Debug)]
pub(crate) enum Place {
    Acts,
    Question(QuestionKind),
}
