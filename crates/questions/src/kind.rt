//! Which question it is.

/// Which of the seven questions it is, in their order.
#[derive(Clone, Copy, Debug, PartialEq, Eq)]
pub enum QuestionKind {
    Household,
    Record,
    Next,
    Voucher,
    Paid,
    Due,
    Targets,
}
