//! The act that closes a month.

use days_core::Month;

/// Closes a month.
#[derive(Clone, Copy, Debug, PartialEq, Eq)]
pub struct CloseAct {
    pub month: Month,
}
