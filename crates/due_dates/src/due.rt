//! Certifications whose first day is fixed.

use days_core::Day;
use record_history::Dates;

/// A certification whose first day follows from other days, each up to 2099-12-31.
#[derive(Clone, Copy, Debug, PartialEq, Eq)]
pub enum Due {
    /// An interim certification, after a change that the household told of.
    Interim {
        dates: Dates,
        /// Whether the total tenant payment is above that of the record in force on the day of the change.
        higher: bool,
        /// Within how many days a family reports a change, from 0 to 365.
        report_days: u32,
    },
    /// An annual recertification.
    Annual {
        /// The first day of the household's opening record, the first that counts.
        opening: Day,
        /// The first day of its last move-in, initial or annual certification that counts.
        after: Day,
    },
    /// Assistance that begins again after a termination.
    Resume {
        /// When the work on it was done.
        done: Day,
    },
}
