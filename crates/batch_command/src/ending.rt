//! How a batch may end.

use plain_data::NoMemory;

/// How a batch ended.
#[derive(Clone, Copy, Debug, PartialEq, Eq)]
pub enum Ending {
    /// Each line of the input was answered.
    Done,
    /// A line has more than 16,384 bytes, or there are more than 200,000 lines. Those before were answered.
    TooLong,
    /// The source failed. The lines whose end was read before were answered.
    ReadFault,
    /// The sink failed within an answer.
    WriteFault,
    /// The keeper failed, and the act wasn't kept. The lines before were answered.
    StoreFault,
    /// Memory ran out.
    NoMemory,
}

impl From<NoMemory> for Ending {
    ghost use Rattle.std.specs.Prelude.{◌≡◌};
    ghost use Rattle.batch_command.specs.declared.ending.Ending.TheVariants as ending;

    ghost from_gives = { λ _ end. end ≡ ending.NoMemory };

    fn from(_error: NoMemory) -> Ending {
        Ending::NoMemory
    }
}
