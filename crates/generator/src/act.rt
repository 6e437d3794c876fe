//! An act of the made office.

ghost use Rattle.std.specs.Prelude.{◌≡◌, ◌++◌, ◌∷◌, [], OnOk};

use book_rows::Command;
use days_core::Day;
use plain_data::NoMemory;

/// What the clerk asks, and the day on which it is asked.
pub struct MadeAct {
    pub day: Day,
    pub command: Command,
}

// By hand, so that an act goes out of use by one call, and no other proof has a case for each kind of command.
impl Drop for MadeAct {
    fn drop(self) {
        let MadeAct { day: _, command } = self;
        command.let_go();
    }
}

/// Adds an act at the end.
pub fn ask(acts: &mut Vec<MadeAct>, day: Day, command: Command) -> Result<(), NoMemory>
    ensures { OnOk result (acts.new.items ≡ acts.old.items ++ record { day = day; command = command } ∷ []) }
{
    acts.push(MadeAct { day, command })?;
    Ok(())
}
