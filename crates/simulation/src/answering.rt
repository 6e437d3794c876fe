//! The lines of acts, answered one after another.

ghost use Rattle.std.specs.Prelude.{◌≡◌, OnOk};
ghost use Rattle.batch_command.specs.Output.{batch_output, told_of};
ghost use Rattle.simulation.specs.Trial.{given_acts, given_of};

use batch_command::office_core::Office;
use batch_command::{Ending, answer_of_line};
use generator::{MadeAct, made_line};
use keeper_core::MemoryKeeper;
use plain_data::NoMemory;
use std::alloc::Global;

/// Has the office answer the lines of these acts, and drops the answers.
pub fn answer_acts(
    alloc: Global,
    office: &mut Office,
    keeper: &mut MemoryKeeper,
    acts: &[MadeAct],
) -> Result<(), NoMemory>
    requires { keeper.old ≡ office.old.book }
    ensures book { OnOk result (office.new.book ≡ (batch_output office.old.capacity office.old.book (given_acts acts.now)).book) }
    ensures capacity { office.new.capacity ≡ office.old.capacity }
{
    for (place, act) in acts.iter().enumerate() {
        answer_act(alloc, office, keeper, place as u64 + 1, act)?;
    }
    Ok(())
}

/// The same for one act, with the request of that number.
fn answer_act(
    alloc: Global,
    office: &mut Office,
    keeper: &mut MemoryKeeper,
    request: u64,
    act: &MadeAct,
) -> Result<(), NoMemory>
    requires { keeper.old ≡ office.old.book }
    ensures book { OnOk result (office.new.book ≡ (told_of office.old.capacity office.old.book (given_of (request, act.now))).book) }
    ensures capacity { office.new.capacity ≡ office.old.capacity }
    ensures kept { keeper.new ≡ office.new.book }
{
    let line = made_line(alloc, request, act)?;
    match answer_of_line(alloc, office, keeper, act.day, line.as_bytes()) {
        Ok(_) => Ok(()),
        Err(Ending::NoMemory) => Err(NoMemory),
        Err(_) => unreachable!(),
    }
}
