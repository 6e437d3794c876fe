//! Acts that are asked for each unit, or for the household in it.

ghost use Rattle.std.specs.Prelude.{◌≡◌, ◌++◌, OnOk, map};

use crate::MadeAct;
use plain_data::NoMemory;
use std::alloc::Global;

/// An act for a unit, by the unit's number.
pub trait PerUnit {
    ghost use Rattle.std.specs.Prelude.{◌≡◌, ℕ, IfOk};
    ghost use Rattle.generator.specs.declared.act.MadeAct.{MadeAct as MadeRow};

    /// The act that is asked.
    ghost asked: { Self → ℕ → MadeRow };

    fn act(&self, alloc: Global, number: u16) -> Result<MadeAct, NoMemory>
        ensures { IfOk result (λ act. act ≡ asked self.now number) };
}

/// Asks it for each of these units, in order.
pub fn ask_each<A: PerUnit>(
    alloc: Global,
    acts: &mut Vec<MadeAct>,
    numbers: &[u16],
    each: &A,
) -> Result<(), NoMemory>
    ensures { OnOk result (acts.new.items ≡ acts.old.items ++ map (A.asked each.now) numbers.now) }
{
    for number in numbers {
        acts.push(each.act(alloc, *number)?)?;
    }
    Ok(())
}
