//! Stretches of days with one key.

ghost use Rattle.std.specs.Prelude.{◌≡◌, ◌≤◌, ◌+◌, ℕ, Decides, OnOk, OnErr};
ghost use Rattle.record_history.specs.Stretch.{stretches};

use plain_data::NoMemory;

/// Days one after another that have one key.
#[derive(Clone, Copy, Debug, PartialEq, Eq)]
pub struct Stretch<K> {
    pub first: u32,
    pub last: u32,
    pub key: K,
}

/// Adds the days from the first to the last, which have one key and follow those of the stretches: to the last stretch where
/// it has the same key, and else as a new one.
pub fn add_days<K: PartialEq + Copy>(
    days: &mut Vec<Stretch<K>>,
    first: u32,
    last: u32,
    key: K,
) -> Result<(), NoMemory>
    requires { first ≤ last }
    ensures ok { OnOk result ((key_on : ℕ → K) (start : ℕ) → ((a b : K) → Decides (K.eq a b) (a ≡ b)) → start ≤ first → ((day : ℕ) → first ≤ day → day ≤ last → key_on day ≡ key) → days.old.items ≡ stretches K.eq key_on start first → days.new.items ≡ stretches K.eq key_on start (last + 1)) }
    ensures err { OnErr result (days.new.items ≡ days.old.items) }
{
    if let Some(newest) = days.last_mut() {
        if newest.key == key {
            newest.last = last;
            return Ok(());
        }
    }
    days.push(Stretch { first, last, key })?;
    Ok(())
}
