//! Which households ever had a record in a unit.

ghost use Rattle.std.specs.Prelude.{◌≡◌, ◌<◌, ◌≤◌, true, false, nat_le, nat_lt, length, All, Contains, vec_len, vec_capacity};
ghost use Rattle.std.specs.List.Sorted.{IsPartitionPoint};
ghost use Rattle.tenancy_rules.specs.Uses.{UnitsNeverFall, of_unit};

/// A household that had a record in a unit, whether or not it counts.
#[derive(Clone, Copy, Debug, PartialEq, Eq)]
pub struct Use {
    pub unit: u32,
    pub household: u32,
}

// Where the uses begin that are of no lesser unit.
fn first_from(uses: &[Use], unit: u32) -> usize
    requires { UnitsNeverFall uses.now }
    ensures bound { result ≤ length uses.now }
    ensures point { IsPartitionPoint (λ used. nat_lt used.unit unit ≡ true) (λ used. nat_lt used.unit unit ≡ false) uses.now result }
{
    uses.partition_point(|used| used.unit < unit)
}

// Where the uses begin that are of a greater unit.
fn first_above(uses: &[Use], unit: u32) -> usize
    requires { UnitsNeverFall uses.now }
    ensures bound { result ≤ length uses.now }
    ensures point { IsPartitionPoint (λ used. nat_le used.unit unit ≡ true) (λ used. nat_le used.unit unit ≡ false) uses.now result }
{
    uses.partition_point(|used| used.unit <= unit)
}

/// Those of the unit, of uses in the order of units.
pub fn of_unit(uses: &[Use], unit: u32) -> &[Use]
    requires { UnitsNeverFall uses.now }
    ensures { result.now ≡ of_unit uses.now unit }
{
    let first = first_from(uses, unit);
    let end = first_above(uses, unit);
    &uses[first..end]
}

fn is_told(uses: &[Use], used: Use) -> bool
    requires { UnitsNeverFall uses.now }
    ensures { result ≡ true → Contains uses.now used }
{
    of_unit(uses, used.unit).contains(&used)
}

/// Tells one more use, unless it is told already. It takes no memory.
pub fn tell(uses: &mut Vec<Use>, used: Use)
    requires room { vec_len uses.old < vec_capacity uses.old }
    requires in_order { UnitsNeverFall uses.old.items }
    ensures in_order { UnitsNeverFall uses.new.items }
    ensures kept { All (Contains uses.new.items) uses.old.items }
    ensures told { Contains uses.new.items used }
{
    if is_told(uses, used) {
        return;
    }
    let at = first_above(uses, used.unit);
    let _ = uses.insert(at, used);
}
