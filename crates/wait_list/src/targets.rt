//! Targets of a fiscal year.

ghost use Rattle.std.specs.Prelude.{◌≡◌};
ghost use Rattle.wait_list.specs.Target.{wants_extremely_low};

/// How far an office is with its admissions of a fiscal year.
#[derive(Clone, Copy, Debug, PartialEq, Eq)]
pub struct Targets {
    /// Which of the two methods of income targeting it follows, 1 or 2.
    pub method: u32,
    /// How many admissions it expects in a year.
    pub expected: u32,
    /// How many families it admitted.
    pub admitted: u32,
    /// How many of them had extremely low income.
    pub extremely: u32,
}

/// Whether the next admission is to be of an extremely low-income family, 40 percent of whom are the aim (24 CFR 5.653).
pub fn wants_extremely_low(targets: &Targets) -> bool
    ensures { result ≡ wants_extremely_low targets.now }
{
    10 * u64::from(targets.extremely) < 4 * u64::from(targets.expected)
        && (targets.method == 1 || targets.method == 2 && targets.admitted % 2 == 0)
}
