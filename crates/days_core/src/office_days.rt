//! The days and months that an office knows.

ghost use Rattle.std.specs.Prelude.{◌≡◌, ◌+◌, ◌-◌, ◌*◌};
ghost use Rattle.days_core.specs.Calendar.{day_number};
ghost use Rattle.days_core.specs.OfficeDays.{first_office_day, first_office_month, last_office_day, last_office_month};

/// The numbers of 2000-01-01 and 2099-12-31, the first and the last day that an office knows (own rule).
pub const FIRST_OFFICE_DAY: u32 = 43_829;

pub const LAST_OFFICE_DAY: u32 = 80_353;

/// The numbers of 2000-01 and 2099-12, the first and the last month that an office closes (own rule).
pub const FIRST_OFFICE_MONTH: u32 = 1_440;

pub const LAST_OFFICE_MONTH: u32 = 2_639;

/// The days that an office knows lie from 2000-01-01 to 2099-12-31, and its months from 2000-01 to 2099-12. It does nothing.
pub fn office_days_end_with_2099()
    ensures first_day { (FIRST_OFFICE_DAY ≡ first_office_day) × (first_office_day ≡ day_number 2000 1 1) }
    ensures date { last_office_day ≡ day_number 2099 12 31 }
    ensures code { LAST_OFFICE_DAY ≡ last_office_day }
    ensures first_month { (FIRST_OFFICE_MONTH ≡ first_office_month) × (first_office_month ≡ 12 * (2000 - 1880)) }
    ensures last_month { (LAST_OFFICE_MONTH ≡ last_office_month) × (last_office_month ≡ 12 * (2099 - 1880) + 11) }
{}
