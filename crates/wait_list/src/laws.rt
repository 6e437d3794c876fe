//! Laws of who is next.

ghost use Rattle.wait_list.specs.{Wanted.WantedIsPlain, Wanted.RankIsPlain, RightfulNext.NextIsPlain};

/// Who is next, in plain facts. It does nothing.
pub fn next_is_plain()
    ensures { NextIsPlain }
{}

/// When an extremely low-income family is wanted, and which rank is the best, in plain facts. It does nothing.
pub fn wanted_is_plain()
    ensures wanted { WantedIsPlain }
    ensures rank { RankIsPlain }
{}
