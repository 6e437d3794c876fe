//! Ranks by preferences.

ghost use Rattle.std.specs.Prelude.{◌≡◌, min};
ghost use Rattle.std.specs.Option.{option_map_or};
ghost use Rattle.wait_list.specs.Rank.{rank_of, best_rank};

use rent_table::Plan;

/// The rank of an applicant with these preferences, by their codes from 1: the best that the plan gives to one of them, and
/// 100 where it ranks none of them.
pub fn best_rank(plan: &Plan, preferences: &[u32]) -> u32
    ensures { result ≡ best_rank plan.now.ranks preferences.now }
{
    let ranks = plan.ranks.as_slice();
    let mut best = None;
    for &code in preferences {
        if let Some(rank) = rank_of(ranks, code) {
            best = Some(better(best, rank));
        }
    }
    best.unwrap_or(100)
}

fn better(best: Option<u32>, rank: u32) -> u32
    ensures { result ≡ option_map_or (λ best. min best rank) best rank }
{
    match best {
        Some(best) => best.min(rank),
        None => rank,
    }
}

fn rank_of(ranks: &[u32], code: u32) -> Option<u32>
    ensures { result ≡ rank_of ranks.now code }
{
    if code == 0 {
        None
    } else {
        ranks.get(code as usize - 1).copied()
    }
}
