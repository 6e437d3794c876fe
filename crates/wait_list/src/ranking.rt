//! The applicants in the order in which they stand, as one more comes or one goes.

ghost use Rattle.std.specs.Prelude.{◌≡◌, ◌<◌, ◌≤◌, ◌+◌, ◌==◌, ◌∷◌, true, false, length, All, position, vec_len, vec_capacity};
ghost use Rattle.std.specs.List.Sorted.{IsPartitionPoint, IsPermutation};
ghost use Rattle.wait_list.specs.Next.{stands_behind};
ghost use Rattle.wait_list.specs.Ranked.{StandInOrder};
ghost use Rattle.wait_list.specs.Waiting.{without, HaveOwnNumbers};

use crate::Applicant;
use crate::next::stands_behind;

/// How many stand before the applicant.
fn how_many_before(ranked: &[Applicant], applicant: &Applicant) -> usize
    requires { StandInOrder ranked.now }
    ensures bound { result ≤ length ranked.now }
    ensures point { IsPartitionPoint (λ other. stands_behind applicant.now other ≡ true) (λ other. stands_behind applicant.now other ≡ false) ranked.now result }
{
    ranked.partition_point(|other| stands_behind(applicant, other))
}

/// Puts an applicant who applied last of all where it stands. It takes no memory.
pub fn put_in(ranked: &mut Vec<Applicant>, applicant: Applicant)
    requires room { vec_len ranked.old < vec_capacity ranked.old }
    requires in_order { StandInOrder ranked.old.items }
    requires act { All (λ earlier. earlier.act < applicant.act) ranked.old.items }
    ensures all { IsPermutation (applicant ∷ ranked.old.items) ranked.new.items }
    ensures in_order { StandInOrder ranked.new.items }
    ensures len { vec_len ranked.new ≡ vec_len ranked.old + 1 }
    ensures capacity { vec_capacity ranked.new ≡ vec_capacity ranked.old }
{
    let at = how_many_before(ranked, &applicant);
    let _ = ranked.insert(at, applicant);
}

fn place_of(applicants: &[Applicant], number: u32) -> Option<usize>
    ensures { result ≡ position (λ applicant. applicant.number == number) applicants.now }
{
    applicants
        .iter()
        .position(|applicant| applicant.number == number)
}

/// Takes the applicant of that number out, if it is there.
pub fn take_out(applicants: &mut Vec<Applicant>, number: u32)
    requires { HaveOwnNumbers applicants.old.items }
    ensures items { applicants.new.items ≡ without number applicants.old.items }
    ensures capacity { vec_capacity applicants.new ≡ vec_capacity applicants.old }
{
    if let Some(place) = place_of(applicants, number) {
        let _ = applicants.remove(place);
    }
}
