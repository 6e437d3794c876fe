//! Parts of a path.

ghost use Rattle.std.specs.Prelude.{◌≡◌, ◌==◌};
ghost use Rattle.std.specs.List.{after_first, before_first, list_all};
ghost use Rattle.std.specs.Char.{is_ascii_digit};
ghost use Rattle.http_routes.specs.Asks.{number_from, part_at};

/// The part of the path that two slashes come before.
#[tactic(auto, unfolding(crate::specs::Asks::part_at))]
pub(crate) fn second_part(path: &str) -> &str
    ensures { result.now ≡ part_at 2 path.now }
{
    first_part(behind_slash(behind_slash(path)))
}

/// The part of the path that four slashes come before.
#[tactic(auto, unfolding(crate::specs::Asks::part_at))]
pub(crate) fn fourth_part(path: &str) -> &str
    ensures { result.now ≡ part_at 4 path.now }
{
    first_part(behind_slash(behind_slash(behind_slash(behind_slash(path)))))
}

fn first_part(path: &str) -> &str
    ensures { result.now ≡ before_first (λ b. b == 47) path.now }
{
    match path.split_once('/') {
        Some((part, _)) => part,
        None => path,
    }
}

fn behind_slash(path: &str) -> &str
    ensures { result.now ≡ after_first (λ b. b == 47) path.now }
{
    match path.split_once('/') {
        Some((_, after)) => after,
        None => "",
    }
}

/// The number that digits write.
pub(crate) fn number(text: &str) -> Option<u32>
    ensures { result ≡ number_from text.now }
{
    if text.is_empty() {
        return None;
    }
    if !are_digits(text.as_bytes()) {
        return None;
    }
    text.parse().ok()
}

fn are_digits(text: &[u8]) -> bool
    ensures { result ≡ list_all is_ascii_digit text.now }
{
    text.iter().all(|b| b.is_ascii_digit())
}
