//! Acts by their request.

ghost use Rattle.std.specs.Prelude.{◌≡◌, ◌==◌, find, slice_get};
ghost use Rattle.std.specs.Option.{option_copied};
ghost use Rattle.row_index.specs.Index.{index_of, request_key};
ghost use Rattle.book_rows.specs.Book.{is_request_of};
ghost use Rattle.book_search.specs.Requests.{act_key};

use book_rows::ActRow;
use row_index::{RowIndex, index_finds};

/// The key of a clerk's own number of a request, by which an index of acts has it.
pub fn act_key(clerk: u32, request: u32) -> u64
    ensures { result ≡ request_key clerk request }
{
    u64::from(clerk) * 4_294_967_296 + u64::from(request)
}

/// The first act of the clerk and request, by an index of the acts.
pub fn act_of_request<'a>(
    acts: &'a [ActRow],
    index: &RowIndex,
    clerk: u32,
    request: u32,
) -> Option<&'a ActRow>
    requires { index.now.entries ≡ index_of act_key acts.now }
    ensures { option_copied result ≡ find (is_request_of clerk request) acts.now }
{
    let Some(act) = act_of_key(acts, index, act_key(clerk, request)) else {
        return None;
    };
    if is_of_request(act, clerk, request) {
        Some(act)
    } else {
        None
    }
}

fn act_of_key<'a>(acts: &'a [ActRow], index: &RowIndex, key: u64) -> Option<&'a ActRow>
    requires { index.now.entries ≡ index_of act_key acts.now }
    ensures { option_copied result ≡ find (λ act. act_key act == key) acts.now }
{
    index_finds::<ActRow>();
    let Some(place) = index.find(key) else {
        return None;
    };
    act_at(acts, place)
}

// Whether the act is of that clerk and request, as its key says too.
fn is_of_request(act: &ActRow, clerk: u32, request: u32) -> bool
    ensures value { result ≡ is_request_of clerk request act.now }
    ensures key { result ≡ (act_key act.now == request_key clerk request) }
{
    act_key(act.clerk, act.request) == act_key(clerk, request)
}

fn act_at(acts: &[ActRow], place: usize) -> Option<&ActRow>
    ensures { option_copied result ≡ slice_get acts.now place }
{
    acts.get(place)
}
