//! Method and target, before the head is whole.

ghost use Rattle.std.specs.Prelude.{◌≡◌, ◌≤◌, None, false, length, IfSome};
ghost use Rattle.std.specs.List.{list_all};
ghost use Rattle.http_heads.specs.Heads.{after_empty_lines, after_word, begins_word, ends_in_target, is_target_begun, is_word_byte};
ghost use Rattle.http_heads.specs.Looks.{IsMethodEnd};

/// Where the method ends, if the bytes end inside the target.
pub(crate) fn method_end(bytes: &[u8]) -> Option<usize>
    ensures outside { result ≡ None → ends_in_target bytes.now ≡ false }
    ensures inside { IfSome result (IsMethodEnd bytes.now) }
{
    let line = past_empty_lines(bytes);
    if !begins_word(line) {
        return None;
    }
    let rest = past_word(line);
    if is_target_begun(rest) {
        Some(bytes.len() - rest.len())
    } else {
        None
    }
}

#[tactic(auto, unfolding(crate::specs::Heads::after_empty_lines))]
fn past_empty_lines(bytes: &[u8]) -> &[u8]
    ensures is { result.now ≡ after_empty_lines bytes.now }
    ensures shorter { length result.now ≤ length bytes.now }
{
    let mut rest = bytes;
    loop {
        match rest {
            [b'\n', after @ ..] => rest = after,
            [b'\r', b'\n', after @ ..] => rest = after,
            _ => return rest,
        }
    }
}

#[tactic(auto, unfolding(crate::specs::Heads::after_word))]
fn past_word(bytes: &[u8]) -> &[u8]
    ensures is { result.now ≡ after_word bytes.now }
    ensures shorter { length result.now ≤ length bytes.now }
{
    let mut rest = bytes;
    while let [first, after @ ..] = rest {
        if !is_word_byte(*first) {
            return rest;
        }
        rest = after;
    }
    rest
}

fn begins_word(bytes: &[u8]) -> bool
    ensures { result ≡ begins_word bytes.now }
{
    match bytes {
        [] => false,
        [first, ..] => is_word_byte(*first),
    }
}

fn is_target_begun(bytes: &[u8]) -> bool
    ensures { result ≡ is_target_begun bytes.now }
{
    match bytes {
        [] => false,
        [first, target @ ..] => *first == b' ' && is_word(target),
    }
}

fn is_word(bytes: &[u8]) -> bool
    ensures { result ≡ list_all is_word_byte bytes.now }
{
    bytes.iter().all(|b| is_word_byte(*b))
}

fn is_word_byte(b: u8) -> bool
    ensures { result ≡ is_word_byte b }
{
    !(b == b' ' || (b == b'\r' || b == b'\n'))
}
