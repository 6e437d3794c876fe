//! Names.

ghost use Rattle.std.specs.Prelude.{◌≡◌};
ghost use Rattle.std.specs.List.{list_all};
ghost use Rattle.book_rows.specs.Fit.{is_printable, is_name};

/// Whether the bytes are a name: from 1 to `most` of them, each from the space to the tilde, with no space at either
/// end.
pub fn is_name(text: &[u8], most: usize) -> bool
    ensures { result ≡ is_name most text.now }
{
    let length = text.len();
    1 <= length
        && length <= most
        && (are_printable(text) && (text[0] != b' ' && text[length - 1] != b' '))
}

fn are_printable(text: &[u8]) -> bool
    ensures { result ≡ list_all is_printable text.now }
{
    text.iter().all(|byte| b' ' <= *byte && *byte <= b'~')
}
