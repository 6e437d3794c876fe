//! The words in front that name a book.

ghost use Rattle.std.specs.Prelude.{◌≡◌, map, option_map, string_bytes};
ghost use Rattle.command_words.specs.Words.{book_in, words_after_book};

/// The path of the book that the words name in front, if they do, and the words after it. It takes no memory.
pub fn book_and_words(words: &[String]) -> (Option<&str>, &[String])
    ensures book { option_map (λ path. path.now) result.0 ≡ book_in (map string_bytes words.now) }
    ensures words { map string_bytes result.1.now ≡ words_after_book (map string_bytes words.now) }
{
    match words {
        [flag, path, others @ ..] if flag.as_str() == "--book" => (Some(path.as_str()), others),
        _ => (None, words),
    }
}
