//! Words of a table.

ghost use Rattle.std.specs.Prelude.{◌≡◌, option_copied};
ghost use Rattle.ci_values.specs.Table.{table_view, words_view, meaning_of, word_in};

/// What a word, given by its bytes, means by a table.
pub fn meaning_of_bytes<T: Copy>(table: &[(&str, T)], word: &[u8]) -> Option<T>
    ensures { result ≡ meaning_of (table_view table.now) word.now }
{
    for entry in table {
        if entry.0.as_bytes() == word {
            return Some(entry.1);
        }
    }
    None
}

/// What a word means by a table: of two entries with one word the first counts.
pub fn meaning_of<T: Copy>(table: &[(&str, T)], word: &str) -> Option<T>
    ensures { result ≡ meaning_of (table_view table.now) word.now }
{
    meaning_of_bytes(table, word.as_bytes())
}

/// The word of a list that a word is, if it is one of them.
pub fn word_in(words: &[&'static str], word: &str) -> Option<&'static str>
    ensures { option_copied result ≡ word_in (words_view words.now) word.now }
{
    for other in words {
        if *other == word {
            return Some(*other);
        }
    }
    None
}
