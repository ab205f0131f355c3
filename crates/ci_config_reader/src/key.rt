//! The keys of a map.

ghost use Rattle.std.specs.Prelude.{◌≡◌};
ghost use Rattle.ci_config.specs.Prelude.{table_view, words_view, code_view, GivesAt, other_key, keyword_of};

use ci_config::{ConfigCode, ReadFault};
use ci_values::{meaning_of, word_in};

/// The fault of a key that is no keyword: it is left out by its name, or unknown.
fn other_key(left_out: &[&'static str], key: &str) -> ConfigCode
    ensures { code_view result ≡ other_key (words_view left_out.now) key.now }
{
    match word_in(left_out, key) {
        Some(name) => ConfigCode::K2(name),
        None => ConfigCode::K3,
    }
}

/// The keyword that a key is.
pub fn keyword_of<T: Copy>(
    keywords: &[(&str, T)],
    left_out: &[&'static str],
    key: &str,
) -> Result<T, ReadFault>
    ensures { GivesAt (λ k. k) result (keyword_of (table_view keywords.now) (words_view left_out.now) key.now) }
{
    match meaning_of(keywords, key) {
        Some(keyword) => Ok(keyword),
        None => Err(ReadFault::Here(other_key(left_out, key))),
    }
}
