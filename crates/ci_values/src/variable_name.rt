//! Names of variables.

ghost use Rattle.std.specs.Prelude.{◌≡◌};
ghost use Rattle.std.specs.List.{list_all};
ghost use Rattle.ci_values.specs.VariableName.{begins_word, goes_on_word, is_variable_name};

use crate::limits::MAX_NAME_BYTES;

/// An ASCII letter or `_`.
fn begins_word(byte: u8) -> bool
    ensures { result ≡ begins_word byte }
{
    (b'a' <= byte && byte <= b'z') || (b'A' <= byte && byte <= b'Z') || byte == b'_'
}

/// An ASCII letter, an ASCII digit or `_`.
fn goes_on_word(byte: u8) -> bool
    ensures { result ≡ goes_on_word byte }
{
    begins_word(byte) || (b'0' <= byte && byte <= b'9')
}

fn go_on_word(bytes: &[u8]) -> bool
    ensures { result ≡ list_all goes_on_word bytes.now }
{
    bytes.iter().all(|b| goes_on_word(*b))
}

/// Is the text the name of a variable: an ASCII letter or `_`, then ASCII letters, ASCII digits and `_`, at most 255 bytes?
pub fn is_variable_name(text: &str) -> bool
    ensures { result ≡ is_variable_name text.now }
{
    match text.as_bytes() {
        [] => false,
        [first, rest @ ..] => {
            begins_word(*first) && go_on_word(rest) && rest.len() < MAX_NAME_BYTES
        }
    }
}
