//! What shows that a file was written for GitLab.

ghost use Rattle.std.specs.Prelude.{◌≡◌};
ghost use Rattle.ci_config.specs.Prelude.{words_view};
ghost use Rattle.ci_explain.specs.Gitlab.{words, marks, begins_with_one, leads_to_key, shows_here, shows_gitlab};

/// Keywords that `examples/convert.py` writes out. They count where a key may stand.
const WORDS: [&str; 15] = [
    "include:",
    "default:",
    "workflow:",
    "extends:",
    "inherit:",
    "image:",
    "services:",
    "cache:",
    "artifacts:",
    "before_script:",
    "after_script:",
    "only:",
    "except:",
    "parallel:",
    "<<:",
];

/// An anchor, an alias and `!reference`, which it writes out too, wherever they stand.
const MARKS: [&str; 5] = [": &", "- &", ": *", "- *", "!reference"];

/// Does a text begin with one of these?
fn begins_with_one(text: &[u8], beginnings: &[&str]) -> bool
    ensures { result ≡ begins_with_one (words_view beginnings.now) text.now }
{
    for beginning in beginnings {
        if text.starts_with(beginning.as_bytes()) {
            return true;
        }
    }
    false
}

/// May a key stand behind a byte? It ends a line, or it is a space or a dash where a key might stand before.
fn leads_to_key(before: bool, byte: u8) -> bool
    ensures { result ≡ leads_to_key before byte }
{
    byte == b'\n' || (before && (byte == b' ' || byte == b'-'))
}

fn begins_with_mark(text: &[u8]) -> bool
    ensures { result ≡ begins_with_one marks text.now }
{
    begins_with_one(text, &MARKS)
}

fn begins_with_word(text: &[u8]) -> bool
    ensures { result ≡ begins_with_one words text.now }
{
    begins_with_one(text, &WORDS)
}

/// Does a text begin with one of the words and marks? A word counts where a key may stand.
fn shows_here(may_be_key: bool, text: &[u8]) -> bool
    ensures { result ≡ shows_here may_be_key text.now }
{
    begins_with_mark(text) || (may_be_key && begins_with_word(text))
}

/// Does a file show that it was written for GitLab?
pub fn shows_gitlab(bytes: &[u8]) -> bool
    ensures { result ≡ shows_gitlab bytes.now }
{
    let mut may_be_key = true;
    for (i, byte) in bytes.iter().enumerate() {
        if shows_here(may_be_key, &bytes[i..]) {
            return true;
        }
        may_be_key = leads_to_key(may_be_key, *byte);
    }
    false
}
