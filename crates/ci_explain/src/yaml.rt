//! What is said of a text that has no tree, in the user's words.

ghost use Rattle.std.specs.Prelude.{◌≡◌, ◌++◌, ℕ, List, OnOk, string_bytes};
ghost use Rattle.ci_yaml_lines.specs.Least.{number_of};
ghost use Rattle.ci_explain.specs.Report.{yaml_line, yaml_text};

use crate::report::put_count;
use ci_yaml::Code;
use std::alloc::AllocError;

/// The number of a code, a mark, and a sentence for a line that holds the mark. Each line holds the empty one.
type Row = (u8, &'static str, &'static str);

/// The sentences. Of the rows of a code the first whose mark the line holds counts.
const ROWS: [Row; 38] = [
    (
        1,
        "",
        "the file has more than 65,536 bytes: let scripts of your project do what long lists do",
    ),
    (2, "", "an indent is of spaces: there is a tab"),
    (
        3,
        "!",
        "the line fits no indent before it; and there are no tags (`!reference`) here: write out what they bring",
    ),
    (
        3,
        "",
        "the line fits no indent before it: a text that goes on over lines stands in a block (`|`), a list under its key has dashes",
    ),
    (4, "---", "a file is one document: leave this line out"),
    (4, "...", "a file is one document: leave this line out"),
    (
        4,
        "&",
        "there are no anchors here: write out what they name",
    ),
    (
        4,
        "*",
        "there are no aliases here: write out what they name",
    ),
    (
        4,
        "",
        "the line is neither a key (`name:`) nor an item (`- `) of the map or list at its indent",
    ),
    (
        5,
        "",
        "this key stands already in its map: the last one counts for GitLab",
    ),
    (
        6,
        "",
        "the quote isn't closed on its line: a text over several lines stands in a block (`|`)",
    ),
    (
        7,
        "",
        "in double quotes there are \\\\, \\\", \\n and \\t alone: write single quotes, or a block (`|`)",
    ),
    (
        8,
        "",
        "the list isn't closed on its line, or has an empty place: write items with dashes over several lines",
    ),
    (9, "---", "a file is one document: leave this line out"),
    (
        9,
        "!reference",
        "there is no `!reference` here: write out what it brings",
    ),
    (
        9,
        "<<: *",
        "there are no merge keys here: write the keys out",
    ),
    (
        9,
        ": &",
        "there are no anchors here: leave it out, and write out what it names where it is used",
    ),
    (
        9,
        "- &",
        "there are no anchors here: leave it out, and write out what it names where it is used",
    ),
    (
        9,
        ": *",
        "there are no aliases here: write out what it names",
    ),
    (
        9,
        "- *",
        "there are no aliases here: write out what it names",
    ),
    (
        9,
        ": !",
        "there are no tags here: leave it out, or put the text into quotes",
    ),
    (
        9,
        "- !",
        "there are no tags here: leave it out, or put the text into quotes",
    ),
    (
        9,
        ": >",
        "there are no folded texts here: write one line, or a block (`|`)",
    ),
    (
        9,
        "- >",
        "there are no folded texts here: write one line, or a block (`|`)",
    ),
    (
        9,
        ": |",
        "a block's header is `|`, `|-` or `|+`, with no number",
    ),
    (
        9,
        "- |",
        "a block's header is `|`, `|-` or `|+`, with no number",
    ),
    (
        9,
        ": {",
        "there are no maps in braces here: write each key on a line of its own",
    ),
    (
        9,
        "- {",
        "there are no maps in braces here: write each key on a line of its own",
    ),
    (
        9,
        "[[",
        "there are no lists in lists in brackets here: write items with dashes",
    ),
    (
        9,
        "[{",
        "there are no maps in lists in brackets here: write items with dashes",
    ),
    (
        9,
        "{",
        "a text that holds `{` or `}` in a list in brackets, or begins so, stands in quotes",
    ),
    (
        9,
        "%",
        "there are no directives here, and a text that begins with `%` stands in quotes",
    ),
    (9, "@", "a text that begins with this sign stands in quotes"),
    (9, "`", "a text that begins with this sign stands in quotes"),
    (
        9,
        "",
        "a form of YAML that is left out, or a character that no file has: a text may stand in quotes or in a block (`|`)",
    ),
    (10, "", "maps and lists lie ten deep at most"),
    (
        11,
        "",
        "a text that holds `: `, ends in a colon or goes on behind its quotes stands in quotes as a whole, or in a block (`|`)",
    ),
    (12, "", "there is nothing in the file"),
];

/// What is said of a code, on a line of a source.
pub fn yaml_hint(code: Code, source: &str, line: usize) -> &'static str {
    let text = source.lines().nth(line.saturating_sub(1)).unwrap_or("");
    let number = code.number();
    for row in &ROWS {
        let (of, mark, sentence) = *row;
        if of == number && text.contains(mark) {
            return sentence;
        }
    }
    ""
}

/// Puts the line of a fault of a text that has no tree behind another.
#[tactic(auto, unfolding(crate::specs::Report::yaml_line))]
fn put_yaml_line(
    text: &mut String,
    word: &str,
    line: usize,
    number: u8,
    hint: &str,
) -> Result<(), AllocError>
    ensures { OnOk result (string_bytes text.new ≡ string_bytes text.old ++ yaml_line word.now line number hint.now) }
{
    writeln!(text, "{word}:{line}: Y{number}: {hint}")
}

/// Puts the report of a text that has no tree behind another: the line of its fault, with a sentence, and that there is one.
pub fn put_yaml_fault(
    text: &mut String,
    word: &str,
    source: &str,
    code: Code,
    line: usize,
) -> Result<(), AllocError>
    ensures { OnOk result ((hint : List ℕ) × (string_bytes text.new ≡ string_bytes text.old ++ yaml_text word.now line (number_of code) hint)) }
{
    let hint = yaml_hint(code, source, line);
    put_yaml_line(text, word, line, code.number(), hint)?;
    put_count(text, 1)
}
