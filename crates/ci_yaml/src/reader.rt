//! Reading a text.

ghost use Rattle.std.specs.Prelude.{◌≡◌, ℕ, suc, ◌+◌, ◌<◌, ◌≤◌, ◌++◌, List, [], map, option_map, IfOk, IfErr, Ok, Err, false, length, take, drop};
ghost use Rattle.ci_yaml_lines.specs.Prelude.{bytes_of, chomp_view, value_view, entry_view, parsed_view, parse_line, lesser, Value, is_lent, texts_in, entries_texts, spans_of};
ghost use Rattle.ci_yaml_lines.specs.Prelude.{line_spans};
ghost use Rattle.ci_yaml.specs.View.{state_view};
ghost use Rattle.ci_yaml.specs.ReadLines.{Reader, with_text, ending_at, content, read_lines, beginning};
ghost use Rattle.ci_yaml.specs.Block.{literal, AreBlock, EndsBlock};
ghost use Rattle.ci_yaml.specs.Document.{last_column, HasTree, IsFault};
ghost use Rattle.ci_yaml.specs.Blocks.{texts_of};
ghost use Rattle.ci_yaml.specs.Stops.{below_view, passed_view, entered, GivesAt, BlockFails, StopsBy, HasRead, AreShort, Reads, RefusedBy, GivesTree, GivesFault};
ghost use Rattle.std.specs.Str.Lines.{lines};
ghost use Rattle.ci_yaml.specs.Spans.{state_texts, Follow, Ends, Lines, AreWritten};
ghost use Rattle.ci_yaml.specs.TextSpans.{with_last, HaveSpans, GoOn};
ghost use Rattle.ci_yaml_lines.specs.declared.code.Code.{Code};
ghost use Rattle.ci_yaml_lines.specs.declared.code.Code.TheVariants.{Y1};
ghost use Rattle.ci_yaml.specs.declared.fault.YamlFault.TheVariants.{Fault};

use crate::block::{BlockFault, block_len, literal};
use crate::entries::{enter_all, finish};
use crate::fault::{Stop, YamlFault};
use crate::progress::Progress;
use ci_values::limits::MAX_FILE_BYTES;
use ci_yaml_lines::code::{Code, lesser};
use ci_yaml_lines::entry::{Chomp, Entry, ParsedLine};
use ci_yaml_lines::line::parse_line;
use ci_yaml_lines::tree::{Place, Span, Text, Tree, Words};
use std::alloc::Global;

/// What was read up to a line, and how the literal block below it is read, and below which column.
#[derive(Drop)]
struct Passed<'a> {
    progress: Progress<'a>,
    below: Option<(Chomp, u32)>,
}

/// The column of the last entry.
fn last_column(entries: &[Entry]) -> u32
    ensures { result ≡ last_column (map entry_view entries.now) }
{
    match entries {
        [.., entry] => entry.column,
        [] => 0,
    }
}

/// How the literal block below a line is read, and below which column, if the line has a header.
fn below_of(header: Option<Chomp>, column: u32) -> Option<(Chomp, u32)>
    ensures { below_view result ≡ ending_at (option_map chomp_view header) column }
{
    match header {
        Some(how) => Some((how, column)),
        None => None,
    }
}

/// The lesser of a code and another, if there is another.
fn lesser_of(place: Code, code: Option<Code>) -> Code
    ensures { result ≡ lesser place code }
{
    match code {
        None => place,
        Some(code) => lesser(place, code),
    }
}

/// Enters what a line says, which is counted from 1.
fn enter<'a>(
    alloc: Global,
    progress: Progress<'a>,
    number: usize,
    parsed: ParsedLine<'a>,
) -> Result<Passed<'a>, YamlFault>
    ensures value { GivesAt passed_view number result (entered (state_view progress.entry) (parsed_view parsed.entry)) }
    ensures spans { IfOk result (λ p. state_texts p.progress ≡ state_texts progress.entry ++ entries_texts parsed.entry.entries.items) }
{
    let ParsedLine {
        entries,
        header,
        code,
    } = parsed;
    let below = below_of(header, last_column(&entries));
    match enter_all(alloc, progress, entries) {
        Ok(progress) => match code {
            None => Ok(Passed { progress, below }),
            Some(code) => Err(YamlFault::Fault(code, number)),
        },
        Err(Stop::Memory) => Err(YamlFault::Memory),
        Err(Stop::Fault(place)) => Err(YamlFault::Fault(lesser_of(place, code), number)),
    }
}

/// Reads a line outside literal blocks, which is counted from 1.
fn read_line<'a>(
    alloc: Global,
    progress: Progress<'a>,
    number: usize,
    line: &'a str,
) -> Result<Passed<'a>, YamlFault>
    requires fits { length line.now ≤ MAX_FILE_BYTES }
    ensures value { GivesAt passed_view number result (content (state_view progress.entry) (parse_line line.now)) }
    ensures spans { IfOk result (λ p. Follow number line.now (state_texts progress.entry) (state_texts p.progress)) }
    ensures exact { IfOk result (λ p. spans_of (state_texts p.progress) ≡ spans_of (state_texts progress.entry) ++ line_spans number line.now) }
{
    let parsed = parse_line(alloc, number, line)?;
    enter(alloc, progress, number, parsed)
}

/// With this text for the value of the last entry.
fn with_text<'a>(progress: Progress<'a>, text: Text<'a>) -> Progress<'a>
    ensures value { state_view result ≡ with_text (bytes_of text.entry) (state_view progress.entry) }
    ensures spans { Ends text.entry (state_texts progress.entry) (state_texts result) }
    ensures exact { (words : List ℕ) → state_view progress.entry ≡ with_text words (state_view progress.entry) → spans_of (state_texts result) ≡ with_last text.entry.span (spans_of (state_texts progress.entry)) }
{
    match progress {
        Progress::Start => Progress::Start,
        Progress::Whole(_) => Progress::Whole(Tree::Text(text)),
        Progress::Inside(frames, _) => Progress::Inside(frames, Some(Tree::Text(text))),
    }
}

/// The literal block that begins at a line, and how many lines it has.
fn read_block<'a>(
    alloc: Global,
    how: Chomp,
    column: u32,
    at: usize,
    lines: &[&'a str],
) -> Result<(usize, Text<'a>), YamlFault>
    requires fits { at + length lines.now + 1 < 18446744073709551616 }
    ensures within { IfOk result (λ r. r.0 ≤ length lines.now) }
    ensures block { IfOk result (λ r. AreBlock column [] (texts_of (take r.0 lines.now)) × EndsBlock column (texts_of (drop r.0 lines.now))) }
    ensures span { IfOk result (λ r. r.1.span ≡ (record { start = record { line = suc at; column = 0 }; end = record { line = suc (at + r.0); column = 0 } })) }
    ensures own { IfOk result (λ r. is_lent r.1.words ≡ false) }
    ensures text { IfOk result (λ r. bytes_of r.1 ≡ literal (chomp_view how) (texts_of (take r.0 lines.now))) }
    ensures fault { IfErr result (BlockFails column at lines.now) }
{
    match block_len(column, lines) {
        Ok(len) => {
            let text = literal(alloc, how, &lines[..len])?;
            let start = Place {
                line: at + 1,
                column: 0,
            };
            let end = Place {
                line: at + len + 1,
                column: 0,
            };
            Ok((
                len,
                Text {
                    words: Words::Owned(text),
                    span: Span { start, end },
                },
            ))
        }
        Err(BlockFault { at: place, code }) => { Err(YamlFault::Fault(code, at + place + 1)) }
    }
}

/// Reads the line behind the first lines, so many, and the literal block below it: how many lines are read then.
fn read_part<'a>(
    alloc: Global,
    progress: Progress<'a>,
    at: usize,
    lines: &[&'a str],
) -> Result<(usize, Progress<'a>), YamlFault>
    requires inside { at < length lines.now }
    requires short { AreShort (texts_of lines.now) }
    requires before { HasRead (texts_of lines.now) at (state_view progress) }
    requires texts { Lines (texts_of lines.now) 0 (take at (texts_of lines.now)) (state_texts progress) }
    requires exact { GoOn (texts_of lines.now) at (spans_of (state_texts progress)) }
    ensures more { IfOk result (λ r. (at < r.0) × (r.0 ≤ length lines.now)) }
    ensures read { IfOk result (λ r. HasRead (texts_of lines.now) r.0 (state_view r.1)) }
    ensures spans { IfOk result (λ r. Lines (texts_of lines.now) 0 (take r.0 (texts_of lines.now)) (state_texts r.1)) }
    ensures exact { IfOk result (λ r. GoOn (texts_of lines.now) r.0 (spans_of (state_texts r.1))) }
    ensures fault { IfErr result (StopsBy (texts_of lines.now)) }
{
    let Passed { progress, below } = read_line(alloc, progress, at + 1, lines[at])?;
    let next = at + 1;
    match below {
        None => Ok((next, progress)),
        Some((how, column)) => {
            let (len, text) = read_block(alloc, how, column, next, &lines[next..])?;
            Ok((next + len, with_text(progress, text)))
        }
    }
}

/// Reads the lines. Errors: the first line that cannot follow those before it, and its code; or memory was refused.
fn read_lines<'a>(alloc: Global, lines: &[&'a str]) -> Result<Progress<'a>, YamlFault>
    requires short { AreShort (texts_of lines.now) }
    ensures read { IfOk result (λ p. (r : Reader) × (read_lines beginning (texts_of lines.now) ≡ Ok r) × (r.state ≡ state_view p)) }
    ensures spans { IfOk result (λ p. Lines (texts_of lines.now) 0 (texts_of lines.now) (state_texts p)) }
    ensures exact { IfOk result (λ p. HaveSpans 0 (texts_of lines.now) (spans_of (state_texts p))) }
    ensures fault { IfErr result (StopsBy (texts_of lines.now)) }
{
    let mut progress = Progress::Start;
    let mut at = 0;
    'lines: while at < lines.len() {
        let (next, more) = read_part(alloc, progress, at, lines)?;
        progress = more;
        at = next;
    }
    Ok(progress)
}

/// The tree of the lines. Errors: the first line that cannot follow those before it, and its code; or memory was refused.
fn tree_of<'a>(alloc: Global, lines: &[&'a str]) -> Result<Tree<'a>, YamlFault>
    requires short { AreShort (texts_of lines.now) }
    ensures tree { Reads (texts_of lines.now) result }
    ensures spans { IfOk result (λ t. Lines (texts_of lines.now) 0 (texts_of lines.now) (texts_in t)) }
    ensures exact { IfOk result (λ t. HaveSpans 0 (texts_of lines.now) (spans_of (texts_in t))) }
{
    let progress = read_lines(alloc, lines)?;
    match finish(progress)? {
        Some(tree) => Ok(tree),
        None => Err(YamlFault::Fault(Code::Y12, 1)),
    }
}

/// The tree of a text.
///
/// Errors: the code that holds of the first line that cannot follow the lines before it, the least of those that
/// hold there; or memory was refused.
pub fn read(alloc: Global, text: &str) -> Result<Tree<'_>, YamlFault>
    // What is returned is the tree that the text has.
    ensures tree { IfOk result (λ t. HasTree text.now (value_view t)) }
    // A text that has a tree is read, unless memory is refused.
    ensures all { (v : Value) → HasTree text.now v → GivesTree v result }
    // A fault is the one that the text has: the first line that makes no good beginning, and the least code that holds of it.
    ensures fault { IfErr result (RefusedBy text.now) }
    // A text that has a fault is refused with it, unless memory is refused.
    ensures refused { (at : ℕ) (code : Code) → IsFault text.now at code → GivesFault at code result }
    // Each text is what its span holds, read by the scalar rules: with its quotes, or as a header's whole block; the spans ascend. It
    // is lent where the source writes it as it is.
    ensures spans { IfOk result (λ t. AreWritten (lines text.now) (texts_in t)) }
    // Each span is where the definition of the text's lines finds the text: a text has one list of spans.
    ensures exact { IfOk result (λ t. HaveSpans 0 (lines text.now) (spans_of (texts_in t))) }
    // A text that is too long is refused before all else.
    ensures too_long { MAX_FILE_BYTES < length text.now → result ≡ Err (Fault Y1 1) }
{
    if MAX_FILE_BYTES < text.len() {
        return Err(YamlFault::Fault(Code::Y1, 1));
    }
    let lines: Vec<&str> = text.lines().collect(alloc)?;
    tree_of(alloc, &lines)
}
