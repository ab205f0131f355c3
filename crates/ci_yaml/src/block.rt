//! Literal blocks.

ghost use Rattle.std.specs.Prelude.{◌≡◌, ℕ, ◌<◌, ◌≤◌, ◌++◌, [], IfOk, IfErr, length, take, drop, string_bytes};
ghost use Rattle.ci_yaml_lines.specs.Prelude.{least, chomp_view};
ghost use Rattle.ci_yaml.specs.Block.{is_spaces, is_in_block, is_low, indent_codes, more_indent, block_indent, kept_len, literal, AreBlock, EndsBlock};
ghost use Rattle.ci_yaml.specs.Blocks.{texts_of, cut_text, cut_lines, cut_strip, StopsBlock};

use ci_yaml_lines::code::{Code, least_of, when};
use ci_yaml_lines::cut::skip_spaces;
use ci_yaml_lines::entry::Chomp;
use ci_yaml_lines::scan::{has_byte_order_mark, spaces};
use std::alloc::{AllocError, Global};

/// Whether the line has spaces alone.
fn is_spaces(line: &[u8]) -> bool
    ensures { result ≡ is_spaces line.now }
{
    line.iter().all(|byte| *byte == b' ')
}

/// Whether the line belongs to the block of a key or dash in this column.
fn is_in_block(column: u32, line: &[u8]) -> bool
    ensures { result ≡ is_in_block column line.now }
{
    is_spaces(line) || (column as usize) < spaces(line)
}

/// Whether a line is indented less than the first line of its block.
fn is_low(indent: Option<usize>, line: &[u8]) -> bool
    ensures { result ≡ is_low indent line.now }
{
    match indent {
        Some(indent) => !is_spaces(line) && spaces(line) < indent,
        None => false,
    }
}

/// The least code of a line of a block whose first line that is not all spaces has this indent.
fn block_code(indent: Option<usize>, line: &[u8]) -> Option<Code>
    ensures { result ≡ least (indent_codes indent line.now) }
{
    let low = when(is_low(indent, line), Code::Y3);
    let mark = when(has_byte_order_mark(line), Code::Y9);
    least_of(low, mark)
}

/// The block's indent after one more line.
fn more_indent(indent: Option<usize>, line: &[u8]) -> Option<usize>
    ensures { result ≡ more_indent indent line.now }
{
    match indent {
        Some(indent) => Some(indent),
        None => {
            if is_spaces(line) {
                None
            } else {
                Some(spaces(line))
            }
        }
    }
}

/// A line of a block that cannot follow those before it: its place among them, and the least code.
#[derive(Drop)]
pub struct BlockFault {
    pub at: usize,
    pub code: Code,
}

/// How many of the lines are the block of a key or dash in this column.
///
/// Errors: the first line of the block that cannot follow those before it.
pub fn block_len(column: u32, lines: &[&str]) -> Result<usize, BlockFault>
    ensures within { IfOk result (λ n. n ≤ length lines.now) }
    ensures block { IfOk result (λ n. AreBlock column [] (texts_of (take n lines.now)) × EndsBlock column (texts_of (drop n lines.now))) }
    ensures inside { IfErr result (λ f. f.at < length lines.now) }
    ensures fault { IfErr result (λ f. AreBlock column [] (texts_of (take f.at lines.now)) × StopsBlock column (texts_of (take f.at lines.now)) (texts_of (drop f.at lines.now)) f.code) }
{
    let mut indent = None;
    for (at, line) in lines.iter().enumerate() {
        let bytes = line.as_bytes();
        if !is_in_block(column, bytes) {
            return Ok(at);
        }
        if let Some(code) = block_code(indent, bytes) {
            return Err(BlockFault { at, code });
        }
        indent = more_indent(indent, bytes);
    }
    Ok(lines.len())
}

/// The indent of the first line that is not all spaces.
fn block_indent(lines: &[&str]) -> usize
    ensures { result ≡ block_indent (texts_of lines.now) }
{
    for line in lines {
        if !is_spaces(line.as_bytes()) {
            return spaces(line.as_bytes());
        }
    }
    0
}

/// The number of lines without the empty ones at the end.
fn kept_len(lines: &[&str]) -> usize
    ensures within { result ≤ length lines.now }
    ensures value { result ≡ kept_len (texts_of lines.now) }
{
    let mut rest = lines;
    'scan: while let [more @ .., line] = rest {
        if !is_spaces(line.as_bytes()) {
            return rest.len();
        }
        rest = more;
    }
    0
}

/// Adds a line's text, cut by the block's indent. Errors: memory was refused.
fn push_line(text: &mut String, indent: usize, line: &str) -> Result<(), AllocError>
    ensures { IfOk result (λ _. string_bytes text.new ≡ string_bytes text.old ++ cut_text indent line.now) }
{
    if !is_spaces(line.as_bytes()) {
        text.push_str(skip_spaces(line, indent))?;
    }
    Ok(())
}

/// Adds the lines' texts, each with a line feed. Errors: memory was refused.
fn push_lines(text: &mut String, indent: usize, lines: &[&str]) -> Result<(), AllocError>
    ensures { IfOk result (λ _. string_bytes text.new ≡ string_bytes text.old ++ cut_lines indent (texts_of lines.now)) }
{
    for line in lines {
        push_line(text, indent, line)?;
        text.push_str("\n")?;
    }
    Ok(())
}

/// The same, without the last line feed. Errors: memory was refused.
fn push_stripped(text: &mut String, indent: usize, lines: &[&str]) -> Result<(), AllocError>
    ensures { IfOk result (λ _. string_bytes text.new ≡ string_bytes text.old ++ cut_strip indent (texts_of lines.now)) }
{
    match lines {
        [front @ .., last] => {
            push_lines(text, indent, front)?;
            push_line(text, indent, last)
        }
        [] => Ok(()),
    }
}

/// The text of the lines of a block. Errors: memory was refused.
pub fn literal(alloc: Global, how: Chomp, lines: &[&str]) -> Result<String, AllocError>
    ensures { IfOk result (λ s. (c : ℕ) → AreBlock c [] (texts_of lines.now) → string_bytes s ≡ literal (chomp_view how) (texts_of lines.now)) }
{
    let indent = block_indent(lines);
    let kept = &lines[..kept_len(lines)];
    let mut text = String::new(alloc);
    match how {
        Chomp::Keep => {
            push_lines(&mut text, indent, lines)?;
            Ok(text)
        }
        Chomp::Clip => {
            push_lines(&mut text, indent, kept)?;
            Ok(text)
        }
        Chomp::Strip => {
            push_stripped(&mut text, indent, kept)?;
            Ok(text)
        }
    }
}
