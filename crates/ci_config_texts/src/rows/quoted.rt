//! What a text between quotes stands for.

use crate::rows::fault::RowFault;

/// How far a text between quotes is read.
#[derive(Clone, Copy, Drop)]
enum Mark {
    /// Behind a whole character.
    Between,
    /// Behind a backslash.
    Escape,
    /// Behind the `u` of a character by its number, or the `x` of a byte by its value.
    Number(Kind),
    /// Within the braces, behind these digits.
    Digits(Kind, u32),
}

#[derive(Clone, Copy, Drop)]
enum Kind {
    Character,
    Byte,
}

/// Puts a character behind bytes.
fn put_char(out: &mut Vec<u8>, c: char) -> Result<(), RowFault> {
    let mut bytes = [0u8; 4];
    out.extend_from_slice(c.encode_utf8(&mut bytes).as_bytes())?;
    Ok(())
}

/// Puts the number of a repetition behind bytes.
fn put_number(out: &mut Vec<u8>, number: u32) -> Result<(), RowFault> {
    let digits = number.to_string(*out.allocator())?;
    out.extend_from_slice(digits.as_str().as_bytes())?;
    Ok(())
}

/// Puts what a character behind a backslash stands for behind bytes.
fn escaped(out: &mut Vec<u8>, c: char, number: u32) -> Result<Mark, RowFault> {
    match c {
        'n' => put_char(out, '\n')?,
        't' => put_char(out, '\t')?,
        'r' => put_char(out, '\r')?,
        '"' | '\\' => put_char(out, c)?,
        '#' => put_number(out, number)?,
        'u' => return Ok(Mark::Number(Kind::Character)),
        'x' => return Ok(Mark::Number(Kind::Byte)),
        _ => return Err(RowFault::NotRead),
    }
    Ok(Mark::Between)
}

/// One digit more.
fn more_digits(value: u32, c: char) -> Result<u32, RowFault> {
    let digit = c.to_digit(16).ok_or(RowFault::NotRead)?;
    let above = value.checked_mul(16).ok_or(RowFault::NotRead)?;
    above.checked_add(digit).ok_or(RowFault::NotRead)
}

/// Puts the character or the byte that a number stands for behind bytes.
fn put_value(out: &mut Vec<u8>, kind: Kind, value: u32) -> Result<(), RowFault> {
    match kind {
        Kind::Character => put_char(out, char::from_u32(value).ok_or(RowFault::NotRead)?),
        Kind::Byte => {
            let byte = u8::try_from(value).map_err(|_| RowFault::NotRead)?;
            out.push(byte)?;
            Ok(())
        }
    }
}

/// Reads one character more.
fn step(out: &mut Vec<u8>, mark: Mark, c: char, number: u32) -> Result<Mark, RowFault> {
    match mark {
        Mark::Between if c == '\\' => Ok(Mark::Escape),
        Mark::Between => {
            put_char(out, c)?;
            Ok(Mark::Between)
        }
        Mark::Escape => escaped(out, c, number),
        Mark::Number(kind) if c == '{' => Ok(Mark::Digits(kind, 0)),
        Mark::Number(_) => Err(RowFault::NotRead),
        Mark::Digits(kind, value) if c == '}' => {
            put_value(out, kind, value)?;
            Ok(Mark::Between)
        }
        Mark::Digits(kind, value) => Ok(Mark::Digits(kind, more_digits(value, c)?)),
    }
}

/// Puts what a text between quotes stands for behind bytes; the number is that of the repetition.
pub(crate) fn put_quoted(out: &mut Vec<u8>, quoted: &str, number: u32) -> Result<(), RowFault> {
    let mut mark = Mark::Between;
    for c in quoted.chars() {
        mark = step(out, mark, c, number)?;
    }
    match mark {
        Mark::Between => Ok(()),
        _ => Err(RowFault::NotRead),
    }
}
