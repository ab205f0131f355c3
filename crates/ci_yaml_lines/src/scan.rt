//! Questions about the bytes of one line.

ghost use Rattle.std.specs.Prelude.{◌≡◌, ◌≤◌, ◌<◌, ◌==◌, ◌&&◌, ◌||◌, ◌∷◌, IfSome, length, take, drop, slice_index};
ghost use Rattle.ci_yaml_lines.specs.Scalar.{is_blank, blanks, trimmed_len, space_next, head_is, tail_of, comment_len, only_comment, has_tab_after, is_indicator, is_forbidden, has_colon};
ghost use Rattle.ci_yaml_lines.specs.Line.{place_len, key_len, has_inner, is_colon, is_dash, spaces, digit_next, has_control, has_byte_order_mark, is_document_mark};

/// Whether the byte is a space or a tab.
pub fn is_blank(byte: u8) -> bool
    ensures { result ≡ is_blank byte }
{
    byte == b' ' || byte == b'\t'
}

/// Whether the first byte is this one.
pub fn head_is(byte: u8, bytes: &[u8]) -> bool
    ensures { result ≡ head_is byte bytes.now }
{
    match bytes {
        [first, ..] => byte == *first,
        [] => false,
    }
}

/// Whether a space or the end comes next.
pub fn is_space_next(bytes: &[u8]) -> bool
    ensures { result ≡ space_next bytes.now }
{
    match bytes {
        [first, ..] => *first == b' ',
        [] => true,
    }
}

/// Whether a digit comes next.
pub fn is_digit_next(bytes: &[u8]) -> bool
    ensures { result ≡ digit_next bytes.now }
{
    match bytes {
        [first, ..] => b'0' <= *first && *first <= b'9',
        [] => false,
    }
}

/// How many spaces the text begins with.
pub fn spaces(bytes: &[u8]) -> usize
    ensures { result ≡ spaces bytes.now }
{
    bytes.iter().take_while(|byte| **byte == b' ').count()
}

/// How many spaces and tabs the text begins with.
pub fn blanks(bytes: &[u8]) -> usize
    ensures { result ≡ blanks bytes.now }
{
    bytes.iter().take_while(|byte| is_blank(**byte)).count()
}

/// The length without the spaces and tabs at the end.
#[tactic(auto, using(crate::proofs::Cuts::trims))]
pub fn trimmed_len(bytes: &[u8]) -> usize
    ensures { result ≡ trimmed_len bytes.now }
{
    let mut rest = bytes;
    'scan: while let [more @ .., byte] = rest {
        if !is_blank(*byte) {
            return rest.len();
        }
        rest = more;
    }
    0
}

/// How many bytes come before a comment, which is a `#` after a space.
pub fn comment_len(last: u8, bytes: &[u8]) -> usize
    ensures { result ≡ comment_len last bytes.now }
{
    let mut last = last;
    for (i, byte) in bytes.iter().enumerate() {
        if *byte == b'#' && last == b' ' {
            return i;
        }
        last = *byte;
    }
    bytes.len()
}

fn ends_place(last: u8, byte: u8) -> bool
    ensures { result ≡ (((byte == 44) || (byte == 93)) || ((byte == 35) && (last == 32))) }
{
    byte == b',' || byte == b']' || (byte == b'#' && last == b' ')
}

/// How many bytes come before a comma, a closing bracket or a comment.
pub fn place_len(last: u8, bytes: &[u8]) -> usize
    ensures { result ≡ place_len last bytes.now }
{
    let mut last = last;
    for (i, byte) in bytes.iter().enumerate() {
        if ends_place(last, *byte) {
            return i;
        }
        last = *byte;
    }
    bytes.len()
}

fn stops_key(last: u8, byte: u8, more: &[u8]) -> bool
    ensures { result ≡ (((byte == 35) && (last == 32)) || ((byte == 58) && space_next more.now)) }
{
    (byte == b'#' && last == b' ') || ends_key(byte, more)
}

/// How many bytes come before the colon that ends a plain key, or before a comment.
#[tactic(auto, using(crate::proofs::Scans::key_step, crate::proofs::Scans::key_end, crate::proofs::Scans::rest_length))]
pub fn key_len(bytes: &[u8]) -> usize
    ensures { result ≡ key_len 0 bytes.now }
{
    let mut last = 0;
    let mut rest = bytes;
    'scan: while let [byte, more @ ..] = rest {
        if stops_key(last, *byte, more) {
            return bytes.len() - rest.len();
        }
        last = *byte;
        rest = more;
    }
    bytes.len()
}

/// Whether only spaces and tabs come before the end or a comment.
pub fn is_only_comment(last: u8, bytes: &[u8]) -> bool
    ensures { result ≡ only_comment last bytes.now }
{
    let mut last = last;
    let mut rest = bytes;
    'scan: while let [byte, more @ ..] = rest {
        if !is_blank(*byte) {
            return *byte == b'#' && last == b' ';
        }
        last = *byte;
        rest = more;
    }
    true
}

fn is_tab_after(byte: u8, more: &[u8]) -> bool
    ensures { result ≡ (((byte == 45) || (byte == 58)) && head_is 9 more.now) }
{
    (byte == b'-' || byte == b':') && head_is(b'\t', more)
}

/// Whether `-` or `:` stands directly before a tab.
#[tactic(auto, using(crate::proofs::Scans::tab_step, crate::proofs::Scans::tab_end))]
pub fn has_tab_after(bytes: &[u8]) -> bool
    ensures { result ≡ has_tab_after bytes.now }
{
    let mut rest = bytes;
    'scan: while let [byte, more @ ..] = rest {
        if is_tab_after(*byte, more) {
            return true;
        }
        rest = more;
    }
    false
}

/// Whether `-` or `:` stands directly before a tab in this byte with those behind it.
pub fn has_tab_from(byte: u8, more: &[u8]) -> bool
    ensures { result ≡ has_tab_after (byte ∷ more.now) }
{
    is_tab_after(byte, more) || has_tab_after(more)
}

fn ends_key(byte: u8, more: &[u8]) -> bool
    ensures { result ≡ ((byte == 58) && space_next more.now) }
{
    byte == b':' && is_space_next(more)
}

/// Whether `: ` stands in a plain scalar, or `:` at its end.
#[tactic(auto, using(crate::proofs::Scans::colon_step, crate::proofs::Scans::colon_end))]
pub fn has_colon(bytes: &[u8]) -> bool
    ensures { result ≡ has_colon bytes.now }
{
    let mut rest = bytes;
    'scan: while let [byte, more @ ..] = rest {
        if ends_key(*byte, more) {
            return true;
        }
        rest = more;
    }
    false
}

fn is_inner(byte: u8, more: &[u8]) -> bool
    ensures { result ≡ (((byte == 91) || ((byte == 123) || (byte == 125))) || ((byte == 58) && head_is 32 more.now)) }
{
    byte == b'[' || byte == b'{' || byte == b'}' || (byte == b':' && head_is(b' ', more))
}

/// Whether something stands in a plain scalar that no plain scalar of a flow list holds.
#[tactic(auto, using(crate::proofs::Scans::inner_step, crate::proofs::Scans::inner_end))]
pub fn has_inner(bytes: &[u8]) -> bool
    ensures { result ≡ has_inner bytes.now }
{
    let mut rest = bytes;
    'scan: while let [byte, more @ ..] = rest {
        if is_inner(*byte, more) {
            return true;
        }
        rest = more;
    }
    false
}

fn is_indicator(byte: u8) -> bool
    ensures { result ≡ is_indicator byte }
{
    match byte {
        b',' | b'[' | b']' | b'{' | b'}' | b'#' | b'&' | b'*' | b'!' => true,
        b'|' | b'>' | b'\'' | b'"' | b'%' | b'@' | b'`' => true,
        _ => false,
    }
}

/// Whether no plain scalar begins so.
pub fn is_forbidden(bytes: &[u8]) -> bool
    ensures { result ≡ is_forbidden bytes.now }
{
    match bytes {
        [byte, more @ ..] => {
            is_indicator(*byte)
                || ((*byte == b'-' || *byte == b'?' || *byte == b':') && is_space_next(more))
        }
        [] => false,
    }
}

/// Whether a dash stands there that begins an item.
pub fn is_dash(bytes: &[u8]) -> bool
    ensures { result ≡ is_dash bytes.now }
{
    match bytes {
        [byte, more @ ..] => *byte == b'-' && is_space_next(more),
        [] => false,
    }
}

/// Whether a colon stands there that ends a key.
pub fn is_colon(bytes: &[u8]) -> bool
    ensures { result ≡ is_colon bytes.now }
{
    match bytes {
        [byte, more @ ..] => *byte == b':' && is_space_next(more),
        [] => false,
    }
}

/// Whether a control character other than a tab stands in the line.
pub fn has_control(bytes: &[u8]) -> bool
    ensures { result ≡ has_control bytes.now }
{
    bytes
        .iter()
        .any(|byte| (*byte < 32 && *byte != b'\t') || *byte == 127)
}

fn is_byte_order_mark(byte: u8, more: &[u8]) -> bool
    ensures { result ≡ ((byte == 239) && (head_is 187 more.now && head_is 191 (tail_of more.now))) }
{
    match more {
        [second, third, ..] => byte == 0xEF && *second == 0xBB && *third == 0xBF,
        _ => false,
    }
}

/// Whether U+FEFF stands in the line.
#[tactic(auto, using(crate::proofs::Scans::mark_step, crate::proofs::Scans::mark_end))]
pub fn has_byte_order_mark(bytes: &[u8]) -> bool
    ensures { result ≡ has_byte_order_mark bytes.now }
{
    let mut rest = bytes;
    'scan: while let [byte, more @ ..] = rest {
        if is_byte_order_mark(*byte, more) {
            return true;
        }
        rest = more;
    }
    false
}

/// Whether the text is `---` or `...`, alone or before a space.
pub fn is_document_mark(bytes: &[u8]) -> bool
    ensures { result ≡ is_document_mark bytes.now }
{
    match bytes {
        [first, second, third, more @ ..] => {
            (*first == b'-' || *first == b'.')
                && *first == *second
                && *first == *third
                && is_space_next(more)
        }
        _ => false,
    }
}
