//! The fields of a head.

ghost use Rattle.std.specs.Prelude.{◌≡◌, length, map, All};
ghost use Rattle.std.specs.Str.{str_eq_ignore_ascii_case};
ghost use Rattle.httparse.specs.Spans.{IsHeaderWithin, header_bytes};
ghost use Rattle.ci_http_messages.specs.Fields.{values_of, Shows};

use httparse::spans::HeaderSpan;

/// The values of a field's name: none, one, or more than one.
#[derive(Clone, Copy, Drop)]
pub enum Found<'b> {
    Absent,
    Once(&'b [u8]),
    Twice,
}

/// The values of the fields of this name, whatever the case of its letters.
pub(crate) fn find_field<'b>(head: &'b [u8], headers: &[HeaderSpan], name: &[u8]) -> Found<'b>
    requires { All (IsHeaderWithin (length head.now)) headers.now }
    ensures { Shows result (values_of name.now (map (header_bytes head.now) headers.now)) }
{
    let mut found = Found::Absent;
    for header in headers {
        if is_same_name(header.name.of(head), name) {
            match found {
                Found::Absent => found = Found::Once(header.value.of(head)),
                _ => return Found::Twice,
            }
        }
    }
    found
}

// Whether two names are one, whatever the case of their letters.
fn is_same_name(name: &[u8], other: &[u8]) -> bool
    ensures { result ≡ str_eq_ignore_ascii_case name.now other.now }
{
    name.eq_ignore_ascii_case(other)
}
