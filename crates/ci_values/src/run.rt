//! The bytes of one class with which a text begins.

ghost use Rattle.std.specs.Prelude.{◌≡◌, ◌≤◌, length};
ghost use Rattle.std.specs.List.{prefix_len};
ghost use Rattle.ci_values.specs.Run.{is_of, front, behind};

/// What the bytes of a duration can be.
#[derive(Clone, Copy)]
pub enum Class {
    Digit,
    Space,
    Letter,
}

fn is_of(class: Class, byte: u8) -> bool
    ensures { result ≡ is_of class byte }
{
    match class {
        Class::Digit => b'0' <= byte && byte <= b'9',
        Class::Space => byte == b' ',
        Class::Letter => b'a' <= byte && byte <= b'z',
    }
}

/// How many bytes of the class come first.
fn front_len(class: Class, bytes: &[u8]) -> usize
    ensures value { result ≡ prefix_len (is_of class) bytes.now }
    ensures within { result ≤ length bytes.now }
{
    for (i, byte) in bytes.iter().enumerate() {
        if !is_of(class, *byte) {
            return i;
        }
    }
    bytes.len()
}

/// The bytes of the class that come first, and what is behind them.
pub fn split(class: Class, bytes: &[u8]) -> (&[u8], &[u8])
    ensures front { result.0.now ≡ front class bytes.now }
    ensures behind { result.1.now ≡ behind class bytes.now }
{
    let len = front_len(class, bytes);
    (&bytes[..len], &bytes[len..])
}
