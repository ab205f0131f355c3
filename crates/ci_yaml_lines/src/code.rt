//! The codes of a line's faults.

ghost use Rattle.std.specs.Prelude.{◌≡◌, Some};
ghost use Rattle.ci_yaml_lines.specs.Least.{number_of, lesser, least, least_of};
ghost use Rattle.ci_yaml_lines.specs.Scalar.{when};

/// What holds of a line that cannot follow the lines before it. Of those that hold, the least counts.
#[derive(Clone, Copy, PartialEq, Eq)]
pub enum Code {
    /// The text is over `MAX_FILE_BYTES`.
    Y1,
    /// A tab stands before the first other character of a content line.
    Y2,
    /// An indent fits no open node and begins no awaited value.
    Y3,
    /// A line at an open node's indent is neither its next key line nor its next item.
    Y4,
    /// A key stands twice in one map.
    Y5,
    /// A quoted scalar is not closed on its line.
    Y6,
    /// In double quotes a backslash stands before another character than `\`, `"`, `n` and `t`.
    Y7,
    /// A flow list is not closed on its line, or has an empty place.
    Y8,
    /// A form of YAML that the profile leaves out, or a character that it does not take.
    Y9,
    /// A map or list begins at depth 11.
    Y10,
    /// Text other than a comment follows a value, or a plain value holds `: ` or ends in `:`.
    Y11,
    /// There is no content line.
    Y12,
}

impl Code {
    /// The number behind the `Y`.
    pub fn number(self) -> u8
        ensures { result ≡ number_of self }
    {
        match self {
            Code::Y1 => 1,
            Code::Y2 => 2,
            Code::Y3 => 3,
            Code::Y4 => 4,
            Code::Y5 => 5,
            Code::Y6 => 6,
            Code::Y7 => 7,
            Code::Y8 => 8,
            Code::Y9 => 9,
            Code::Y10 => 10,
            Code::Y11 => 11,
            Code::Y12 => 12,
        }
    }
}

/// The lesser of two codes.
pub fn lesser(first: Code, second: Code) -> Code
    ensures { result ≡ lesser first (Some second) }
{
    if first.number() <= second.number() {
        first
    } else {
        second
    }
}

/// The lesser of two codes, where they hold.
pub fn least_of(first: Option<Code>, second: Option<Code>) -> Option<Code>
    ensures { result ≡ least_of first second }
{
    match (first, second) {
        (Some(a), Some(b)) => Some(lesser(a, b)),
        (Some(a), None) => Some(a),
        (None, other) => other,
    }
}

/// The code, if it holds.
pub fn when(holds: bool, code: Code) -> Option<Code>
    ensures { result ≡ least (when holds code) }
{
    if holds { Some(code) } else { None }
}
