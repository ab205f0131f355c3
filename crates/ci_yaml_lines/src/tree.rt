//! The tree of a text.

ghost use Rattle.std.specs.Prelude.{◌≡◌};
ghost use Rattle.ci_yaml_lines.specs.View.{bytes_of};

/// A place in a source: its line, counted from 1, and the bytes of that line before it.
#[derive(Clone, Copy)]
pub struct Place {
    pub line: usize,
    pub column: usize,
}

/// What a text was read from: a scalar as it is written, with its quotes, or the lines of a literal block.
#[derive(Clone, Copy)]
pub struct Span {
    pub start: Place,
    pub end: Place,
}

/// The words of a text: a slice of the source, or their own bytes where the source writes them in another way.
#[derive(Drop)]
pub enum Words<'a> {
    Lent(&'a str),
    Owned(String),
}

/// A text, and where the source writes it.
#[derive(Drop)]
pub struct Text<'a> {
    pub words: Words<'a>,
    pub span: Span,
}

impl<'a> Text<'a> {
    /// The text, wherever it lies.
    pub fn as_str(&self) -> &str
        ensures { result.now ≡ bytes_of self.now }
    {
        match &self.words {
            Words::Lent(text) => text,
            Words::Owned(text) => text.as_str(),
        }
    }
}

/// What a text means: a scalar, a list, or a map, whose pairs keep their order.
#[derive(Drop)]
pub enum Tree<'a> {
    Null,
    Bool(bool),
    Int(i64),
    Text(Text<'a>),
    List(Vec<Tree<'a>>),
    Map(Vec<(Text<'a>, Tree<'a>)>),
}
