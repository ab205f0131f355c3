//! Formulas as the grammar reads them, with slices of the text.

/// What a variable is compared with.
#[derive(Clone, Copy)]
pub enum Operand<'a> {
    /// `null`: no value.
    Null,
    /// A text, without its marks.
    Text(&'a str),
    /// A variable, without its `$`.
    Variable(&'a str),
}

/// How two formulas are joined.
#[derive(Clone, Copy)]
pub enum Join {
    /// `||`: one of the two is true.
    Or,
    /// `&&`: both are true.
    And,
}

/// A formula whose patterns aren't built yet.
#[derive(Drop)]
pub enum Tree<'a> {
    /// Two formulas, joined so.
    Joined(Join, Box<Tree<'a>>, Box<Tree<'a>>),
    /// A formula in parentheses.
    Group(Box<Tree<'a>>),
    /// The variable is defined and not empty.
    Present(&'a str),
    /// The variable has the operand's value; with `true`, it hasn't.
    Equal(bool, &'a str, Operand<'a>),
    /// The pattern with this body is found in the variable, where the last flag lets letters match in either case;
    /// with the first flag `true`, it isn't.
    Found(bool, &'a str, &'a str, bool),
}
