//! Why a text is no expression.

ghost use Rattle.std.specs.Prelude.{◌≡◌, Some};
ghost use Rattle.ci_expr.specs.declared.fault.ExprFault.TheVariants.{Memory};
ghost use Rattle.ci_expr.specs.Code.{code_of, said};

use std::alloc::{AllocError, AllocFailed};
use std::fmt;

/// What is wrong with a text, by the code that a user sees.
#[derive(Clone, Copy, Debug, PartialEq, Eq)]
pub enum ExprCode {
    /// The text is longer than 1,024 bytes.
    X1,
    /// A character or a word that begins no token.
    X2,
    /// A quoted text or a pattern that doesn't end.
    X3,
    /// A list of tokens that is no formula, the empty one too.
    X4,
    /// Parentheses that don't balance.
    X5,
    /// A pattern that doesn't stand directly after `=~` or `!~`.
    X6,
    /// More than 32 parentheses open at once.
    X7,
    /// A pattern that `regex` refuses, or that takes more than `MAX_PATTERN_BYTES` when it is built.
    X8,
}

impl fmt::Display for ExprCode {
    ghost output = { λ code. Some (code_of code) };

    fn fmt<W: fmt::Write>(&self, f: &mut fmt::Formatter<W>) -> fmt::Result {
        f.write_str(match self {
            ExprCode::X1 => "X1",
            ExprCode::X2 => "X2",
            ExprCode::X3 => "X3",
            ExprCode::X4 => "X4",
            ExprCode::X5 => "X5",
            ExprCode::X6 => "X6",
            ExprCode::X7 => "X7",
            ExprCode::X8 => "X8",
        })
    }
}

/// Why a text was not read.
#[derive(Clone, Copy, Debug, PartialEq, Eq)]
pub enum ExprFault {
    /// Memory was refused.
    Memory,
    /// The text is no expression, for the reason with this code.
    Fault(ExprCode),
}

impl fmt::Display for ExprFault {
    ghost output = { λ fault. Some (said fault) };

    fn fmt<W: fmt::Write>(&self, f: &mut fmt::Formatter<W>) -> fmt::Result {
        match self {
            ExprFault::Memory => write!(f, "memory was refused"),
            ExprFault::Fault(code) => write!(f, "{code}"),
        }
    }
}

impl From<AllocError> for ExprFault {
    ghost from_gives = { λ _ fault. fault ≡ Memory };

    fn from(_refused: AllocError) -> ExprFault {
        ExprFault::Memory
    }
}

impl<T: Drop> From<AllocFailed<T>> for ExprFault {
    ghost from_gives = { λ _ fault. fault ≡ Memory };

    fn from(_refused: AllocFailed<T>) -> ExprFault {
        ExprFault::Memory
    }
}
