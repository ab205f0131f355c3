//! Why a text has no tree.

ghost use Rattle.std.specs.Prelude.{◌≡◌, Some};
ghost use Rattle.ci_yaml.specs.declared.fault.Stop.TheVariants.{Memory};
ghost use Rattle.ci_yaml.specs.declared.fault.YamlFault.TheVariants.{Memory as Refused};
ghost use Rattle.ci_yaml.specs.FaultText.{fault_text};

use ci_yaml_lines::code::Code;
use std::alloc::{AllocError, AllocFailed};
use std::fmt;

/// Why a text was not read.
#[derive(Drop)]
pub enum YamlFault {
    /// Memory was refused.
    Memory,
    /// The code that holds of the first line that cannot follow the lines before it, and that line, counted from 1.
    Fault(Code, usize),
}

impl fmt::Display for YamlFault {
    ghost output = { λ e. Some (fault_text e) };

    fn fmt<W: fmt::Write>(&self, f: &mut fmt::Formatter<W>) -> fmt::Result {
        match self {
            YamlFault::Memory => write!(f, "memory was refused"),
            YamlFault::Fault(code, line) => {
                let number = code.number();
                write!(f, "Y{number} line {line}")
            }
        }
    }
}

impl From<AllocError> for YamlFault {
    ghost from_gives = { λ _ e. e ≡ Refused };

    fn from(_e: AllocError) -> YamlFault {
        YamlFault::Memory
    }
}

/// Why the reading of a line stops.
#[derive(Drop)]
pub enum Stop {
    Memory,
    Fault(Code),
}

impl From<AllocError> for Stop {
    ghost from_gives = { λ _ e. e ≡ Memory };

    fn from(_e: AllocError) -> Stop {
        Stop::Memory
    }
}

impl<T: Drop> From<AllocFailed<T>> for Stop {
    ghost from_gives = { λ _ e. e ≡ Memory };

    fn from(_e: AllocFailed<T>) -> Stop {
        Stop::Memory
    }
}
