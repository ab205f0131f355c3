//! Why a tree configures nothing.

ghost use Rattle.std.specs.Prelude.{◌≡◌, Some, IfOk};
ghost use Rattle.ci_config.specs.declared.fault.ConfigFault.TheVariants.{Memory};
ghost use Rattle.ci_config.specs.Fault.{number, said};
ghost use Rattle.ci_config.specs.FaultView.{code_view, way_view, read_of, IsWithin};
ghost use Rattle.ci_config.specs.declared.fault.ReadFault.TheVariants as read;

use ci_expr::ExprCode;
use std::alloc::{AllocError, AllocFailed, Global};
use std::fmt;

/// What is wrong with a tree, by the code that a user sees.
#[derive(Clone, Copy)]
pub enum ConfigCode {
    /// The document is no map.
    K1,
    /// A keyword that is left out, by its name.
    K2(&'static str),
    /// An unknown keyword of a job, rule, need, retry or `allow_failure`.
    K3,
    /// A value of the wrong kind, or one that must be there and isn't.
    K4,
    /// A job without a script, or with an empty one.
    K5,
    /// A job's stage isn't among the stages.
    K6,
    /// A stage that is listed twice.
    K7,
    /// An unknown word of `when`.
    K8,
    /// A retry without its number, with one beyond the limit, or with an unknown cause.
    K9,
    /// A text that is no duration, or one too short or too long.
    K10,
    /// One more than the limit allows.
    K11,
    /// A text that can't be the name of a variable.
    K12,
    /// The fault of an expression.
    K13(ExprCode),
    /// `never` outside rules.
    K14,
    /// No job that isn't hidden.
    K15,
    /// A text that must be a name and isn't one.
    K16,
}

impl ConfigCode {
    /// The number of the code: 6 of `K6`.
    pub fn number(self) -> u8
        ensures { result ≡ number (code_view self) }
    {
        match self {
            ConfigCode::K1 => 1,
            ConfigCode::K2(_) => 2,
            ConfigCode::K3 => 3,
            ConfigCode::K4 => 4,
            ConfigCode::K5 => 5,
            ConfigCode::K6 => 6,
            ConfigCode::K7 => 7,
            ConfigCode::K8 => 8,
            ConfigCode::K9 => 9,
            ConfigCode::K10 => 10,
            ConfigCode::K11 => 11,
            ConfigCode::K12 => 12,
            ConfigCode::K13(_) => 13,
            ConfigCode::K14 => 14,
            ConfigCode::K15 => 15,
            ConfigCode::K16 => 16,
        }
    }
}

/// Why a call gives no configuration.
#[derive(Clone, Copy)]
pub enum ConfigFault {
    /// Memory was refused.
    Memory,
    /// The tree configures nothing, for the reason with this code.
    Fault(ConfigCode),
}

/// The way from what is read inwards, to one of its entries: of each list or map on it, how many entries stand before the next.
///
/// A file's has five steps at most: an entry of the file, one of a job, an item of that, an entry of the item, and an entry or item of this.
#[derive(Clone, Copy)]
pub enum Way {
    One(usize),
    Two(usize, usize),
    Three(usize, usize, usize),
    Four(usize, usize, usize, usize),
    Five(usize, usize, usize, usize, usize),
}

impl Way {
    /// Its steps, from without.
    ///
    /// Errors: memory was refused.
    pub fn steps(self, alloc: Global) -> Result<Vec<usize>, AllocError>
        ensures { IfOk result (λ steps. steps.items ≡ way_view self) }
    {
        match self {
            Way::One(a) => Ok(vec![in alloc; a]?),
            Way::Two(a, b) => Ok(vec![in alloc; a, b]?),
            Way::Three(a, b, c) => Ok(vec![in alloc; a, b, c]?),
            Way::Four(a, b, c, d) => Ok(vec![in alloc; a, b, c, d]?),
            Way::Five(a, b, c, d, e) => Ok(vec![in alloc; a, b, c, d, e]?),
        }
    }
}

/// Why a tree configures nothing, and which of its entries is to blame.
#[derive(Clone, Copy)]
pub enum ReadFault {
    /// Memory was refused.
    Memory,
    /// What is read has the fault with this code itself.
    Here(ConfigCode),
    /// An entry inside of what is read has it.
    Inside(ConfigCode, Way),
}

impl ReadFault {
    /// The fault of a list or map, where this one is of its entry behind so many.
    ///
    /// No fault of a file lies deeper than a way leads: where one did, it would be told as that of memory.
    pub fn within(self, before: usize) -> ReadFault
        ensures { IsWithin before self result }
    {
        match self {
            ReadFault::Memory => ReadFault::Memory,
            ReadFault::Here(code) => ReadFault::Inside(code, Way::One(before)),
            ReadFault::Inside(code, Way::One(a)) => ReadFault::Inside(code, Way::Two(before, a)),
            ReadFault::Inside(code, Way::Two(a, b)) => {
                ReadFault::Inside(code, Way::Three(before, a, b))
            }
            ReadFault::Inside(code, Way::Three(a, b, c)) => {
                ReadFault::Inside(code, Way::Four(before, a, b, c))
            }
            ReadFault::Inside(code, Way::Four(a, b, c, d)) => {
                ReadFault::Inside(code, Way::Five(before, a, b, c, d))
            }
            ReadFault::Inside(_, Way::Five(..)) => ReadFault::Memory,
        }
    }
}

impl fmt::Display for ConfigCode {
    ghost output = { λ code. Some (said (code_view code)) };

    fn fmt<W: fmt::Write>(&self, f: &mut fmt::Formatter<W>) -> fmt::Result {
        match self {
            ConfigCode::K1 => write!(f, "K1"),
            ConfigCode::K2(name) => write!(f, "K2 {name}"),
            ConfigCode::K3 => write!(f, "K3"),
            ConfigCode::K4 => write!(f, "K4"),
            ConfigCode::K5 => write!(f, "K5"),
            ConfigCode::K6 => write!(f, "K6"),
            ConfigCode::K7 => write!(f, "K7"),
            ConfigCode::K8 => write!(f, "K8"),
            ConfigCode::K9 => write!(f, "K9"),
            ConfigCode::K10 => write!(f, "K10"),
            ConfigCode::K11 => write!(f, "K11"),
            ConfigCode::K12 => write!(f, "K12"),
            ConfigCode::K13(code) => write!(f, "K13 {code}"),
            ConfigCode::K14 => write!(f, "K14"),
            ConfigCode::K15 => write!(f, "K15"),
            ConfigCode::K16 => write!(f, "K16"),
        }
    }
}

impl From<AllocError> for ConfigFault {
    ghost from_gives = { λ _ e. e ≡ Memory };

    fn from(_refused: AllocError) -> ConfigFault {
        ConfigFault::Memory
    }
}

impl<T: Drop> From<AllocFailed<T>> for ConfigFault {
    ghost from_gives = { λ _ e. e ≡ Memory };

    fn from(_refused: AllocFailed<T>) -> ConfigFault {
        ConfigFault::Memory
    }
}

impl From<ConfigFault> for ReadFault {
    ghost from_gives = { λ fault e. e ≡ read_of fault };

    fn from(fault: ConfigFault) -> ReadFault {
        match fault {
            ConfigFault::Memory => ReadFault::Memory,
            ConfigFault::Fault(code) => ReadFault::Here(code),
        }
    }
}

impl From<AllocError> for ReadFault {
    ghost from_gives = { λ _ e. e ≡ read.Memory };

    fn from(_refused: AllocError) -> ReadFault {
        ReadFault::Memory
    }
}

impl<T: Drop> From<AllocFailed<T>> for ReadFault {
    ghost from_gives = { λ _ e. e ≡ read.Memory };

    fn from(_refused: AllocFailed<T>) -> ReadFault {
        ReadFault::Memory
    }
}
