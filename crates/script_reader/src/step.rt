// Why a line adds nothing, and the codes of bad lines.
ghost use Rattle.std.specs.Prelude.{◌≡◌};
ghost use Rattle.script_reader.specs.declared.step.StepError.TheVariants.{Code, NoMemory};

use std::alloc::{AllocError, AllocFailed};

/// A byte that may not stand in a line.
pub const NOT_PLAIN: u8 = 1;

/// Another line where `iopmp 1` must stand.
pub const NO_HEAD: u8 = 2;

/// A line that may not stand here.
pub const MISPLACED: u8 = 3;

/// A wrong number of words, or a fixed word that isn't in its place.
pub const MISSHAPEN: u8 = 4;

/// A word that isn't a number.
pub const NOT_A_NUMBER: u8 = 5;

/// A number out of its range.
pub const OUT_OF_RANGE: u8 = 6;

/// A word that isn't a kind.
pub const NOT_A_KIND: u8 = 7;

/// A word that isn't a name.
pub const NOT_A_NAME: u8 = 8;

/// A name that a submission before it has.
pub const TAKEN_NAME: u8 = 9;

/// A name that no submission before it has.
pub const UNKNOWN_NAME: u8 = 10;

/// A unit that isn't there.
pub const ABSENT_UNIT: u8 = 11;

/// Why a line adds nothing: it has a code, or memory ran out.
#[derive(Clone, Copy, Debug, PartialEq, Eq)]
pub enum StepError {
    Code(u8),
    NoMemory,
}

impl From<u8> for StepError {
    ghost from_gives = { λ c e. e ≡ Code c };

    fn from(code: u8) -> StepError {
        StepError::Code(code)
    }
}

impl From<AllocError> for StepError {
    ghost from_gives = { λ _ e. e ≡ NoMemory };

    fn from(_: AllocError) -> StepError {
        StepError::NoMemory
    }
}

impl<T: Drop> From<AllocFailed<T>> for StepError {
    ghost from_gives = { λ _ e. e ≡ NoMemory };

    fn from(_: AllocFailed<T>) -> StepError {
        StepError::NoMemory
    }
}
