use pk_values::Memory;
use std::alloc::{AllocError, AllocFailed};
use std::error::Error;
use std::fmt;

/// Why a page wasn't read.
#[derive(Clone, Copy, Debug, PartialEq, Eq)]
pub enum SheetErr {
    /// The page holds no sheet.
    Bad,
    /// Memory ran out. It may come at any page.
    Memory,
}

impl fmt::Display for SheetErr {
    ghost use Rattle.std.specs.Prelude.{Some};
    ghost use Rattle.pk_sheet.specs.Errors.{error_text};

    ghost output = { λ e. Some (error_text e) };

    fn fmt<W: fmt::Write>(&self, f: &mut fmt::Formatter<W>) -> fmt::Result {
        match self {
            SheetErr::Bad => f.write_str("no sheet"),
            SheetErr::Memory => f.write_str("out of memory"),
        }
    }
}

impl Error for SheetErr {}

impl From<Memory> for SheetErr {
    ghost use Rattle.std.specs.Prelude.{◌≡◌};
    ghost use Rattle.pk_sheet.specs.declared.sheet_err.SheetErr.TheVariants as causes;

    ghost from_gives = { λ _ e. e ≡ causes.Memory };

    fn from(_error: Memory) -> SheetErr {
        SheetErr::Memory
    }
}

impl From<AllocError> for SheetErr {
    ghost use Rattle.std.specs.Prelude.{◌≡◌};
    ghost use Rattle.pk_sheet.specs.declared.sheet_err.SheetErr.TheVariants as causes;

    ghost from_gives = { λ _ e. e ≡ causes.Memory };

    fn from(_error: AllocError) -> SheetErr {
        SheetErr::Memory
    }
}

impl<T: Drop> From<AllocFailed<T>> for SheetErr {
    ghost use Rattle.std.specs.Prelude.{◌≡◌};
    ghost use Rattle.pk_sheet.specs.declared.sheet_err.SheetErr.TheVariants as causes;

    ghost from_gives = { λ _ e. e ≡ causes.Memory };

    fn from(_error: AllocFailed<T>) -> SheetErr {
        SheetErr::Memory
    }
}
