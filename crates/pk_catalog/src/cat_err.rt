use pk_values::Memory;
use std::alloc::{AllocError, AllocFailed};
use std::error::Error;
use std::fmt;

/// Why a record wasn't read.
#[derive(Clone, Copy, Debug, PartialEq, Eq)]
pub enum CatErr {
    /// The bytes are no such record.
    Bad,
    /// Memory ran out. It may come at any bytes.
    Memory,
}

impl fmt::Display for CatErr {
    ghost use Rattle.std.specs.Prelude.{Some};
    ghost use Rattle.pk_catalog.specs.Errors.{error_text};

    ghost output = { λ e. Some (error_text e) };

    fn fmt<W: fmt::Write>(&self, f: &mut fmt::Formatter<W>) -> fmt::Result {
        match self {
            CatErr::Bad => f.write_str("no such record"),
            CatErr::Memory => f.write_str("out of memory"),
        }
    }
}

impl Error for CatErr {}

impl From<Memory> for CatErr {
    ghost use Rattle.std.specs.Prelude.{◌≡◌};
    ghost use Rattle.pk_catalog.specs.declared.cat_err.CatErr.TheVariants as causes;

    ghost from_gives = { λ _ e. e ≡ causes.Memory };

    fn from(_error: Memory) -> CatErr {
        CatErr::Memory
    }
}

impl From<AllocError> for CatErr {
    ghost use Rattle.std.specs.Prelude.{◌≡◌};
    ghost use Rattle.pk_catalog.specs.declared.cat_err.CatErr.TheVariants as causes;

    ghost from_gives = { λ _ e. e ≡ causes.Memory };

    fn from(_error: AllocError) -> CatErr {
        CatErr::Memory
    }
}

impl<T: Drop> From<AllocFailed<T>> for CatErr {
    ghost use Rattle.std.specs.Prelude.{◌≡◌};
    ghost use Rattle.pk_catalog.specs.declared.cat_err.CatErr.TheVariants as causes;

    ghost from_gives = { λ _ e. e ≡ causes.Memory };

    fn from(_error: AllocFailed<T>) -> CatErr {
        CatErr::Memory
    }
}
