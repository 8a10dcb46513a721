use crate::station::Failed;
use pk_values::Memory;
use std::alloc::{AllocError, AllocFailed};

/// Why files couldn't be opened.
#[derive(Clone, Copy, Debug, PartialEq, Eq)]
pub enum OpenErr {
    /// The disk failed.
    Disk,
    /// The files hold something else than what such files may hold.
    Bad,
    /// Memory ran out.
    Memory,
}

impl From<Failed> for OpenErr {
    ghost use Rattle.std.specs.Prelude.{◌≡◌};
    ghost use Rattle.pk_world.specs.declared.open_err.OpenErr.TheVariants as causes;

    ghost from_gives = { λ _ e. e ≡ causes.Disk };

    fn from(_error: Failed) -> OpenErr {
        OpenErr::Disk
    }
}

impl From<Memory> for OpenErr {
    ghost use Rattle.std.specs.Prelude.{◌≡◌};
    ghost use Rattle.pk_world.specs.declared.open_err.OpenErr.TheVariants as causes;

    ghost from_gives = { λ _ e. e ≡ causes.Memory };

    fn from(_error: Memory) -> OpenErr {
        OpenErr::Memory
    }
}

impl From<AllocError> for OpenErr {
    ghost use Rattle.std.specs.Prelude.{◌≡◌};
    ghost use Rattle.pk_world.specs.declared.open_err.OpenErr.TheVariants as causes;

    ghost from_gives = { λ _ e. e ≡ causes.Memory };

    fn from(_error: AllocError) -> OpenErr {
        OpenErr::Memory
    }
}

impl<T: Drop> From<AllocFailed<T>> for OpenErr {
    ghost use Rattle.std.specs.Prelude.{◌≡◌};
    ghost use Rattle.pk_world.specs.declared.open_err.OpenErr.TheVariants as causes;

    ghost from_gives = { λ _ e. e ≡ causes.Memory };

    fn from(_error: AllocFailed<T>) -> OpenErr {
        OpenErr::Memory
    }
}
