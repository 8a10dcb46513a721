use crate::station::Failed;
use pk_values::Memory;
use std::alloc::{AllocError, AllocFailed};

/// Why stored rows couldn't be had.
#[derive(Clone, Copy, Debug, PartialEq, Eq)]
pub enum StoreErr {
    /// The disk failed.
    Disk,
    /// The files hold something else than what was put there.
    Changed,
    /// Memory ran out.
    Memory,
}

impl From<Memory> for StoreErr {
    ghost use Rattle.std.specs.Prelude.{◌≡◌};
    ghost use Rattle.pk_world.specs.declared.store_err.StoreErr.TheVariants as causes;

    ghost from_gives = { λ _ e. e ≡ causes.Memory };

    fn from(_error: Memory) -> StoreErr {
        StoreErr::Memory
    }
}

impl From<AllocError> for StoreErr {
    ghost use Rattle.std.specs.Prelude.{◌≡◌};
    ghost use Rattle.pk_world.specs.declared.store_err.StoreErr.TheVariants as causes;

    ghost from_gives = { λ _ e. e ≡ causes.Memory };

    fn from(_error: AllocError) -> StoreErr {
        StoreErr::Memory
    }
}

impl<T: Drop> From<AllocFailed<T>> for StoreErr {
    ghost use Rattle.std.specs.Prelude.{◌≡◌};
    ghost use Rattle.pk_world.specs.declared.store_err.StoreErr.TheVariants as causes;

    ghost from_gives = { λ _ e. e ≡ causes.Memory };

    fn from(_error: AllocFailed<T>) -> StoreErr {
        StoreErr::Memory
    }
}

impl From<Failed> for StoreErr {
    ghost use Rattle.std.specs.Prelude.{◌≡◌};
    ghost use Rattle.pk_world.specs.declared.store_err.StoreErr.TheVariants as causes;

    ghost from_gives = { λ _ e. e ≡ causes.Disk };

    fn from(_error: Failed) -> StoreErr {
        StoreErr::Disk
    }
}
