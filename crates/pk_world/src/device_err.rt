use crate::station::Failed;
use pk_values::Memory;
use std::alloc::{AllocError, AllocFailed};

/// Why a call that writes to the disk, or reads from it, couldn't be done.
#[derive(Clone, Copy, Debug, PartialEq, Eq)]
pub enum DeviceErr {
    /// The disk failed.
    Disk,
    /// Memory ran out.
    Memory,
}

impl From<Failed> for DeviceErr {
    ghost use Rattle.std.specs.Prelude.{◌≡◌};
    ghost use Rattle.pk_world.specs.declared.device_err.DeviceErr.TheVariants as causes;

    ghost from_gives = { λ _ e. e ≡ causes.Disk };

    fn from(_error: Failed) -> DeviceErr {
        DeviceErr::Disk
    }
}

impl From<Memory> for DeviceErr {
    ghost use Rattle.std.specs.Prelude.{◌≡◌};
    ghost use Rattle.pk_world.specs.declared.device_err.DeviceErr.TheVariants as causes;

    ghost from_gives = { λ _ e. e ≡ causes.Memory };

    fn from(_error: Memory) -> DeviceErr {
        DeviceErr::Memory
    }
}

impl From<AllocError> for DeviceErr {
    ghost use Rattle.std.specs.Prelude.{◌≡◌};
    ghost use Rattle.pk_world.specs.declared.device_err.DeviceErr.TheVariants as causes;

    ghost from_gives = { λ _ e. e ≡ causes.Memory };

    fn from(_error: AllocError) -> DeviceErr {
        DeviceErr::Memory
    }
}

impl<T: Drop> From<AllocFailed<T>> for DeviceErr {
    ghost use Rattle.std.specs.Prelude.{◌≡◌};
    ghost use Rattle.pk_world.specs.declared.device_err.DeviceErr.TheVariants as causes;

    ghost from_gives = { λ _ e. e ≡ causes.Memory };

    fn from(_error: AllocFailed<T>) -> DeviceErr {
        DeviceErr::Memory
    }
}
