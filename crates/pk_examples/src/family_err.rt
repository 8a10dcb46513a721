use pk_values::{Memory, Sort};
use std::alloc::{AllocError, AllocFailed};

/// Why the examples of a schema couldn't be listed.
#[derive(Clone, Copy, Debug, PartialEq, Eq)]
pub enum FamilyErr {
    /// There are more than 4,096 of this sort already by the first `edge` of the edges, in their order.
    TooMany { sort: Sort, edge: u32 },
    /// Memory ran out.
    Memory,
}

impl From<Memory> for FamilyErr {
    ghost use Rattle.std.specs.Prelude.{◌≡◌};
    ghost use Rattle.pk_examples.specs.declared.family_err.FamilyErr.TheVariants as causes;

    ghost from_gives = { λ _ e. e ≡ causes.Memory };

    fn from(_error: Memory) -> FamilyErr {
        FamilyErr::Memory
    }
}

impl From<AllocError> for FamilyErr {
    ghost use Rattle.std.specs.Prelude.{◌≡◌};
    ghost use Rattle.pk_examples.specs.declared.family_err.FamilyErr.TheVariants as causes;

    ghost from_gives = { λ _ e. e ≡ causes.Memory };

    fn from(_error: AllocError) -> FamilyErr {
        FamilyErr::Memory
    }
}

impl<T: Drop> From<AllocFailed<T>> for FamilyErr {
    ghost use Rattle.std.specs.Prelude.{◌≡◌};
    ghost use Rattle.pk_examples.specs.declared.family_err.FamilyErr.TheVariants as causes;

    ghost from_gives = { λ _ e. e ≡ causes.Memory };

    fn from(_error: AllocFailed<T>) -> FamilyErr {
        FamilyErr::Memory
    }
}
