use pk_values::{Memory, Sort};

/// Why no keys are told.
#[derive(Clone, Copy, Debug, PartialEq, Eq)]
pub enum DiscErr {
    /// There are `n` rows, which are more than 8,192.
    TooManyRows { n: usize },
    /// Take the sets of columns in which two rows are apart (for certain keys) or aren't the same (for
    /// possible ones), leave out those that contain another, and order the others. The first `edge` of
    /// these have more than 4,096 minimal transversals, and no fewer of them have.
    TooMany { sort: Sort, edge: u32 },
    /// Memory ran out.
    Memory,
}

impl From<Memory> for DiscErr {
    ghost use Rattle.std.specs.Prelude.{◌≡◌};
    ghost use Rattle.pk_discover.specs.declared.disc_err.DiscErr.TheVariants as causes;

    ghost from_gives = { λ _ e. e ≡ causes.Memory };

    fn from(_error: Memory) -> DiscErr {
        DiscErr::Memory
    }
}
