ghost use Rattle.std.specs.Prelude.{◌≡◌};
ghost use Rattle.pk_parse.specs.declared.miss.Miss.TheVariants.{Memory};

use pk_lex::Token;
use pk_values::Memory;
use std::alloc::{AllocError, AllocFailed};

/// What tokens begin with and the tokens behind it, or why it wasn't read.
pub(crate) type Parsed<'a, T> = Result<(T, &'a [Token]), Miss>;

/// Why tokens weren't read as what was asked for.
#[derive(Clone, Copy, Debug, PartialEq, Eq)]
pub(crate) enum Miss {
    /// They don't begin so.
    NotStatement,
    /// Memory ran out.
    Memory,
}

impl From<Memory> for Miss {
    ghost from_gives = { λ _ miss. miss ≡ Memory };

    fn from(_error: Memory) -> Miss {
        Miss::Memory
    }
}

impl From<AllocError> for Miss {
    ghost from_gives = { λ _ miss. miss ≡ Memory };

    fn from(_error: AllocError) -> Miss {
        Miss::Memory
    }
}

impl<T: Drop> From<AllocFailed<T>> for Miss {
    ghost from_gives = { λ _ miss. miss ≡ Memory };

    fn from(_error: AllocFailed<T>) -> Miss {
        Miss::Memory
    }
}
