ghost use Rattle.std.specs.Prelude.{◌≡◌};
ghost use Rattle.pk_logic.specs.Truth.{truth_of, opposite, lesser, greater};

/// What a condition is on a row. `Unknown` is where it would depend on what a null stands for.
#[derive(Clone, Copy, Debug, PartialEq, Eq)]
pub enum Truth {
    False,
    Unknown,
    True,
}

impl Truth {
    // What holds is true, and what doesn't is false.
    pub(crate) fn of(holds: bool) -> Truth
        ensures { result ≡ truth_of holds }
    {
        if holds { Truth::True } else { Truth::False }
    }

    // NOT.
    pub(crate) fn opposite(self) -> Truth
        ensures { result ≡ opposite self }
    {
        match self {
            Truth::False => Truth::True,
            Truth::Unknown => Truth::Unknown,
            Truth::True => Truth::False,
        }
    }

    // AND: the lesser of the two, in the order false, unknown, true.
    pub(crate) fn and(self, other: Truth) -> Truth
        ensures { result ≡ lesser self other }
    {
        match (self, other) {
            (Truth::False, _) | (_, Truth::False) => Truth::False,
            (Truth::True, Truth::True) => Truth::True,
            _ => Truth::Unknown,
        }
    }

    // OR: the greater of the two.
    pub(crate) fn or(self, other: Truth) -> Truth
        ensures { result ≡ greater self other }
    {
        match (self, other) {
            (Truth::True, _) | (_, Truth::True) => Truth::True,
            (Truth::False, Truth::False) => Truth::False,
            _ => Truth::Unknown,
        }
    }
}
