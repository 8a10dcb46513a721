ghost use Rattle.std.specs.Prelude.{◌≡◌};
ghost use Rattle.pk_logic.specs.Laws.{is_true};
ghost use Rattle.pk_exec.specs.Edits.{takes};
ghost use Rattle.pk_exec.specs.Fates.{CanJudge};

use pk_logic::{Cond, Truth, judge};
use pk_values::Row;

/// Whether the row meets the condition, where there is one. What is unknown isn't met.
pub(crate) fn takes(cond: &Option<Cond>, row: &Row) -> bool
    requires { CanJudge cond.now row.now }
    ensures { result ≡ takes cond.now row.now }
{
    match cond {
        None => true,
        Some(cond) => is_true(judge(cond, row)),
    }
}

fn is_true(truth: Truth) -> bool
    ensures { result ≡ is_true truth }
{
    match truth {
        Truth::True => true,
        Truth::False | Truth::Unknown => false,
    }
}
