//! Every reply and every refusal by its bytes: the definition of their texts, computed.

ghost use Rattle.pk_report.specs.Spelled.{RepliesAreSpelled, RefusalsAreSpelled};

/// Each reply shows as the lines that stand beside it.
pub fn replies_are_spelled()
    ensures { RepliesAreSpelled }
{}

/// Each refusal shows as the line that stands beside it.
pub fn refusals_are_spelled()
    ensures { RefusalsAreSpelled }
{}
