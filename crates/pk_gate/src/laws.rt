//! What a log comes to. A law is a contract; its function does nothing.

ghost use Rattle.pk_gate.specs.Laws.{OneList, Counts, ExampleIsHeld};

use pk_world::Station;

/// A file holds at most one list of payloads.
pub fn a_log_has_one_list()
    ensures { OneList }
{}

/// Where a log stands for a list over a station that tells what it holds, it counts its payloads, and knows the length
/// of each.
pub fn counts_are_the_lists<W: Station>(_station: &W)
    ensures { Counts W.Station }
{}

/// Two payloads, as their bytes stand in a file, with the beginning of a third that doesn't count.
pub fn example_is_held()
    ensures { ExampleIsHeld }
{}
