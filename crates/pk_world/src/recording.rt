ghost use Rattle.std.specs.Prelude.{◌≡◌, ◌↔◌, ◌+◌, ◌^◌, ◌≤◌, [], ◌∷◌, ◌++◌, length, is_ok, IsTrue, OnOk, OnErr, vec_len, vec_capacity, if◌then◌else◌};
ghost use Rattle.pk_world.specs.Rose.{Rose};

use crate::call::Call;
use crate::station::Failed;

// No file of a station is longer, and no write ends past it.
const MOST_FILE: usize = 1 << 62;

// Whether as many bytes from `at` on end where a file may end.
pub fn fits(at: usize, count: usize) -> bool
    ensures { IsTrue result ↔ (at + count ≤ 2 ^ 62) }
{
    at.saturating_add(count) <= MOST_FILE
}

// Adds a call to the record; whether there was memory for it.
pub fn note(calls: &mut Vec<Call>, call: Call) -> bool
    ensures { calls.new.items ≡ (if result then calls.old.items ++ call ∷ [] else calls.old.items) }
{
    calls.push(call).is_ok()
}

// Appends bytes if it shall. There is room for them.
pub fn extend_if(shall: bool, told: &mut Vec<u8>, bytes: &[u8])
    requires { IsTrue shall → vec_len told.old + length bytes.now ≤ vec_capacity told.old }
    ensures { told.new.items ≡ (if shall then told.old.items ++ bytes.now else told.old.items) }
{
    if shall {
        let _ = told.extend_from_slice(bytes);
    }
}

// The answer of a call that was done or wasn't, which is a fault and is counted.
pub fn answer(done: bool, faults: &mut u64) -> Result<(), Failed>
    ensures done { is_ok result ≡ done }
    ensures count { faults.old ≤ faults.new }
    ensures unfailed { OnOk result (faults.new ≡ faults.old) }
    ensures cause { OnErr result (Rose faults.old faults.new) }
{
    if done {
        return Ok(());
    }
    *faults = faults.saturating_add(1);
    Err(Failed)
}
