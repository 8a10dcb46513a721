/// What a pull gave.
#[derive(Clone, Copy, Debug, PartialEq, Eq)]
pub enum Pull {
    /// So many bytes, at least one.
    Got(usize),
    /// There are no more bytes.
    End,
    /// The source couldn't say; a later pull may.
    Failed,
}

/// Where a script comes from, a few bytes at a time.
pub trait Source {
    ghost use Rattle.std.specs.Prelude.{◌≡◌, ℕ, ◌<◌, ◌≤◌, Bool, IsTrue, List, [], ◌++◌, length, take, drop};
    ghost use Rattle.pk_world.specs.Pull.{IfGot, OnEnd, OnFailed, UnlessGot, UnlessFailed};
    ghost use Rattle.pk_world.specs.Rose.{Rose};

    /// Whether it tells which bytes it still has.
    ghost tells: { Self → Bool };

    /// The bytes still to come, where it tells them.
    ghost rest: { Self → List ℕ };

    /// How many pulls have failed, up to the greatest u64.
    ghost faults: { Self → ℕ };

    /// Puts the next bytes to the front of `room`, and leaves the room behind them as it was.
    fn pull(&mut self, room: &mut [u8]) -> Pull
        requires { 0 < length room.old }
        // One that tells its bytes goes on to tell them.
        ensures tells { IsTrue (tells self.old) → IsTrue (tells self.new) }

        // How many bytes came, and which.
        ensures some { IfGot result (λ n. 0 < n) }
        ensures within { IfGot result (λ n. n ≤ length room.old) }
        ensures next { IfGot result (λ n. IsTrue (tells self.old) → rest self.old ≡ take n room.new ++ rest self.new) }
        ensures behind { IfGot result (λ n. drop n room.new ≡ drop n room.old) }

        // The end comes where nothing is left; nothing changes there and at a fault.
        ensures end { OnEnd result (IsTrue (tells self.old) → rest self.old ≡ []) }
        ensures stays { UnlessGot result (IsTrue (tells self.old) → rest self.new ≡ rest self.old) }
        ensures room { UnlessGot result (room.new ≡ room.old) }

        // A fault is counted, and nothing else is.
        ensures count { faults self.old ≤ faults self.new }
        ensures unfailed { UnlessFailed result (faults self.new ≡ faults self.old) }
        ensures cause { OnFailed result (Rose (faults self.old) (faults self.new)) };
}
