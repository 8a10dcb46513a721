ghost use Rattle.std.specs.Prelude.{◌≡◌, ◌<◌, ◌≤◌, ◌+◌, ◌-◌, ◌^◌, min, vec_len, IfOk};

use crate::source::{Pull, Source};
use pk_values::Memory;
use std::alloc::Global;

/// A source over bytes in memory, for tests. It tells its bytes.
#[derive(Debug, Drop)]
pub struct MemorySource {
    bytes: Vec<u8>,
    at: usize,
    step: usize,
    failing: Vec<u64>,
    calls: u64,
    faults: u64,
    ghost within: { at ≤ vec_len bytes },
    ghost moves: { 0 < step },
}

impl MemorySource {
    ghost use Rattle.pk_world.specs.MemorySource.{bytes_left, step_of, failing_pulls, pull_count, fault_count};
    ghost use Rattle.pk_world.specs.Listed.{is_listed};

    /// A source of these bytes, which come `step` at a time. The pulls whose numbers, counted from 1,
    /// stand in `failing` fail.
    pub fn new(
        alloc: Global,
        bytes: &[u8],
        step: usize,
        failing: &[u64],
    ) -> Result<MemorySource, Memory>
        requires { 0 < step }
        ensures bytes { IfOk result (λ s. bytes_left s ≡ bytes.now) }
        ensures step { IfOk result (λ s. step_of s ≡ step) }
        ensures failing { IfOk result (λ s. failing_pulls s ≡ failing.now) }
        ensures pulls { IfOk result (λ s. pull_count s ≡ 0) }
        ensures faults { IfOk result (λ s. fault_count s ≡ 0) }
    {
        Ok(MemorySource {
            bytes: Vec::from_slice(alloc, bytes)?,
            at: 0,
            step,
            failing: Vec::from_slice(alloc, failing)?,
            calls: 0,
            faults: 0,
        })
    }

    // Counts a pull; whether it is one of those that fail.
    fn fails_now(&mut self) -> bool
        ensures count { pull_count self.new ≡ min (pull_count self.old + 1) (2 ^ 64 - 1) }
        ensures listed { result ≡ is_listed (failing_pulls self.old) (pull_count self.new) }
        ensures bytes { bytes_left self.new ≡ bytes_left self.old }
        ensures step { step_of self.new ≡ step_of self.old }
        ensures failing { failing_pulls self.new ≡ failing_pulls self.old }
        ensures faults { fault_count self.new ≡ fault_count self.old }
    {
        self.calls = self.calls.saturating_add(1);
        self.failing.contains(&self.calls)
    }

    /// How many pulls have failed.
    pub fn faults(&self) -> u64
        ensures { result ≡ fault_count self.now }
    {
        self.faults
    }
}

impl Source for MemorySource {
    ghost use Rattle.std.specs.Prelude.{◌≡◌, ◌+◌, ◌-◌, ◌^◌, ◌<◌, ◌≤◌, ◌++◌, true, [], length, min, take, drop};
    ghost use Rattle.pk_world.specs.Listed.{is_listed};
    ghost use Rattle.pk_world.specs.MemorySource.{bytes_left, step_of, failing_pulls, pull_count, fault_count};
    ghost use Rattle.pk_world.specs.Pull.{IfGot, OnEnd, OnFailed, UnlessGot, UnlessFailed, has_failed};
    ghost use Rattle.pk_world.specs.Rose.{Rose};

    ghost tells = { λ _. true };

    ghost rest = { bytes_left };

    ghost faults = { fault_count };

    /// Fails exactly where the number of the pull is listed, and else gives as many bytes as a step, the room
    /// and the bytes left allow.
    fn pull(&mut self, room: &mut [u8]) -> Pull
        requires { 0 < length room.old }
        ensures fails { has_failed result ≡ is_listed (failing_pulls self.old) (pull_count self.new) }
        ensures number { pull_count self.new ≡ min (pull_count self.old + 1) (2 ^ 64 - 1) }
        ensures failing { failing_pulls self.new ≡ failing_pulls self.old }
        ensures step { step_of self.new ≡ step_of self.old }
        ensures most { IfGot result (λ n. n ≡ min (min (length (bytes_left self.old)) (step_of self.old)) (length room.old)) }
        ensures some { IfGot result (λ n. 0 < n) }
        ensures next { IfGot result (λ n. bytes_left self.old ≡ take n room.new ++ bytes_left self.new) }
        ensures behind { IfGot result (λ n. drop n room.new ≡ drop n room.old) }
        ensures end { OnEnd result (bytes_left self.old ≡ []) }
        ensures stays { UnlessGot result (bytes_left self.new ≡ bytes_left self.old) }
        ensures room { UnlessGot result (room.new ≡ room.old) }
        ensures count { fault_count self.old ≤ fault_count self.new }
        ensures unfailed { UnlessFailed result (fault_count self.new ≡ fault_count self.old) }
        ensures cause { OnFailed result (Rose (fault_count self.old) (fault_count self.new)) }
    {
        if self.fails_now() {
            self.faults = self.faults.saturating_add(1);
            return Pull::Failed;
        }
        let left = self.bytes.len() - self.at;
        if left == 0 {
            return Pull::End;
        }
        let count = left.min(self.step).min(room.len());
        let front = &mut room[..count];
        front.copy_from_slice(&self.bytes[self.at..self.at + count]);
        self.at += count;
        Pull::Got(count)
    }
}
