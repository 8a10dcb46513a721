//! That both halves of a sweep run at once.

use crate::spelled::{assert_told, of_values, set_of, told_keys, told_sets};
use pk_discover::{DiscErr, Keys};
use pk_sweep::{Meet, Sets};
use pk_values::{Memory, Row, Value};
use std::alloc::Global;
use std::sync::atomic::{AtomicBool, Ordering};
use std::test::Fail;

// Two halves that wait for each other, and which of them saw the other.
#[derive(Drop)]
struct Both {
    first: AtomicBool,
    second: AtomicBool,
    first_saw: AtomicBool,
    second_saw: AtomicBool,
}

impl Both {
    fn new() -> Both {
        Both {
            first: AtomicBool::new(false),
            second: AtomicBool::new(false),
            first_saw: AtomicBool::new(false),
            second_saw: AtomicBool::new(false),
        }
    }

    fn have_met(&self) -> bool {
        self.first_saw.load(Ordering::SeqCst) && self.second_saw.load(Ordering::SeqCst)
    }
}

impl Meet for Both {
    fn enter(&self, half: u32) {
        if half == 0 {
            meet(&self.first, &self.second, &self.first_saw);
        } else {
            meet(&self.second, &self.first, &self.second_saw);
        }
    }
}

// Shows itself, and then waits for the other.
fn meet(own: &AtomicBool, other: &AtomicBool, saw: &AtomicBool) {
    own.store(true, Ordering::SeqCst);
    saw.store(is_seen(other), Ordering::SeqCst);
}

fn is_seen(other: &AtomicBool) -> bool {
    for _ in 0..1_000_000_000u32 {
        if other.load(Ordering::SeqCst) {
            return true;
        }
    }
    false
}

// The rows (1) to (4096).
fn numbers(alloc: Global) -> Result<Vec<Row>, Memory> {
    let mut rows = Vec::new(alloc);
    for n in 1..=4_096i64 {
        rows.push(row(alloc, n)?)?;
    }
    Ok(rows)
}

fn row(alloc: Global, n: i64) -> Result<Row, Memory> {
    let mut values = Vec::new(alloc);
    values.push(Value::Integer(n))?;
    Ok(of_values(alloc, values))
}

#[test]
fn halves_of_a_sweep_meet(rt: HostRuntime) -> Result<(), Fail> {
    let alloc = rt.alloc();
    let rows = numbers(alloc)?;
    let both = Both::new();
    let told = told_sets(&rt, alloc, rows.as_slice(), set_of(b"0"), &both)?;
    assert_told(&rt, b"a sweep", told.as_slice(), b"(0)/(0)");
    assert!(rt; both.have_met());
    Ok(())
}

#[test]
fn halves_of_a_discovery_meet(rt: HostRuntime) -> Result<(), Fail> {
    let alloc = rt.alloc();
    let rows = numbers(alloc)?;
    let both = Both::new();
    let told = told_keys(&rt, alloc, rows.as_slice(), set_of(b"0"), &both)?;
    assert_told(&rt, b"a discovery", told.as_slice(), b"(0)/(0)");
    assert!(rt; both.have_met());
    Ok(())
}

fn crosses<T: Send + Sync>() {}

#[test]
fn keys_cross_threads(_rt: HostRuntime) {
    crosses::<Keys>();
    crosses::<Sets>();
    crosses::<DiscErr>();
}
