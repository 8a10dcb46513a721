ghost use Rattle.std.specs.Prelude.{◌≡◌, IfOk, OnOk};
ghost use Rattle.std.specs.FinMap.{empty};
ghost use Rattle.pk_rows.specs.Maps.{Map};
ghost use Rattle.pk_rows.specs.MemoryRows.{map_of};
ghost use Rattle.pk_rows.specs.Edges as edges;

use super::*;
use pk_values::{Bytes, Items, Memory};
use pk_world::{MemoryStation, Station, StoreErr};
use std::alloc::Global;
use std::fmt;
use std::io::Write;
use std::test::Fail;

fn crosses<T: Send + Sync>() {}

#[test]
fn rows_cross_threads() {
    crosses::<Place>();
    crosses::<Stored>();
    crosses::<Batch>();
    crosses::<MemoryRows>();
}

fn place(table: u32, id: u64) -> Place
    ensures { result ≡ edges.place table id }
{
    Place { table, id }
}

fn stored(alloc: Global, table: u32, id: u64, bytes: &[u8]) -> Result<Stored, Memory>
    ensures { IfOk result (λ s. s ≡ edges.stored table id bytes.now) }
{
    let bytes = Bytes::copy(alloc, bytes)?;
    Ok(Stored {
        place: place(table, id),
        bytes,
    })
}

// Puts at places that no base has, too: each is a place like others.
fn first(alloc: Global) -> Result<Batch, Memory>
    ensures { IfOk result (λ b. b ≡ edges.first) }
{
    let mut put = Vec::with_capacity(alloc, 3)?;
    put.push(stored(alloc, 0, 1, b"\x07")?)?;
    put.push(stored(alloc, 1, 1, b"ab")?)?;
    put.push(stored(alloc, 257, 0, b"")?)?;
    Ok(Batch {
        gone: Items::from_vec(Vec::new(alloc)),
        put: Items::from_vec(put),
    })
}

// Takes (1, 1) out, and puts it.
fn second(alloc: Global) -> Result<Batch, Memory>
    ensures { IfOk result (λ b. b ≡ edges.second) }
{
    let gone = Vec::from_slice(alloc, &[place(0, 1), place(1, 1)])?;
    let mut put = Vec::with_capacity(alloc, 2)?;
    put.push(stored(alloc, 1, 1, b"c")?)?;
    put.push(stored(alloc, 1, 2, b"")?)?;
    Ok(Batch {
        gone: Items::from_vec(gone),
        put: Items::from_vec(put),
    })
}

fn third(alloc: Global) -> Result<Batch, Memory>
    ensures { IfOk result (λ b. b ≡ edges.third) }
{
    let gone = Vec::from_slice(alloc, &[place(257, 0)])?;
    Ok(Batch {
        gone: Items::from_vec(gone),
        put: Items::from_vec(Vec::new(alloc)),
    })
}

// The example's batches, one after the other.
fn run_example(
    alloc: Global,
    rows: &mut MemoryRows,
    station: &mut MemoryStation,
) -> Result<(), StoreErr>
    requires { map_of rows.old ≡ empty }
{
    example_is_run();
    let batches = [first(alloc)?, second(alloc)?, third(alloc)?];
    run_batches(rows, station, &batches)
}

fn run_first(
    alloc: Global,
    rows: &mut MemoryRows,
    station: &mut MemoryStation,
) -> Result<(), StoreErr>
    requires { map_of rows.old ≡ empty }
{
    example_is_run();
    let batch = first(alloc)?;
    rows.commit(station, &batch)
}

// What is stored above (0, 0), each with a blank behind it, as a walk of the places finds it.
fn listed<W: Station, R: Rows<W>>(
    alloc: Global,
    rows: &mut R,
    station: &mut W,
) -> Result<Vec<u8>, Fail>
    requires { (m : Map) × R.stands rows.old station.old m }
{
    let mut text = Vec::new(alloc);
    let mut at = place(0, 0);
    for _ in 0..9 {
        let Some(next) = rows.next_after(at) else {
            return Ok(text);
        };
        at = next;
        add(&mut text, next, rows.get(station, next)?)?;
    }
    Ok(text)
}

fn add(text: &mut Vec<u8>, place: Place, bytes: Option<Bytes>) -> Result<(), Fail> {
    write!(text, "{}.{}", place.table, place.id)?;
    if let Some(bytes) = bytes {
        text.push(b'=')?;
        text.extend_from_slice(bytes.as_slice())?;
    }
    text.push(b' ')?;
    Ok(())
}

// The same of rows in memory, which always stand for a map.
fn shown(
    alloc: Global,
    rows: &mut MemoryRows,
    station: &mut MemoryStation,
) -> Result<Vec<u8>, Fail> {
    listed(alloc, rows, station)
}

fn has(rows: &mut MemoryRows, station: &mut MemoryStation, place: Place) -> Result<bool, Fail> {
    Ok(rows.get(station, place)?.is_some())
}

fn checkpoint(rows: &mut MemoryRows, station: &mut MemoryStation) -> Result<(), StoreErr> {
    rows.checkpoint(station)
}

#[test]
fn batches_are_run_in_order(rt: HostRuntime) -> Result<(), Fail> {
    let alloc = rt.alloc();
    let mut station = MemoryStation::new(alloc, b"", b"", &[1])?;
    let mut rows = MemoryRows::new(alloc);
    assert_eq!(rt; run_first(alloc, &mut rows, &mut station), Ok(()));
    let text = shown(alloc, &mut rows, &mut station)?;
    assert_eq!(rt; text.as_slice(), b"0.1=\x07 1.1=ab 257.0= ".as_slice());
    assert_eq!(rt; checkpoint(&mut rows, &mut station), Ok(()));
    let mut rows = MemoryRows::new(alloc);
    assert_eq!(rt; run_example(alloc, &mut rows, &mut station), Ok(()));
    let text = shown(alloc, &mut rows, &mut station)?;
    assert_eq!(rt; text.as_slice(), b"1.1=c 1.2= ".as_slice());
    assert!(rt; !has(&mut rows, &mut station, place(257, 0))?);
    assert!(rt; !has(&mut rows, &mut station, place(0, 1))?);
    assert_eq!(rt; station.calls(), 0);
    Ok(())
}
