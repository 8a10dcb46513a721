//! Sets in which rows differ, and minimal sets that meet others. A case is a line, with bars between its parts.

use crate::spelled::{assert_told, cut, rows, set_of, tell_sets, told_sets};
use pk_sweep::NoMeet;
use pk_transversal::{TransErr, minimal};
use pk_values::{ColSet, Memory};
use std::alloc::Global;
use std::io::Write;
use std::test::Fail;

// Rows, columns, and the sets in which two rows are apart and in which they aren't the same.
const SWEPT: &[u8] = b"\
 | 01 | /
1- | 01 | /
1- 1- | 01 | ()/(1)
12 12 | 01 | ()/()
-- -- | 01 | ()/(01)
12 1- 22 | 01 | ()(0)/(0)(1)(01)
12 34 | | ()/()
12 34 56 12 | 01 | ()(01)/()(01)";

#[test]
fn pairs_are_swept(rt: HostRuntime) -> Result<(), Fail> {
    let alloc = rt.alloc();
    for case in SWEPT.split(|byte| *byte == b'\n') {
        let (words, rest) = cut(case);
        let (columns, want) = cut(rest);
        let rows = rows(alloc, words)?;
        let told = told_sets(&rt, alloc, rows.as_slice(), set_of(columns), &NoMeet)?;
        assert_told(&rt, case, told.as_slice(), want);
    }
    Ok(())
}

// Edges, and the minimal sets that meet them all, or the number of edges at which these are more than 4.
const MET: &[u8] = b"\
 | ()
. |
01 . |
02 | (0)(2)
01 12 | (1)(02)
01 01 | (0)(1)
01 02 12 | (01)(02)(12)
03 13 23 | (3)(012)
v u | (uv)
01 23 | (02)(03)(12)(13)
01 23 45 | at 3
01234 | at 1
01 23 02 | (02)(03)(12)";

#[test]
fn minimal_sets_meet_all_edges(rt: HostRuntime) -> Result<(), Fail> {
    let alloc = rt.alloc();
    for case in MET.split(|byte| *byte == b'\n') {
        let (words, want) = cut(case);
        let edges = edges(alloc, words)?;
        let told = told_minimal(alloc, edges.as_slice())?;
        assert_told(&rt, case, told.as_slice(), want);
    }
    Ok(())
}

// The sets of these words; a dot is the empty one.
fn edges(alloc: Global, words: &[u8]) -> Result<Vec<ColSet>, Memory> {
    let mut edges = Vec::new(alloc);
    for word in words.split(|byte| *byte == b' ') {
        add_edge(&mut edges, word)?;
    }
    Ok(edges)
}

fn add_edge(edges: &mut Vec<ColSet>, word: &[u8]) -> Result<(), Memory> {
    match word {
        b"" => {}
        b"." => edges.push(ColSet::empty())?,
        _ => edges.push(set_of(word))?,
    }
    Ok(())
}

fn told_minimal(alloc: Global, edges: &[ColSet]) -> Result<Vec<u8>, Memory> {
    let mut text = Vec::new(alloc);
    match minimal(alloc, edges, 4) {
        Ok(sets) => tell_sets(&mut text, sets.as_slice())?,
        Err(why) => tell_why(&mut text, why)?,
    }
    Ok(text)
}

fn tell_why(text: &mut Vec<u8>, why: TransErr) -> Result<(), Memory> {
    match why {
        TransErr::TooMany { edge } => write!(text, "at {edge}").map_err(|_| Memory),
        TransErr::Memory => Err(Memory),
    }
}
