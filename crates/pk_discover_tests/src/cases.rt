//! Keys of small tables. A case is a line: rows, columns, and what is told, with bars between.

use crate::spelled::{assert_told, cut, rows, set_of, told_keys};
use pk_sweep::NoMeet;
use std::test::Fail;

const KEYS: &[u8] = b"\
 | 01 | ()/()
12 | 01 | ()/()
-- | 01 | ()/()
12 12 | 01 | /
1- 1- | 01 | /(1)
-- -- | 01 | /(0)(1)
-- -- -- | 01 | /(0)(1)
12 12 12 | 0 | /
12 34 | | /
12 34 | 0 | (0)/(0)
12 34 | 1 | (1)/(1)
12 34 | 01 | (0)(1)/(0)(1)
12 1- | 01 | /(1)
12 -2 | 01 | /(0)
12 21 11 | 01 | (01)/(01)
12 21 1- | 01 | /(1)
12 21 -- | 01 | /(0)(1)
123 124 133 | 012 | (12)/(12)
15- 1-6 2-- | 012 | /(1)(2)
000 011 101 110 | 012 | (01)(02)(12)/(01)(02)(12)
00 0- 1- | 01 | /(1)
0010000000000000000000000000000- 00000000000000000000000000000001 | 2v | (2)/(2)(v)";

#[test]
fn minimal_keys_are_told(rt: HostRuntime) -> Result<(), Fail> {
    let alloc = rt.alloc();
    for case in KEYS.split(|byte| *byte == b'\n') {
        let (words, rest) = cut(case);
        let (columns, want) = cut(rest);
        let rows = rows(alloc, words)?;
        let told = told_keys(&rt, alloc, rows.as_slice(), set_of(columns), &NoMeet)?;
        assert_told(&rt, case, told.as_slice(), want);
    }
    Ok(())
}
