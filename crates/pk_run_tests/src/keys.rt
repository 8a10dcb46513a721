//! Keys, judged and reasoned about.

use crate::running::{NOTHING, assert_answered, repeat, run};
use std::test::Fail;

// A certain key is broken where some completion has two rows agree, a possible one where each has.
const COMPLETIONS: &[u8] = b"\
CREATE TABLE t (a INT, b INT, CERTAIN KEY (a, b)); INSERT INTO t VALUES (1, NULL);
INSERT INTO t VALUES (NULL, 2); SELECT COUNT(*) FROM t;
~created t
inserted 1
refused: certain key 1 of t: rows 1 and 2 agree in the completion (1, 2)
count
1
rows 1
#CREATE TABLE t (a INT, b INT, POSSIBLE KEY (a, b)); INSERT INTO t VALUES (1, NULL);
INSERT INTO t VALUES (NULL, 2); INSERT INTO t VALUES (1, 2); INSERT INTO t VALUES (1, 2);
~created t
inserted 1
inserted 1
inserted 1
refused: possible key 1 of t: rows 3 and 4 agree on (1, 2)
#CREATE TABLE t (a INT, b INT, POSSIBLE KEY (a, b)); INSERT INTO t VALUES (NULL, NULL);
INSERT INTO t VALUES (NULL, NULL);
~created t
inserted 1
inserted 1
#CREATE TABLE t (a INT, b TEXT, CERTAIN KEY (a, b)); INSERT INTO t VALUES (NULL, NULL);
INSERT INTO t VALUES (NULL, NULL);
~created t
inserted 1
refused: certain key 1 of t: rows 1 and 2 agree in the completion (0, '')
";

#[test]
fn keys_are_judged_over_completions(rt: HostRuntime) -> Result<(), Fail> {
    assert_answered(&rt, rt.alloc(), NOTHING, COMPLETIONS)
}

// A key over no column allows one row.
const EMPTY_KEYS: &[u8] = b"\
CREATE TABLE t (a INT, CERTAIN KEY ()); INSERT INTO t VALUES (1); INSERT INTO t VALUES (2); DELETE FROM t;
INSERT INTO t VALUES (2);
~created t
inserted 1
refused: certain key 1 of t: rows 1 and 2 agree in the completion ()
deleted 1
inserted 1
#CREATE TABLE t (a INT, POSSIBLE KEY ()); INSERT INTO t VALUES (NULL), (NULL);
~created t
refused: possible key 1 of t: rows 1 and 2 agree on ()
";

#[test]
fn an_empty_key_allows_one_row(rt: HostRuntime) -> Result<(), Fail> {
    assert_answered(&rt, rt.alloc(), NOTHING, EMPTY_KEYS)
}

// NOT NULL comes before the keys, whatever gives the null; UNIQUE lets nulls through.
const NULLS: &[u8] = b"\
CREATE TABLE t (a INT NOT NULL, b INT); INSERT INTO t (b) VALUES (1); INSERT INTO t VALUES (NULL, 1);
INSERT INTO t VALUES (2, 1); UPDATE t SET a = NULL; SELECT * FROM t;
~created t
refused: null in column a
refused: null in column a
inserted 1
refused: null in column a
a|b
2|1
rows 1
#CREATE TABLE t (a INT PRIMARY KEY, b INT, CERTAIN KEY (b)); INSERT INTO t VALUES (1, 2);
INSERT INTO t VALUES (NULL, 2); INSERT INTO t VALUES (1, 3);
~created t
inserted 1
refused: null in column a
refused: certain key 1 of t: rows 1 and 2 agree in the completion (1)
#CREATE TABLE t (s TEXT UNIQUE); INSERT INTO t VALUES ('x'), (NULL), (NULL); INSERT INTO t VALUES ('x');
SELECT COUNT(*) FROM t;
~created t
inserted 3
refused: possible key 1 of t: rows 1 and 4 agree on ('x')
count
3
rows 1
";

#[test]
fn nulls_are_judged_as_declared(rt: HostRuntime) -> Result<(), Fail> {
    assert_answered(&rt, rt.alloc(), NOTHING, NULLS)
}

// Rows of one statement may break a key among themselves; of all breaks the least is told, and no id is used up.
const BREAKS: &[u8] = b"\
CREATE TABLE t (a INT, CERTAIN KEY (a)); INSERT INTO t VALUES (5), (6), (5);
INSERT INTO t VALUES (3), (1), (3), (1); INSERT INTO t VALUES (5); INSERT INTO t VALUES (6), (5);
~created t
refused: certain key 1 of t: rows 1 and 3 agree in the completion (5)
refused: certain key 1 of t: rows 1 and 3 agree in the completion (3)
inserted 1
refused: certain key 1 of t: rows 1 and 3 agree in the completion (5)
#CREATE TABLE t (a INT UNIQUE, b INT, CERTAIN KEY (b)); INSERT INTO t VALUES (1, 1), (2, 2);
INSERT INTO t VALUES (2, 1); INSERT INTO t VALUES (NULL, 2);
~created t
inserted 2
refused: possible key 1 of t: rows 2 and 3 agree on (2)
refused: certain key 2 of t: rows 2 and 3 agree in the completion (2)
#CREATE TABLE t (a INT, CERTAIN KEY (a), CERTAIN KEY (a)); INSERT INTO t VALUES (1); INSERT INTO t VALUES (1);
~created t
inserted 1
refused: certain key 1 of t: rows 1 and 2 agree in the completion (1)
";

#[test]
fn the_least_break_is_told(rt: HostRuntime) -> Result<(), Fail> {
    assert_answered(&rt, rt.alloc(), NOTHING, BREAKS)
}

// A row that is set or goes stands in nobody's way.
const CHANGED: &[u8] = b"\
CREATE TABLE t (a INT, b INT, CERTAIN KEY (a), CERTAIN KEY (b)); INSERT INTO t VALUES (1, 2);
UPDATE t SET a = 2, b = 1; SELECT * FROM t;
~created t
inserted 1
updated 1
a|b
2|1
rows 1
#CREATE TABLE t (a INT, b INT, CERTAIN KEY (a)); INSERT INTO t VALUES (1, 1), (2, 1), (3, 2);
UPDATE t SET a = 7 WHERE b = 1; UPDATE t SET a = NULL WHERE b = 2; DELETE FROM t WHERE b = 1;
UPDATE t SET a = NULL; SELECT * FROM t;
~created t
inserted 3
refused: certain key 1 of t: rows 1 and 2 agree in the completion (7)
refused: certain key 1 of t: rows 1 and 3 agree in the completion (1)
deleted 2
updated 1
a|b
NULL|2
rows 1
";

#[test]
fn rows_are_judged_as_they_would_be(rt: HostRuntime) -> Result<(), Fail> {
    assert_answered(&rt, rt.alloc(), NOTHING, CHANGED)
}

// A certain key has at most five columns that may be null, wherever NOT NULL stands. The canonical text reads back
// as the same table.
const DECLARED: &[u8] = b"\
CREATE TABLE t (a INT, b INT, c INT, d INT, e INT, CERTAIN KEY (a, b, c, d, e));
~created t
#CREATE TABLE t (a INT, b INT, c INT, d INT, e INT, f INT, CERTAIN KEY (a, b, c, d, e, f));
CREATE TABLE t (a INT, b INT, c INT, d INT, e INT, f INT, POSSIBLE KEY (a, b, c, d, e, f));
~refused: limit nullable columns 5
created t
#CREATE TABLE t (CERTAIN KEY (a, b, c, d, e, f), a INT, b INT, c INT, d INT, e INT, f INT NOT NULL);
~created t
#CREATE TABLE t (a INT, CERTAIN KEY (b)); CREATE TABLE t (a INT, CERTAIN KEY (a, a));
CREATE TABLE t (a INT, UNIQUE (a, b, a)); SHOW CREATE TABLE t;
~refused: no column b in t
refused: column a twice
refused: no column b in t
refused: no table t
#CREATE TABLE contacts (id INTEGER PRIMARY KEY, email VARCHAR(80) UNIQUE,
 name TEXT NOT NULL, city TEXT, phone TEXT, CERTAIN KEY (phone, name, city));
SHOW CREATE TABLE contacts;
~created contacts
CREATE TABLE contacts (id INTEGER NOT NULL, email VARCHAR(80), name TEXT NOT NULL, city TEXT, phone TEXT, CERTAIN KEY (id), POSSIBLE KEY (email), CERTAIN KEY (name, city, phone));
#CREATE TABLE t (a INT, CERTAIN KEY (), UNIQUE ()); SHOW CREATE TABLE t; DROP TABLE t; SHOW CREATE TABLE t
~created t
CREATE TABLE t (a INTEGER, CERTAIN KEY (), POSSIBLE KEY ());
dropped t
refused: no table t
";

#[test]
fn keys_are_declared_and_shown(rt: HostRuntime) -> Result<(), Fail> {
    assert_answered(&rt, rt.alloc(), NOTHING, DECLARED)
}

// A possible key over NOT NULL columns is certain, and a key over more columns follows. The first key that implies it
// is told.
const IMPLIED: &[u8] = b"\
CREATE TABLE t (a INT NOT NULL, b INT, POSSIBLE KEY (a)); IMPLIES t CERTAIN KEY (a, b);
IMPLIES t CERTAIN KEY (b); IMPLIES t POSSIBLE KEY (b);
~created t
implied by key 1 by strengthening, extension
not implied: rows (0, NULL) and (1, NULL)
not implied: rows (0, 0) and (1, 0)
#CREATE TABLE t (a INT, b INT, POSSIBLE KEY (a)); IMPLIES t CERTAIN KEY (a); IMPLIES t POSSIBLE KEY (b, a);
~created t
not implied: rows (NULL, 0) and (NULL, 1)
implied by key 1 by extension
#CREATE TABLE t (a INT, s TEXT, CERTAIN KEY (a)); IMPLIES t POSSIBLE KEY (a); IMPLIES t CERTAIN KEY (a);
IMPLIES t CERTAIN KEY (s);
~created t
implied by key 1 by weakening
implied by key 1
not implied: rows (0, NULL) and (1, NULL)
#CREATE TABLE t (a INT, b INT, UNIQUE (b), CERTAIN KEY (a), CERTAIN KEY (a)); IMPLIES t CERTAIN KEY (b, a);
~created t
implied by key 2 by extension
#CREATE TABLE t (a INT, CERTAIN KEY (a)); INSERT INTO t VALUES (1); IMPLIES t CERTAIN KEY (a); COVER OF t;
SELECT * FROM t
~created t
inserted 1
implied by key 1
CERTAIN KEY (a)
keys 1
a
1
rows 1
";

#[test]
fn keys_are_implied(rt: HostRuntime) -> Result<(), Fail> {
    assert_answered(&rt, rt.alloc(), NOTHING, IMPLIED)
}

// The empty key, all columns, and no key at all.
const EDGES: &[u8] = b"\
CREATE TABLE t (a INT, b INT, CERTAIN KEY ()); IMPLIES t CERTAIN KEY (); IMPLIES t POSSIBLE KEY (a, b);
COVER OF t;
~created t
implied by key 1
implied by key 1 by weakening, extension
CERTAIN KEY ()
keys 1
#CREATE TABLE t (a INT, b TEXT); IMPLIES t CERTAIN KEY (a, b); IMPLIES t POSSIBLE KEY (a, b);
IMPLIES t POSSIBLE KEY (); COVER OF t;
~created t
not implied: rows (NULL, NULL) and (NULL, NULL)
not implied: rows (0, '') and (0, '')
not implied: rows (0, '') and (1, 'a')
keys 0
";

#[test]
fn empty_and_missing_keys_are_reasoned_about(rt: HostRuntime) -> Result<(), Fail> {
    assert_answered(&rt, rt.alloc(), NOTHING, EDGES)
}

// The cover's keys make a table of which the same is told.
const COVERS: &[u8] = b"\
CREATE TABLE t (a INT, b INT, c INT, POSSIBLE KEY (a), CERTAIN KEY (a), POSSIBLE KEY (a, b), CERTAIN KEY (b, c));
COVER OF t;
~created t
CERTAIN KEY (a)
CERTAIN KEY (b, c)
keys 2
#CREATE TABLE t (a INT NOT NULL, b INT, UNIQUE (a, b), UNIQUE (b), UNIQUE (a)); COVER OF t;
~created t
CERTAIN KEY (a)
POSSIBLE KEY (b)
keys 2
#CREATE TABLE t (a INT, b INT, UNIQUE (b), CERTAIN KEY (a, b)); COVER OF t; DROP TABLE t;
CREATE TABLE t (a INT, b INT, CERTAIN KEY (a, b), POSSIBLE KEY (b)); COVER OF t;
~created t
CERTAIN KEY (a, b)
POSSIBLE KEY (b)
keys 2
dropped t
created t
CERTAIN KEY (a, b)
POSSIBLE KEY (b)
keys 2
";

#[test]
fn covers_are_told(rt: HostRuntime) -> Result<(), Fail> {
    assert_answered(&rt, rt.alloc(), NOTHING, COVERS)
}

// Refused, each by the first that stands.
const QUESTIONS: &[u8] = b"\
IMPLIES t CERTAIN KEY (a, a); COVER OF t;
~refused: no table t
refused: no table t
#CREATE TABLE t (a INT); IMPLIES t CERTAIN KEY (a, a); IMPLIES t CERTAIN KEY (a, b, a);
IMPLIES t POSSIBLE KEY (b);
~created t
refused: column a twice
refused: no column b in t
refused: no column b in t
";

#[test]
fn questions_about_missing_columns_are_refused(rt: HostRuntime) -> Result<(), Fail> {
    assert_answered(&rt, rt.alloc(), NOTHING, QUESTIONS)
}

#[test]
fn a_table_has_at_most_32_keys(rt: HostRuntime) -> Result<(), Fail> {
    let alloc = rt.alloc();
    for (keys, told) in [
        (32, b"created t\n".as_slice()),
        (33, b"refused: limit keys 32\n"),
    ] {
        let mut script = b"CREATE TABLE t (a INT".to_vec(alloc)?;
        repeat(&mut script, b", UNIQUE (a)", keys)?;
        script.extend_from_slice(b")")?;
        let got = run(alloc, &script, 4096, &[], &[])?;
        assert_eq!(rt; got.1.as_slice(), told);
    }
    Ok(())
}
