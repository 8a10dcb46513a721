//! Scripts about tables and rows.

use crate::running::{NOTHING, assert_answered};
use pk_engine::Engine;
use std::test::Fail;

#[test]
fn a_new_engine_is_empty(rt: HostRuntime) -> Result<(), Fail> {
    let engine = Engine::empty(rt.alloc());
    assert_eq!(rt; engine.commit_number(), 0);
    assert_eq!(rt; engine.row_count(), 0);
    Ok(())
}

// Scripts of nothing, and of rows that are put in and told.
const ROWS: &[u8] = b"\
~# \t\r
 ;;
;\x20
~#CREATE TABLE t (a INTEGER, b INTEGER); INSERT INTO t VALUES (1, 2); SELECT * FROM t;
~created t
inserted 1
a|b
1|2
rows 1
#create table T (A integer)
;Insert Into t Values (007);select * from T
~created t
inserted 1
a
7
rows 1
#CREATE TABLE t (a INTEGER); SELECT * FROM t;
~created t
a
rows 0
#CREATE TABLE b (x INTEGER); CREATE TABLE a (y INTEGER); INSERT INTO b VALUES (1); INSERT INTO a VALUES (2);
INSERT INTO b VALUES (3); SELECT * FROM a; SELECT * FROM b;
~created b
created a
inserted 1
inserted 1
inserted 1
y
2
rows 1
x
1
3
rows 2
#CREATE TABLE t (a INTEGER); INSERT INTO t VALUES (1), (2);
~created t
inserted 2
#CREATE TABLE t (a INTEGER); INSERT INTO t VALUES (-9223372036854775808); SELECT * FROM t
~created t
inserted 1
a
-9223372036854775808
rows 1
#CREATE TABLE t (a INTEGER); INSERT INTO t VALUES (9223372036854775807); SELECT * FROM t
~created t
inserted 1
a
9223372036854775807
rows 1
#CREATE TABLE t (a INTEGER); INSERT INTO t VALUES (0); SELECT * FROM t;
~created t
inserted 1
a
0
rows 1
#CREATE TABLE t (a INT, s VARCHAR(3)); INSERT INTO t (s) VALUES ('a''b'); INSERT INTO t VALUES (NULL, '');
SELECT * FROM t
~created t
inserted 1
inserted 1
a|s
NULL|'a''b'
NULL|''
rows 2
";

#[test]
fn rows_are_put_in_and_told(rt: HostRuntime) -> Result<(), Fail> {
    assert_answered(&rt, rt.alloc(), NOTHING, ROWS)
}

// Tables that are made, and those that may not be.
const DECLARATIONS: &[u8] = b"\
CREATE TABLE t (a INTEGER); CREATE TABLE t (b INTEGER); SELECT * FROM t; SELECT * FROM u
~created t
refused: table t exists
a
rows 0
refused: no table u
#CREATE TABLE t (a INT, b BIGINT, c TEXT, d VARCHAR(3));
~created t
#CREATE TABLE t (a INTEGER, a INTEGER);
~refused: column a twice
#CREATE TABLE a23456789012345678901234567890 (a INTEGER);
~created a23456789012345678901234567890
#CREATE TABLE a234567890123456789012345678901 (a INTEGER);
~refused: limit name 30
#CREATE TABLE t (a23456789012345678901234567890 INTEGER); SELECT * FROM t;
~created t
a23456789012345678901234567890
rows 0
#CREATE TABLE t (a INT); -- made
CREATE TABLE t (a INT); SELECT * FROM u
~created t
refused: table t exists
refused: no table u
#CREATE TABLE t (a234567890123456789012345678901 INTEGER);
~refused: limit name 30
";

#[test]
fn tables_are_made(rt: HostRuntime) -> Result<(), Fail> {
    assert_answered(&rt, rt.alloc(), NOTHING, DECLARATIONS)
}

// Rows and tables of which a statement says what isn't so.
const REFUSED: &[u8] = b"\
INSERT INTO u VALUES (1);
~refused: no table u
#CREATE TABLE t (a INTEGER, b INTEGER); INSERT INTO t VALUES (1); INSERT INTO t VALUES (1, 2, 3);
INSERT INTO t VALUES (4, 5); SELECT * FROM t;
~created t
refused: 1 values for 2 columns
refused: 3 values for 2 columns
inserted 1
a|b
4|5
rows 1
#CREATE TABLE t (a INTEGER); INSERT INTO t VALUES (9223372036854775808);
~created t
refused: number outside 64 bits
#CREATE TABLE v (s VARCHAR(3)); INSERT INTO v VALUES ('abcd'); INSERT INTO v VALUES (1);
INSERT INTO v (t) VALUES (1); INSERT INTO v (s, s) VALUES (1, 2); SELECT * FROM v
~created v
refused: text of 4 bytes for column s, at most 3
refused: wrong kind for column s
refused: no column t in v
refused: column s twice
s
rows 0
#SELECT * FROM t; CREATE TABLE t (a INTEGER);
~refused: no table t
created t
";

#[test]
fn refused_statements_change_nothing(rt: HostRuntime) -> Result<(), Fail> {
    assert_answered(&rt, rt.alloc(), NOTHING, REFUSED)
}

// What is no statement is told with the line on which its piece begins, a fault with its own line; a carriage return
// ends no line. BEGIN, EXAMPLES OF and DISCOVER KEYS are read and not answered yet.
const FAULTS: &[u8] = b"\
CREATE TABLE select (a INTEGER);
~refused: not a statement on line 1
#

from
;
  $;
;SELECT *
FROM t
~refused: not a statement on line 3
refused: bad character on line 5
refused: no table t
#CREATE TABLE t ();
~refused: not a statement on line 1
#SELECT * FROM t\r;\r
begin a\r\r;
SELECT
*
$
~refused: no table t
refused: not a statement on line 2
refused: bad character on line 5
#INSERT INTO t VALUES ('abc
~refused: unclosed text on line 1
#CREATE TABLE t (a INT); BEGIN; EXAMPLES OF t; DISCOVER KEYS FROM t;
~created t
refused: not a statement on line 1
refused: not a statement on line 1
refused: not a statement on line 1
#SELECT '\xff'\x20
; CREATE TABLE t (a INT)
~refused: bad character on line 1
created t
#SELECT * FROM t;
SELECT * FROM
t; SELECT * t
~refused: no table t
refused: no table t
refused: not a statement on line 3
";

#[test]
fn faults_are_told_with_their_lines(rt: HostRuntime) -> Result<(), Fail> {
    assert_answered(&rt, rt.alloc(), NOTHING, FAULTS)
}
