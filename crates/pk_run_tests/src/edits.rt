//! UPDATE, DELETE and SELECT over one table.

use crate::running::assert_answered;
use std::test::Fail;

// What stands before each script.
const TABLE: &[u8] = b"\
CREATE TABLE t (a INT, b INT, s VARCHAR(3));
INSERT INTO t VALUES (1, 0, 'x'), (2, 0, NULL), (NULL, 0, 'y'), (3, 0, 'x');
~created t
inserted 4
";

// A row is taken on true alone, so that null stays where its condition is unknown. AND binds more closely than OR.
const CONDITIONS: &[u8] = b"\
UPDATE t SET b = 7 WHERE a >= 2; SELECT * FROM t;
~updated 2
a|b|s
1|0|'x'
2|7|NULL
NULL|0|'y'
3|7|'x'
rows 4
#DELETE FROM t WHERE NOT (a = 1); SELECT a FROM t;
~deleted 2
a
1
NULL
rows 2
#SELECT a FROM t WHERE a = NULL; SELECT s FROM t WHERE NOT (a = NULL); SELECT s FROM t WHERE a IS NULL;
~a
rows 0
s
rows 0
s
'y'
rows 1
#SELECT a FROM t WHERE a = 1 OR a = 2 AND b = 9; SELECT a FROM t WHERE (a = 1 OR a = 2) AND b = 9;
~a
1
rows 1
a
rows 0
#SELECT COUNT(*) FROM t; SELECT COUNT(*) FROM t WHERE s = 'x'; SELECT COUNT(*) FROM t WHERE s <> 'x';
SELECT COUNT(*) FROM t WHERE s != 'y'
~count
4
rows 1
count
2
rows 1
count
1
rows 1
count
2
rows 1
#SELECT b, a, b FROM t WHERE a < b OR a IS NOT NULL AND s IS NULL;
~b|a|b
0|2|0
rows 1
#SELECT a FROM t WHERE a > 0 AND a < 3 AND NOT a <> 2;
SELECT b FROM t WHERE s = 'x' AND (a >= 3 OR a <= 1) ORDER BY a DESC
~a
2
rows 1
b
0
0
rows 2
";

#[test]
fn rows_are_taken_on_true_alone(rt: HostRuntime) -> Result<(), Fail> {
    assert_answered(&rt, rt.alloc(), TABLE, CONDITIONS)
}

// Null comes first, and last under DESC; ties keep their order.
const ORDERS: &[u8] = b"\
SELECT a, s FROM t ORDER BY s DESC, b; SELECT a FROM t ORDER BY a; SELECT a FROM t ORDER BY a DESC;
~a|s
NULL|'y'
1|'x'
3|'x'
2|NULL
rows 4
a
NULL
1
2
3
rows 4
a
3
2
1
NULL
rows 4
";

#[test]
fn rows_are_told_in_order(rt: HostRuntime) -> Result<(), Fail> {
    assert_answered(&rt, rt.alloc(), TABLE, ORDERS)
}

// Other tables stay.
const CHANGES: &[u8] = b"\
INSERT INTO t (s, a) VALUES ('z', 4), (NULL, 5); DELETE FROM t WHERE a <= 3; SELECT * FROM t
~inserted 2
deleted 3
a|b|s
NULL|0|'y'
4|NULL|'z'
5|NULL|NULL
rows 3
#DELETE FROM t; SELECT COUNT(*) FROM t; DELETE FROM t; INSERT INTO t VALUES (9, 9, ''); SELECT * FROM t;
~deleted 4
count
0
rows 1
deleted 0
inserted 1
a|b|s
9|9|''
rows 1
#UPDATE t SET a = NULL, s = 'w'; UPDATE t SET b = 1 WHERE a = 1; SELECT * FROM t
~updated 4
updated 0
a|b|s
NULL|0|'w'
NULL|0|'w'
NULL|0|'w'
NULL|0|'w'
rows 4
#DROP TABLE t; SELECT * FROM t; DROP TABLE t; CREATE TABLE t (z INT); SELECT * FROM t
~dropped t
refused: no table t
refused: no table t
created t
z
rows 0
#CREATE TABLE u (a INT); INSERT INTO u VALUES (1), (2); UPDATE t SET a = 0; DELETE FROM t WHERE a = 0;
SELECT * FROM u; DROP TABLE u; SELECT COUNT(*) FROM t
~created u
inserted 2
updated 4
deleted 4
a
1
2
rows 2
dropped u
count
0
rows 1
";

#[test]
fn rows_and_tables_are_changed(rt: HostRuntime) -> Result<(), Fail> {
    assert_answered(&rt, rt.alloc(), TABLE, CHANGES)
}

// What is refused changes nothing.
const REFUSED: &[u8] = b"\
INSERT INTO t VALUES (7, 7, 'x'), (8, 8, 9), (9, 9, 'x'); SELECT COUNT(*) FROM t;
~refused: wrong kind for column s
count
4
rows 1
#UPDATE t SET a = 'x' WHERE c = 1; UPDATE t SET c = 1; UPDATE t SET a = 1, a = 1; UPDATE u SET a = 1;
SELECT a FROM t
~refused: no column c in t
refused: no column c in t
refused: column a twice
refused: no table u
a
1
2
NULL
3
rows 4
#UPDATE t SET a = 'x'; UPDATE t SET b = 1 WHERE s = 1; UPDATE t SET b = 1 WHERE a = s;
DELETE FROM t WHERE a = 'x' AND s = 1; SELECT b FROM t WHERE b = 1
~refused: wrong kind for column a
refused: wrong kind for column s
refused: wrong kind for column a
refused: wrong kind for column a
b
rows 0
#UPDATE t SET a = 9223372036854775808; DELETE FROM t WHERE a > -9223372036854775809;
SELECT a FROM t WHERE s = 9223372036854775808; SELECT COUNT(*) FROM t
~refused: number outside 64 bits
refused: number outside 64 bits
refused: wrong kind for column s
count
4
rows 1
#UPDATE t SET s = 'abcd'; INSERT INTO t VALUES (1, 2, 'abcd'); SELECT s FROM t WHERE s = 'abcd';
~refused: text of 4 bytes for column s, at most 3
refused: text of 4 bytes for column s, at most 3
s
rows 0
#SELECT c, d FROM t WHERE e = 1 ORDER BY f; SELECT a FROM t WHERE e = 1 ORDER BY f; SELECT a FROM t ORDER BY f;
DELETE FROM t WHERE a = e
~refused: no column c in t
refused: no column e in t
refused: no column f in t
refused: no column e in t
#SELECT COUNT(*) FROM t ORDER BY a; SELECT * FROM t WHERE 1 = a; DELETE t; UPDATE t WHERE a = 1
~refused: not a statement on line 3
refused: not a statement on line 3
refused: not a statement on line 3
refused: not a statement on line 3
#INSERT INTO t (a, c) VALUES (1, 2); INSERT INTO t (a, a) VALUES (1, 2); INSERT INTO t (a, b) VALUES (1);
INSERT INTO t VALUES (1, 2), (1, 2, 'x')
~refused: no column c in t
refused: column a twice
refused: 1 values for 2 columns
refused: 2 values for 3 columns
";

#[test]
fn refused_edits_change_nothing(rt: HostRuntime) -> Result<(), Fail> {
    assert_answered(&rt, rt.alloc(), TABLE, REFUSED)
}
