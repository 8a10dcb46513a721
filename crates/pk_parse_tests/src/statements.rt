use crate::telling::{is_none, replaced, told};
use pk_lex::{Body, Piece, Token, lex};
use pk_parse::ParseErr;
use pk_syntax::{Statement, is_reserved};
use pk_values::Memory;
use std::alloc::Global;
use std::test::Fail;

// A statement on each line, of which none goes on with a further word.
const STATEMENTS: &[u8] = b"
create table t (a integer);
create table t (a int, b2 bigint, _ text, c varchar(3));
create table t (a integer primary key, b varchar(255) unique not null, c text, certain key (a, c));
create table t (unique (b), primary key (b, z), a int unique primary key unique, b int, possible key ());
create table t (t varchar(007), t varchar(1));
drop table t;
insert into t values (1);
insert into u (b, a) values (- 1, null), ('x', '');
insert into t values (0, - 0, 0000000000000000000000000000000000000000007);
insert into t values (9223372036854775807, 9223372036854775808, - 9223372036854775808, - 9223372036854775809);
insert into t values (18446744073709551617, - 340282366920938463463374607431768211457);
update t set a = 1, b = 'x';
update t set a = null where a = 1;
delete from t;
delete from t where a is null;
select * from t;
select a, b, a from t;
select count(*) from t;
select * from t where a = 1 order by a, b desc, a asc;
begin;
commit;
rollback;
checkpoint;
session s;
show create table t;
implies t certain key ();
implies t possible key (b, a);
cover of t;
examples of t;
discover keys from t;
discover keys from t over (b, a);";

const STATEMENTS_TOLD: &[u8] = b"
create t; a number 0
create t; a number 0; b2 number 0; _ text 255; c text 3
create t; a number 0 not null; b text 255 not null; c text 255; certain a; possible b; certain a c
create t; a number 0 not null; b number 0 not null; possible b; certain b z; possible a; certain a; possible a; possible
create t; t text 7; t text 1
drop t
insert t row 1
insert u list b a row -1 null row 'x '
insert t row 0 0 7
insert t row 9223372036854775807 wide -9223372036854775808 wide
insert t row wide wide
update t set a 1 set b 'x
update t set a null where (= a 1)
delete t
delete t where (null a)
select t *
select t a b a
select t count
select t * where (= a 1) up a down b up a
begin
commit
rollback
checkpoint
session s
show t
implies t certain
implies t possible b a
cover t
examples t
discover t
discover t over b a";

#[test]
fn statements_are_read(rt: HostRuntime) -> Result<(), Fail> {
    let answer = told(rt.alloc(), STATEMENTS)?;
    assert_eq!(rt; answer.as_slice(), STATEMENTS_TOLD);
    Ok(())
}

#[test]
fn one_token_more_is_no_statement(rt: HostRuntime) -> Result<(), Fail> {
    let alloc = rt.alloc();
    let longer = replaced(alloc, STATEMENTS, b';', b" t;")?;
    assert!(rt; is_none(alloc, &longer, 31)?);
    Ok(())
}

// Tokens on each line that are no statement.
const OTHERS: &[u8] = b"
t;
begin begin;
commit work;
create table t ();
create table t (certain key ());
create table t (a);
create table t (a number);
create table t (a integer b integer);
create table t (a integer,);
create table t (a integer not);
create table t (a integer primary);
create table t (a varchar);
create table t (a varchar(0));
create table t (a varchar(256));
create table t (a varchar(0000000000000000000000000000000000000000));
create table t (a varchar(1234567890123456789012345678901234567890));
create table t a integer;
create t (a integer);
create table 1 (a integer);
drop t;
insert t values (1);
insert into t (1);
insert into t () values (1);
insert into t values;
insert into t values ();
insert into t values (a);
insert into t values (-);
insert into t values (- - 1);
insert into t values (- null);
insert into t values (1 2);
insert into t values (1) (2);
insert into t values (1),;
update t set;
update t set a;
update t a = 1;
delete t;
delete from t where;
select * t;
select from t;
select * from t, u;
select count from t;
select count(a) from t;
select count(*) from t order by a;
select * from t order a;
select * from t order by;
select * from t order by a where a = 1;
show t;
implies t key (a);
cover t;
discover keys from t over";

#[test]
fn other_tokens_are_no_statement(rt: HostRuntime) -> Result<(), Fail> {
    assert!(rt; is_none(rt.alloc(), OTHERS, 50)?);
    Ok(())
}

// Statements with a name in each place where one may stand: a free name is read there, and no
// reserved word.
const PLACES: &[u8] = b"
create table ? (a int);
create table t (? int);
create table t (a int, certain key (?));
create table t (a int, possible key (a, ?));
create table t (a int, unique (?));
create table t (a int, primary key (?));
drop table ?;
insert into ? values (1);
insert into t (?) values (1);
insert into t (a, ?) values (1);
update ? set a = 1;
update t set ? = 1;
delete from ?;
select * from ?;
select ? from t;
select a, ? from t;
select * from t order by ?;
session ?;
show create table ?;
implies ? certain key (a);
implies t certain key (?);
cover of ?;
examples of ?;
discover keys from ? over (a)";

// With the name `x`.
const PLACES_TOLD: &[u8] = b"
create x; a number 0
create t; x number 0
create t; a number 0; certain x
create t; a number 0; possible a x
create t; a number 0; possible x
create t; a number 0; certain x
drop x
insert x row 1
insert t list x row 1
insert t list a x row 1
update x set a 1
update t set x 1
delete x
select x *
select t x
select t a x
select t * up x
session x
show x
implies x certain a
implies t certain x
cover x
examples x
discover x over a";

#[test]
fn a_free_name_is_read_in_each_place(rt: HostRuntime) -> Result<(), Fail> {
    let alloc = rt.alloc();
    let script = replaced(alloc, PLACES, b'?', b"x")?;
    let answer = told(alloc, &script)?;
    assert_eq!(rt; answer.as_slice(), PLACES_TOLD);
    Ok(())
}

const RESERVED_WORDS: &[u8] = b"
add; alter; and; asc; begin; bigint; by; certain; checkpoint; commit; constraint; count; cover;
create; decide; delete; desc; discover; domain; drop; examples; from; implies; insert; int;
integer; into; is; key; keys; not; null; of; or; order; over; possible; primary; rollback;
select; serializable; session; set; show; table; text; unique; update; values; varchar; where;
with";

#[test]
fn reserved_words_are_no_names(rt: HostRuntime) -> Result<(), Fail> {
    let alloc = rt.alloc();
    let pieces = lex(alloc, RESERVED_WORDS)?;
    assert_eq!(rt; pieces.len(), 52);
    for piece in &pieces {
        let word = word_of(piece);
        assert!(rt; is_no_name(alloc, word)?, "at {word:?}");
    }
    Ok(())
}

// The word at the front of a piece.
fn word_of(piece: &Piece) -> &[u8] {
    match &piece.body {
        Body::Tokens(tokens) => first_word(tokens.as_slice()),
        _ => b"",
    }
}

fn first_word(tokens: &[Token]) -> &[u8] {
    match tokens.first() {
        Some(Token::Word(name)) => name.as_slice(),
        _ => b"",
    }
}

// Whether the word is reserved, and each statement none with it in the place of a name.
fn is_no_name(alloc: Global, word: &[u8]) -> Result<bool, Memory> {
    let script = replaced(alloc, PLACES, b'?', word)?;
    Ok(is_reserved(word) && is_none(alloc, &script, 24)?)
}

#[test]
fn other_words_are_not_reserved(rt: HostRuntime) {
    assert!(rt; !is_reserved(b"t"));
    assert!(rt; !is_reserved(b"INTEGER"));
    assert!(rt; !is_reserved(b"integers"));
    assert!(rt; !is_reserved(b"ad"));
    assert!(rt; !is_reserved(b""));
}

// Pieces that begin on the lines 3, 5 and 7.
const FAULTY: &[u8] = b"

a

$; a;

a
'b
";

const FAULTS_TOLD: &[u8] = b"
bad character on 5
none on 5
unclosed text on 8";

#[test]
fn faults_are_told_with_their_own_lines(rt: HostRuntime) -> Result<(), Fail> {
    let answer = told(rt.alloc(), FAULTY)?;
    assert_eq!(rt; answer.as_slice(), FAULTS_TOLD);
    Ok(())
}

// Values of a type with these bounds may be shared and handed over by threads.
fn crosses<T: Send + Sync>() {}

#[test]
fn statements_may_be_shared_by_threads(_rt: HostRuntime) {
    crosses::<Statement>();
    crosses::<ParseErr>();
}
