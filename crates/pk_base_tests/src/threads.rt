//! What threads may share and hand over.

use pk_lex::{Body, Piece, Symbol, Token};
use pk_logic::{Cond, Truth};
use pk_report::{Example, Reply};
use pk_values::{
    Break, Bytes, Changes, ColSet, Items, KeyDecl, Kind, Memory, Name, Placed, Refusal, Row, Rule,
    Value, Words, WordsErr,
};

// A call with a type that threads may not share or not hand over isn't built.
fn crosses<T: Send + Sync>() {}

#[test]
fn all_may_be_shared_by_threads(_rt: HostRuntime) {
    crosses::<Name>();
    crosses::<Bytes>();
    crosses::<Words>();
    crosses::<WordsErr>();
    crosses::<Value>();
    crosses::<Kind>();
    crosses::<Row>();
    crosses::<Placed>();
    crosses::<Items<Placed>>();
    crosses::<Changes>();
    crosses::<Break>();
    crosses::<Items<ColSet>>();
    crosses::<Items<KeyDecl>>();
    crosses::<Rule>();
    crosses::<Refusal>();
    crosses::<Memory>();
    crosses::<Vec<Piece>>();
    crosses::<Body>();
    crosses::<Items<Token>>();
    crosses::<Symbol>();
    crosses::<Cond>();
    crosses::<Truth>();
    crosses::<Reply>();
    crosses::<Example>();
}
