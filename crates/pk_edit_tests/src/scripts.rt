//! The statement of a script, and the schema of one.

ghost use Rattle.std.specs.Prelude.{IfOk, IsTrue};
ghost use Rattle.pk_syntax.specs.Declarations.{is_plain};
ghost use Rattle.pk_syntax.specs.Given.{declares_plain, texts_are_utf8};

use pk_lex::lex;
use pk_parse::parse;
use pk_schema::Schema;
use pk_syntax::{Statement, TableDecl};
use std::alloc::Global;
use std::test::Fail;

// The first statement of the script.
pub(crate) fn statement(alloc: Global, script: &[u8]) -> Result<Statement, Fail>
    ensures plain { IfOk result (λ s. IsTrue (declares_plain s)) }
    ensures texts { IfOk result (λ s. IsTrue (texts_are_utf8 s)) }
{
    let pieces = lex(alloc, script)?;
    let piece = pieces.first().ok_or("no piece")?;
    Ok(parse(alloc, piece)?)
}

// The schema of the table that the script declares.
pub(crate) fn schema(alloc: Global, script: &[u8]) -> Result<Schema, Fail> {
    let statement = statement(alloc, script)?;
    declared(alloc, &statement)
}

fn declared(alloc: Global, statement: &Statement) -> Result<Schema, Fail>
    requires { IsTrue (declares_plain statement.now) }
{
    match statement {
        Statement::Create(declaration) => made(alloc, declaration),
        _ => Err("no declaration".into()),
    }
}

fn made(alloc: Global, declaration: &TableDecl) -> Result<Schema, Fail>
    requires { IsTrue (is_plain declaration.now) }
{
    Ok(Schema::make(alloc, declaration).ok().ok_or("no schema")?)
}
