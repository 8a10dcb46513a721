//! What scripts are cut into: pieces, the line on which each begins, and its tokens or its fault.
//!
//! A case is a script, `|`, and what is told of it; `~` parts two cases. A line is told of each piece: the
//! piece's own line and `:`, and then behind a blank each of its tokens. A word is `w` and its bytes, a number
//! `n` and its digits, a text `t` and its bytes, and a symbol its name. A fault is `bad on` or `unclosed on`
//! and its line.

use crate::cases::{assert_told, cut};
use pk_lex::{Body, Piece, Symbol, Token, lex};
use pk_values::Memory;
use std::alloc::Global;
use std::io::Write;
use std::process::Abort;
use std::test::Fail;

// ---- what is told

fn told(alloc: Global, script: &[u8]) -> Result<Vec<u8>, Memory> {
    let pieces = lex(alloc, script)?;
    pieces_told(alloc, pieces.as_slice())
}

fn pieces_told(alloc: Global, pieces: &[Piece]) -> Result<Vec<u8>, Memory> {
    let mut text = Vec::new(alloc);
    for piece in pieces {
        tell_piece(&mut text, piece)?;
    }
    Ok(text)
}

fn tell_piece(text: &mut Vec<u8>, piece: &Piece) -> Result<(), Memory> {
    tell_number(text, piece.line)?;
    tell(text, b":")?;
    tell_body(text, &piece.body)?;
    tell(text, b"\n")
}

fn tell_body(text: &mut Vec<u8>, body: &Body) -> Result<(), Memory> {
    match body {
        Body::Tokens(tokens) => tell_tokens(text, tokens.as_slice()),
        Body::BadCharacter { line } => tell_fault(text, b" bad on ", *line),
        Body::UnclosedText { line } => tell_fault(text, b" unclosed on ", *line),
    }
}

fn tell_fault(text: &mut Vec<u8>, fault: &[u8], line: u64) -> Result<(), Memory> {
    tell(text, fault)?;
    tell_number(text, line)
}

fn tell_tokens(text: &mut Vec<u8>, tokens: &[Token]) -> Result<(), Memory> {
    for token in tokens {
        tell_token(text, token)?;
    }
    Ok(())
}

fn tell_token(text: &mut Vec<u8>, token: &Token) -> Result<(), Memory> {
    match token {
        Token::Word(name) => tell_marked(text, b" w", name.as_slice()),
        Token::Number(digits) => tell_marked(text, b" n", digits.as_slice()),
        Token::Text(bytes) => tell_marked(text, b" t", bytes.as_slice()),
        Token::Symbol(symbol) => tell_symbol(text, *symbol),
    }
}

fn tell_marked(text: &mut Vec<u8>, mark: &[u8], bytes: &[u8]) -> Result<(), Memory> {
    tell(text, mark)?;
    tell(text, bytes)
}

fn tell_symbol(text: &mut Vec<u8>, symbol: Symbol) -> Result<(), Memory> {
    write!(text, " {symbol:?}").map_err(|_| Memory)
}

fn tell_number(text: &mut Vec<u8>, n: u64) -> Result<(), Memory> {
    write!(text, "{n}").map_err(|_| Memory)
}

fn tell(text: &mut Vec<u8>, bytes: &[u8]) -> Result<(), Memory> {
    text.extend_from_slice(bytes)?;
    Ok(())
}

// ---- scripts

fn try_cases(rt: &impl Abort, alloc: Global, cases: &[u8]) -> Result<(), Memory> {
    for case in cases.split(|byte| *byte == b'~') {
        let (script, want) = script_and_want(case);
        let text = told(alloc, script)?;
        assert_told(rt, case, text.as_slice(), want);
    }
    Ok(())
}

// Unlike `cut`, this leaves the blanks, which a script may begin and end with.
fn script_and_want(case: &[u8]) -> (&[u8], &[u8]) {
    match case.iter().position(|byte| *byte == b'|') {
        Some(i) => (&case[..i], &case[i + 1..]),
        None => (case, b"no case"),
    }
}

const SCRIPTS: &[u8] = b"\
    |\
    ~ \t\r\n|\
    ~a;\n$;|1: wa\n2: bad on 2\n\
    ~a|1: wa\n\
    ~;; ;\n;b|2: wb\n\
    ~Select _X9 aB|1: wselect w_x9 wab\n\
    ~<= <> != >= < > =|1: AtMost UnequalAngle UnequalBang AtLeast Less Greater Equal\n\
    ~<=<><<=>|1: AtMost UnequalAngle Less AtMost Greater\n\
    ~(),*-|1: LeftParen RightParen Comma Star Minus\n\
    ~a - - b|1: wa Minus Minus wb\n\
    ~a ! b|1: bad on 1\n\
    ~a !|1: bad on 1\n\
    ~!==|1: UnequalBang Equal\n\
    ~1AND|1: n1 wand\n\
    ~a1 007|1: wa1 n007\n\
    ~a 1 'b' (; $|1: wa n1 tb LeftParen\n1: bad on 1\n\
    ~-5|1: Minus n5\n\
    ~123456789012345678901234567890123456789012345678901234567890\
    |1: n123456789012345678901234567890123456789012345678901234567890\n\
    ~1234567890123456 12345678901234567|1: n1234567890123456 n12345678901234567\n\
    ~a\r\r;b|1: wa\n1: wb\n\
    ~\n\n a \n\n b;\r\n c|3: wa wb\n6: wc\n\
    ~\na\n$\n$\nb;c|2: bad on 3\n5: wc\n\
    ~$ '|1: bad on 1\n\
    ~\xc3\xa4;b|1: bad on 1\n1: wb\n";

#[test]
fn scripts_are_cut(rt: HostRuntime) -> Result<(), Fail> {
    Ok(try_cases(&rt, rt.alloc(), SCRIPTS)?)
}

const CLOSED_TEXTS: &[u8] = b"\
    ''|1: t\n\
    ~'it''s'|1: tit's\n\
    ~''''|1: t'\n\
    ~'''a'''|1: t'a'\n\
    ~'a' 'b'|1: ta tb\n\
    ~'a''b'|1: ta'b\n\
    ~1'a'b|1: n1 ta wb\n\
    ~'A;--b' c|1: tA;--b wc\n\
    ~'\0'|1: t\0\n\
    ~'a\n\nb' c;\nd|1: ta\n\nb wc\n4: wd\n\
    ~\n'\n\n';\n'\n';$|2: t\n\n\n5: t\n\n6: bad on 6\n";

#[test]
fn closed_texts_are_read(rt: HostRuntime) -> Result<(), Fail> {
    Ok(try_cases(&rt, rt.alloc(), CLOSED_TEXTS)?)
}

// No quote closes the text, which reaches to the script's end.
const UNCLOSED_TEXTS: &[u8] = b"\
    '|1: unclosed on 1\n\
    ~'''|1: unclosed on 1\n\
    ~'a''|1: unclosed on 1\n\
    ~a;\n'b|1: wa\n2: unclosed on 2\n\
    ~\na\n'b;c\n;d|2: unclosed on 3\n\
    ~'a';'b';'|1: ta\n1: tb\n1: unclosed on 1\n\
    ~'\xff|1: unclosed on 1\n\
    ~INSERT INTO t VALUES ('abc|1: unclosed on 1\n";

#[test]
fn unclosed_texts_are_faults(rt: HostRuntime) -> Result<(), Fail> {
    Ok(try_cases(&rt, rt.alloc(), UNCLOSED_TEXTS)?)
}

// A closed text that isn't UTF-8 is a bad character, and reading goes on behind it.
const TEXTS_OF_BYTES: &[u8] = b"\
    '\xff' a;b|1: bad on 1\n1: wb\n\
    ~a\n'b\n\xff\n';\nc 'd'|1: bad on 2\n5: wc td\n\
    ~'\xff' '\xc3\xa4';'\xc3\xa4'|1: bad on 1\n1: t\xc3\xa4\n\
    ~'\xc3''\xa4'|1: bad on 1\n\
    ~'\xed\xa0\x80'|1: bad on 1\n\
    ~'\xc0\x80'|1: bad on 1\n\
    ~'\xf4\x90\x80\x80'|1: bad on 1\n\
    ~'\xf4\x8f\xbf\xbf'|1: t\xf4\x8f\xbf\xbf\n\
    ~'\xff' '|1: bad on 1\n";

#[test]
fn texts_are_utf8(rt: HostRuntime) -> Result<(), Fail> {
    Ok(try_cases(&rt, rt.alloc(), TEXTS_OF_BYTES)?)
}

// A comment ends before the next line feed.
const COMMENTS: &[u8] = b"\
    --|\
    ~--a;b'|\
    ~--\n|\
    ~--\na|2: wa\n\
    ~a--b;c\nd;e|1: wa wd\n2: we\n\
    ~a--\n;b|1: wa\n2: wb\n\
    ~a---b\n-c|1: wa Minus wc\n\
    ~a - --b|1: wa Minus\n\
    ~--\r$\nb|2: wb\n\
    ~--\xff\n--$\nb|3: wb\n\
    ~--'\n'a'|2: ta\n\
    ~'a--b\n' --c\n;d|1: ta--b\n\n3: wd\n";

#[test]
fn comments_are_passed(rt: HostRuntime) -> Result<(), Fail> {
    Ok(try_cases(&rt, rt.alloc(), COMMENTS)?)
}

// ---- each byte

#[test]
fn each_byte_is_what_the_rules_say(rt: HostRuntime) -> Result<(), Fail> {
    let alloc = rt.alloc();
    for byte in 0..=255u8 {
        try_byte(&rt, alloc, &[byte], b"", false)?;
        try_byte(&rt, alloc, &[b'a', byte], b" wa", is_word_byte(byte))?;
        try_byte(&rt, alloc, &[b'1', byte], b" n1", byte.is_ascii_digit())?;
    }
    Ok(())
}

// A script of the token that is told so, if there is one, and of a byte, which may join it.
fn try_byte(
    rt: &impl Abort,
    alloc: Global,
    script: &[u8],
    token: &[u8],
    joins: bool,
) -> Result<(), Fail> {
    let byte = script.last().ok_or("no byte")?;
    let text = told(alloc, script)?;
    let want = wanted(alloc, token, joins, *byte)?;
    assert_told(rt, script, text.as_slice(), want.as_slice());
    Ok(())
}

fn wanted(alloc: Global, token: &[u8], joins: bool, byte: u8) -> Result<Vec<u8>, Memory> {
    let mut text = Vec::new(alloc);
    tell_behind(&mut text, token, joins, byte)?;
    Ok(text)
}

// By the rules: a byte of a word or a number joins the token or begins another, a blank or `;` is no
// token of the piece, and a quote and what begins no token are faults.
fn tell_behind(text: &mut Vec<u8>, token: &[u8], joins: bool, byte: u8) -> Result<(), Memory> {
    if is_word_byte(byte) {
        tell_line(
            text,
            token,
            own_mark(joins, byte),
            &[byte.to_ascii_lowercase()],
        )
    } else if b" \t\n\r;".contains(&byte) {
        tell_line(text, token, b"", b"")
    } else if byte == b'\'' {
        tell(text, b"1: unclosed on 1\n")
    } else {
        tell_symbol_behind(text, token, symbol_named(byte))
    }
}

fn tell_symbol_behind(text: &mut Vec<u8>, token: &[u8], name: &[u8]) -> Result<(), Memory> {
    if name.is_empty() {
        tell(text, b"1: bad on 1\n")
    } else {
        tell_line(text, token, b" ", name)
    }
}

// The line of a piece of this token and what stands behind it, unless both are missing.
fn tell_line(text: &mut Vec<u8>, token: &[u8], mark: &[u8], bytes: &[u8]) -> Result<(), Memory> {
    if token.is_empty() && bytes.is_empty() {
        return Ok(());
    }
    tell_marked(text, b"1:", token)?;
    tell_marked(text, mark, bytes)?;
    tell(text, b"\n")
}

fn is_word_byte(byte: u8) -> bool {
    byte.is_ascii_alphanumeric() || byte == b'_'
}

// What begins the token of a byte that joins none before it.
fn own_mark(joins: bool, byte: u8) -> &'static [u8] {
    if joins {
        b""
    } else if byte.is_ascii_digit() {
        b" n"
    } else {
        b" w"
    }
}

// The name of the symbol that is this byte alone, and nothing where none is.
fn symbol_named(byte: u8) -> &'static [u8] {
    match byte {
        b'(' => b"LeftParen",
        b')' => b"RightParen",
        b',' => b"Comma",
        b'*' => b"Star",
        b'=' => b"Equal",
        b'<' => b"Less",
        b'>' => b"Greater",
        b'-' => b"Minus",
        _ => b"",
    }
}

// ---- long tokens

// A script is one byte so many times.
const REPEATS: usize = 262_144;

// The byte, and how many pieces there are, how many tokens in the first, and how many bytes in its first
// token, where a symbol has none. A quote first and one last stand around 131,071 pairs.
const LONG_TOKENS: &[u8] = b"\
7 | 1 1 262144
A | 1 1 262144
' | 1 1 131071
- | 0 0 0
( | 1 262144 0";

#[test]
fn long_tokens_are_read_whole(rt: HostRuntime) -> Result<(), Fail> {
    let alloc = rt.alloc();
    for case in LONG_TOKENS.split(|byte| *byte == b'\n') {
        let (byte, want) = cut(case);
        let text = lengths(alloc, byte)?;
        assert_told(&rt, case, text.as_slice(), want);
    }
    Ok(())
}

fn lengths(alloc: Global, byte: &[u8]) -> Result<Vec<u8>, Fail> {
    let byte = byte.first().ok_or("no byte")?;
    let pieces = repeated(alloc, *byte)?;
    Ok(lengths_told(alloc, pieces.as_slice())?)
}

fn repeated(alloc: Global, byte: u8) -> Result<Vec<Piece>, Memory> {
    let script = vec![in alloc; byte; REPEATS]?;
    lex(alloc, script.as_slice())
}

fn lengths_told(alloc: Global, pieces: &[Piece]) -> Result<Vec<u8>, Memory> {
    let mut text = Vec::new(alloc);
    tell_lengths(&mut text, pieces.len(), first_tokens(pieces))?;
    Ok(text)
}

fn tell_lengths(text: &mut Vec<u8>, pieces: usize, tokens: &[Token]) -> Result<(), Memory> {
    tell_number(text, pieces as u64)?;
    tell(text, b" ")?;
    tell_number(text, tokens.len() as u64)?;
    tell(text, b" ")?;
    tell_number(text, first_width(tokens) as u64)
}

fn first_tokens(pieces: &[Piece]) -> &[Token] {
    match pieces.first() {
        Some(piece) => tokens_of(&piece.body),
        None => &[],
    }
}

fn tokens_of(body: &Body) -> &[Token] {
    match body {
        Body::Tokens(tokens) => tokens.as_slice(),
        _ => &[],
    }
}

fn first_width(tokens: &[Token]) -> usize {
    match tokens.first() {
        Some(token) => token_width(token),
        None => 0,
    }
}

fn token_width(token: &Token) -> usize {
    match token {
        Token::Word(name) => name.as_slice().len(),
        Token::Number(digits) => digits.as_slice().len(),
        Token::Text(bytes) => bytes.as_slice().len(),
        Token::Symbol(_) => 0,
    }
}
