//! What each of the 256 bytes is, alone, in a word and in a number.

use pk_lex::{Body, Piece, Token, lex};
use std::alloc::Global;
use std::test::Fail;

// What each byte below 128 begins: ` ` a blank, `w` a word, `n` a number, `s` a symbol, `;` nothing, since it ends
// the piece, and `.` nothing at all, as every byte from 128 on.
const KINDS: &[u8; 128] = b".........  .. ..\
    ................\
    \x20.......sss.ss..\
    nnnnnnnnnn.;sss.\
    .wwwwwwwwwwwwwww\
    wwwwwwwwwww....w\
    .wwwwwwwwwwwwwww\
    wwwwwwwwwww.....";

fn kind_of(byte: u8) -> u8 {
    if byte < 128 {
        KINDS[byte as usize]
    } else {
        b'.'
    }
}

// The tokens of a script, each by the letter of its kind once for each of its bytes, and a bar before each but the
// first; `.` for a fault.
fn shape(alloc: Global, script: &[u8]) -> Result<Vec<u8>, Fail> {
    let mut shape = Vec::new(alloc);
    let pieces = lex(alloc, script)?;
    for piece in &pieces {
        add_piece(piece, &mut shape)?;
    }
    Ok(shape)
}

fn add_piece(piece: &Piece, shape: &mut Vec<u8>) -> Result<(), Fail> {
    let Body::Tokens(tokens) = &piece.body else {
        shape.push(b'.')?;
        return Ok(());
    };
    for token in tokens.as_slice() {
        if !shape.is_empty() {
            shape.push(b'|')?;
        }
        add_token(token, shape)?;
    }
    Ok(())
}

fn add_token(token: &Token, shape: &mut Vec<u8>) -> Result<(), Fail> {
    let (kind, length) = match token {
        Token::Word(name) => (b'w', name.as_slice().len()),
        Token::Number(digits) => (b'n', digits.as_slice().len()),
        _ => (b's', 1),
    };
    for _ in 0..length {
        shape.push(kind)?;
    }
    Ok(())
}

#[test]
fn each_byte_is_what_it_is(rt: HostRuntime) -> Result<(), Fail> {
    for byte in 0..=255u8 {
        let (alone, in_word, in_number): (&[u8], &[u8], &[u8]) = match kind_of(byte) {
            b' ' | b';' => (b"", b"w", b"n"),
            b'w' => (b"w", b"ww", b"n|w"),
            b'n' => (b"n", b"ww", b"nn"),
            b's' => (b"s", b"w|s", b"n|s"),
            _ => (b".", b".", b"."),
        };
        for (script, want) in [
            ([b' ', byte], alone),
            ([b'a', byte], in_word),
            ([b'1', byte], in_number),
        ] {
            let got = shape(rt.alloc(), &script)?;
            assert_eq!(rt; got.as_slice(), want, "at {script:?}");
        }
    }
    Ok(())
}
