//! Reads the text at the front of some bytes.

ghost use Rattle.std.specs.Prelude.{◌≡◌, ◌<◌, ◌≤◌, ◌==◌, ◌&&◌, not, false, Some, length, IfOk, IfSome, slice_index};
ghost use Rattle.std.specs.Str.{is_utf8};
ghost use Rattle.pk_lex.specs.Texts.{text_width, unpaired, closed_text};
ghost use Rattle.pk_lex.specs.Lexemes.{front_of};

use crate::lexeme::{Fault, Front, Lexeme};
use crate::token::Token;
use pk_values::{Bytes, Memory};
use std::alloc::Global;
use std::str;

/// The text at the front of the bytes, which begin with a quote.
pub(crate) fn read_text(alloc: Global, bytes: &[u8]) -> Result<Front, Memory>
    requires { slice_index bytes.now 0 ≡ 39 }
    ensures { IfOk result (λ front. front_of bytes.now ≡ Some front) }
{
    let behind = &bytes[1..];
    match text_width(behind) {
        Some(width) => Ok(Front {
            lexeme: closed_text(unpaired(alloc, &behind[..width - 1])?),
            width: 1 + width,
        }),
        None => Ok(Front {
            lexeme: Lexeme::Wrong(Fault::Unclosed),
            width: bytes.len(),
        }),
    }
}

// How many of the bytes behind its first quote the text takes, unless no quote closes it.
fn text_width(behind: &[u8]) -> Option<usize>
    ensures width { result ≡ text_width false behind.now }
    ensures within { IfSome result (λ width. (0 < width) × (width ≤ length behind.now)) }
{
    // Whether the byte before this one is a quote that is in no pair yet.
    let mut pending = false;
    for (i, byte) in behind.iter().enumerate() {
        if pending && *byte != b'\'' {
            return Some(i);
        }
        pending = opens(pending, *byte);
    }
    if pending { Some(behind.len()) } else { None }
}

// The bytes between the quotes of a text, with each pair of quotes as one.
fn unpaired(alloc: Global, quoted: &[u8]) -> Result<Vec<u8>, Memory>
    ensures { IfOk result (λ v. v.items ≡ unpaired false quoted.now) }
{
    let mut bytes = Vec::with_capacity(alloc, quoted.len())?;
    let mut pending = false;
    for byte in quoted {
        if !pending {
            bytes.push(*byte)?;
        }
        pending = opens(pending, *byte);
    }
    Ok(bytes)
}

// Whether the byte is a quote that is in no pair yet, where `pending` says so of the byte before.
fn opens(pending: bool, byte: u8) -> bool
    ensures { result ≡ (not pending && byte == 39) }
{
    !pending && byte == b'\''
}

// What a closed text of these bytes is.
fn closed_text(bytes: Vec<u8>) -> Lexeme
    ensures { result ≡ closed_text bytes.items }
{
    if is_utf8(&bytes) {
        Lexeme::Known(Token::Text(Bytes::from_vec(bytes)))
    } else {
        Lexeme::Wrong(Fault::Bad)
    }
}

fn is_utf8(bytes: &[u8]) -> bool
    ensures { result ≡ is_utf8 bytes.now }
{
    str::from_utf8(bytes).is_ok()
}
