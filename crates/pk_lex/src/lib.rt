//! From the bytes of a script to its pieces: the tokens between semicolons, each piece with the line
//! on which it begins. Contracts see the script as a list of bytes and a `Piece` as plain data.
//!
//! `lex` reads one lexeme after another off the front of the script (`reading`, and `text` for what
//! stands between quotes), and hands each with its line to a `PieceBuilder`, which keeps the piece in
//! progress in a `Draft`. `laws` says what comes of it in words that don't retrace this.
#![tactic(auto)]

mod builder;
mod digits;
mod draft;
mod laws;
mod lexeme;
mod lexing;
mod piece;
mod reading;
mod text;
mod token;

pub use digits::Digits;
pub use laws::{
    example_is_cut, lexemes_fill_the_script, lexemes_stand_on_their_lines, pieces_are_lexed,
    pieces_hold_the_tokens, pieces_tell_the_first_fault, quoted_bytes_are_texts,
    quotes_begin_texts, semicolons_cut, texts_begin_with_quotes,
};
pub use lexing::lex;
pub use piece::{Body, Piece};
pub use token::{Symbol, Token};
