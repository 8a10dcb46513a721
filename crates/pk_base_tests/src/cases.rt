//! What the tests share: a case is one text, whose parts stand between bars.

use std::cmp::Ordering;
use std::process::Abort;

/// Fails where another thing was told of the case than what is wanted.
pub(crate) fn assert_told(rt: &impl Abort, case: &[u8], told: &[u8], want: &[u8]) {
    let text = str::from_utf8(case).unwrap_or("a case");
    assert!(rt; told == want, "{text}");
}

/// What stands in the text before its first `|` and behind it, without the blanks around each.
pub(crate) fn cut(text: &[u8]) -> (&[u8], &[u8]) {
    match text.iter().position(|byte| *byte == b'|') {
        Some(i) => (text[..i].trim_ascii(), text[i + 1..].trim_ascii()),
        None => (text, b""),
    }
}

/// How an order is spelled.
pub(crate) fn order_sign(order: Ordering) -> u8 {
    match order {
        Ordering::Less => b'<',
        Ordering::Equal => b'=',
        Ordering::Greater => b'>',
    }
}
