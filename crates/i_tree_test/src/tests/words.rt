//! Words of rows: a row is a call, what it is given, and what it answers.
use std::str::SplitAsciiWhitespace;

// The next word as a number.
pub(crate) fn number(words: &mut SplitAsciiWhitespace<'_>) -> Option<i32> {
    words.next()?.parse().ok()
}

// The next word as a time.
pub(crate) fn time(words: &mut SplitAsciiWhitespace<'_>) -> Option<u16> {
    words.next()?.parse().ok()
}

// The next word as a number that isn't negative.
pub(crate) fn count(words: &mut SplitAsciiWhitespace<'_>) -> Option<u32> {
    words.next()?.parse().ok()
}

// The next word as what may be no number, `none`.
pub(crate) fn if_any(words: &mut SplitAsciiWhitespace<'_>) -> Option<Option<i32>> {
    match words.next()? {
        "none" => Some(None),
        word => Some(Some(word.parse().ok()?)),
    }
}

// The next word as `true` or `false`.
pub(crate) fn flag(words: &mut SplitAsciiWhitespace<'_>) -> Option<bool> {
    match words.next()? {
        "true" => Some(true),
        "false" => Some(false),
        _ => None,
    }
}
