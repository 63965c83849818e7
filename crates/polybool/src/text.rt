//! The words of a line's text, one after another: each ends at a space or with the text. A word takes one pass
//! over it.

ghost use Rattle.std.specs.Prelude.{◌≡◌, ◌<◌, ◌∷◌, [], length, IfSome, IfNone};
ghost use Rattle.std.specs.Option.{option_copied};
ghost use Rattle.polybool.specs.Words.{words_of, words_after};

/// The word up to the first space, and what comes after that space.
pub fn first_word(text: &[u8]) -> (&[u8], Option<&[u8]>)
    ensures words { words_of text.now ≡ result.0.now ∷ words_after (option_copied result.1) }
    ensures shorter { IfSome result.1 (λ rest. length rest.now < length text.now) }
{
    for (index, byte) in text.iter().enumerate() {
        if *byte == b' ' {
            return (&text[..index], Some(&text[index + 1..]));
        }
    }
    (text, None)
}

/// The next word of what comes after a space, and what comes after it; nothing where nothing is left.
pub fn next_word(rest: Option<&[u8]>) -> Option<(&[u8], Option<&[u8]>)>
    ensures found { IfSome result (λ next.
        words_after (option_copied rest.entry) ≡ next.0.now ∷ words_after (option_copied next.1)) }
    ensures none { IfNone result (words_after (option_copied rest.entry) ≡ []) }
{
    match rest {
        Some(text) => Some(first_word(text)),
        None => None,
    }
}
