//! The words of a text.

ghost use Rattle.std.specs.Prelude.{◌≡◌, nat_eq, true, false, IfSome, IfNone};
ghost use Rattle.std.specs.Option.{option_map};
ghost use Rattle.aia_model.specs.Text.{words_of};
ghost use Rattle.aia_model.specs.Grammar.{is_word};
ghost use Rattle.aia_model.specs.Reading.{word_at, whole};
ghost use Rattle.aia_script.specs.Cursor.{left, words_after, first_word, after_first};

/// The words of a text that are still to be read: a single space stands between one word and the
/// next.
#[derive(Clone, Copy)]
pub struct Words<'a> {
    /// The text from the next word on; `None` where no word is left.
    rest: Option<&'a [u8]>,
}

/// Gives all words of a text.
pub fn all_words(text: &[u8]) -> Words<'_>
    ensures { left result ≡ words_of text.now }
{
    Words { rest: Some(text) }
}

impl<'a> Words<'a> {
    /// Gives the text from the next word on; `None` where no word is left.
    #[tactic(auto, using(crate::proofs::WordLemmas::next_word))]
    #[inline(always)]
    pub fn rest(&self) -> Option<&'a [u8]>
        ensures rest { result ≡ self.now.rest }
        ensures words { option_map (λ text. (first_word text.now, after_first text.now)) result
            ≡ word_at (left self.now) }
    {
        self.rest
    }
}

/// Gives the words after a word that ends where `rest` begins; `None` where it goes on there.
#[inline(always)]
pub fn words_after(rest: &[u8]) -> Option<Words<'_>>
    ensures { option_map left result ≡ words_after rest.now }
{
    match rest {
        [] => Some(Words { rest: None }),
        [b' ', rest @ ..] => Some(Words { rest: Some(rest) }),
        _ => None,
    }
}

/// Gives the words after the first word of a text where that is `name`; `None` where it is another.
///
/// The word is not cut off before it is known: its bytes are compared where they stand.
#[tactic(auto, using(crate::proofs::WordLemmas::too_short))]
#[inline(always)]
pub fn after_name<'a>(text: &'a [u8], name: &[u8]) -> Option<Words<'a>>
    ensures found { IfSome result (λ words. (is_word (first_word text.now) name.now ≡ true)
        × (left words ≡ after_first text.now)) }
    ensures other { IfNone result (is_word (first_word text.now) name.now ≡ false) }
{
    if text.len() < name.len() {
        return None;
    }
    for at in 0..name.len() {
        if text[at] != name[at] {
            return None;
        }
        // A word has no space, so a name with one is none.
        if name[at] == b' ' {
            return None;
        }
    }
    words_after(&text[name.len()..])
}

/// Gives `found` where no word is left; `None` where one is.
#[inline(always)]
#[tactic(auto, using(crate::proofs::WordLemmas::words_left))]
pub fn at_end<T: Copy>(words: &Words<'_>, found: T) -> Option<T>
    ensures { result ≡ whole (left words.now) found }
{
    match words.rest {
        None => Some(found),
        Some(_) => None,
    }
}
