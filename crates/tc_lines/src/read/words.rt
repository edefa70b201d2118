//! The words of a text, taken one after the other.
ghost use Rattle.std.specs.Prelude.{◌≡◌, ◌==◌, ◌↔◌, [], ◌∷◌, IsSome, IfSome, IfNone};
ghost use Rattle.std.specs.List.{position};
ghost use Rattle.tc_types.specs.Words.{words, words_left};

use std::marker::Model;

/// Where the first separator stands.
fn first_separator(text: &[u8], separator: u8) -> Option<usize>
    ensures { result ≡ position (λ byte. byte == separator) text.now }
{
    text.iter().position(|byte| *byte == separator)
}

/// The first word, and what stands behind its separator: `None` where there is no separator.
pub fn cut(text: &[u8], separator: u8) -> (&[u8], Option<&[u8]>)
    ensures { words separator text.now ≡ result.0.now ∷ words_left separator result.1 }
{
    match first_separator(text, separator) {
        Some(place) => (&text[..place], Some(&text[place + 1..])),
        None => (text, None),
    }
}

/// A cursor over the words of a text. A contract sees it as the list of the words that are left.
#[derive(Drop)]
pub struct Words<'a> {
    separator: u8,
    rest: Option<&'a [u8]>,
}

impl<'a> Model for Words<'a> {
    ghost use Rattle.std.specs.Prelude.{ℕ, List};
    ghost use Rattle.tc_types.specs.Words.{words_left};

    ghost Value = { List (List ℕ) };

    ghost view = { λ w. words_left w.separator w.rest };
}

impl<'a> Words<'a> {
    /// The words of this text, which are parted by this byte. An empty text is one empty word.
    pub fn new(text: &'a [u8], separator: u8) -> Words<'a>
        ensures { result ≡ words separator text.now }
    {
        Words {
            separator,
            rest: Some(text),
        }
    }

    /// The next word; `None` where no word is left.
    pub fn next(&mut self) -> Option<&'a [u8]>
        ensures some { IfSome result (λ word. self.old ≡ word.now ∷ self.new) }
        ensures none { IfNone result (self.old ≡ []) }
        ensures unchanged { IfNone result (self.new ≡ []) }
    {
        let (word, rest) = cut(self.rest?, self.separator);
        self.rest = rest;
        Some(word)
    }

    /// `Some` where no word is left.
    pub fn end(&self) -> Option<()>
        ensures { IsSome result ↔ (self.now ≡ []) }
    {
        match self.rest {
            Some(_) => None,
            None => Some(()),
        }
    }
}
