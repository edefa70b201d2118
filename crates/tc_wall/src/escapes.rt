//! Texts that persons typed.
ghost use Rattle.std.specs.Prelude.{◌≡◌, Some, IfSome, IfNone};
ghost use Rattle.std.specs.Char.{encode_utf8};
ghost use Rattle.tc_wall.specs.Escapes.{escaped};

use std::fmt;

/// A text that a person typed, as HTML spells it.
#[derive(Clone, Copy)]
pub(crate) struct Escaped<'a>(pub &'a str);

/// The name that HTML gives a character, if it means something there.
#[tactic(auto, using(crate::proofs::EscapeLemmas::named, crate::proofs::EscapeLemmas::plain_stays))]
fn entity(character: char) -> Option<&'static str>
    ensures named { IfSome result (λ name. name.now ≡ escaped (encode_utf8 character)) }
    ensures plain { IfNone result (escaped (encode_utf8 character) ≡ encode_utf8 character) }
{
    match character {
        '&' => Some("&amp;"),
        '<' => Some("&lt;"),
        '>' => Some("&gt;"),
        '"' => Some("&quot;"),
        '\'' => Some("&#39;"),
        _ => None,
    }
}

impl fmt::Display for Escaped<'_> {
    ghost output = { λ text. Some (escaped text.0.now) };

    fn fmt<W: fmt::Write>(&self, f: &mut fmt::Formatter<W>) -> fmt::Result {
        for character in self.0.chars() {
            match entity(character) {
                Some(name) => write!(f, "{name}")?,
                None => write!(f, "{character}")?,
            }
        }
        Ok(())
    }
}
