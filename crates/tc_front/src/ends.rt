//! Where the head of a request ends: by an empty line (RFC 9112, section 2.1). That a bare LF ends a line is as a
//! recipient may take it (section 2.2), so a head ends in LF LF or LF CR LF, whatever stands before the first LF. The
//! CR and LF bytes before a request count with its head, and are skipped (section 2.2, of CR LF; here of each).
ghost use Rattle.std.specs.Prelude.{◌≡◌, ◌≤◌, ℕ, List, ◌∷◌, length, IfSome};
ghost use Rattle.tc_front.specs.Ends.{HasSearched, end_behind, end_next, head_end, is_end, skip_ends};

/// Whether a byte is CR or LF.
fn is_end(byte: u8) -> bool
    ensures { result ≡ is_end byte }
{
    byte == b'\r' || byte == b'\n'
}

/// The bytes behind the CR and LF bytes at the very front.
pub(crate) fn skip_ends(text: &[u8]) -> &[u8]
    ensures { result.now ≡ skip_ends text.now }
{
    let mut left = text;
    while let Some((byte, rest)) = left.split_first()
        && is_end(*byte)
    {
        left = rest;
    }
    left
}

/// What stands before the bytes that are looked at next.
#[derive(Clone, Copy, Debug)]
pub(crate) enum Before {
    /// Nothing but CR and LF bytes: the head has not begun.
    Nothing,
    /// A byte of the head that is no LF, and no CR behind an LF.
    Text,
    /// An LF of the head.
    Line,
    /// An LF and a CR of the head.
    Return,
}

impl Before {
    /// What stands before the bytes behind this one: none where it ends the head.
    fn after(self, byte: u8) -> Option<Before>
        ensures { (rest : List ℕ) → end_behind self (byte ∷ rest) ≡ end_next result rest }
    {
        match self {
            Before::Nothing => {
                if is_end(byte) {
                    Some(Before::Nothing)
                } else {
                    Some(Before::Text)
                }
            }
            Before::Text => Some(behind(byte)),
            Before::Line if byte == b'\n' => None,
            Before::Line if byte == b'\r' => Some(Before::Return),
            Before::Line => Some(Before::Text),
            Before::Return if byte == b'\n' => None,
            Before::Return => Some(Before::Text),
        }
    }
}

/// What stands before the bytes behind this one, which is in a line.
fn behind(byte: u8) -> Before
    ensures { (rest : List ℕ) → end_behind Before.Text (byte ∷ rest) ≡ end_next (Some result) rest }
{
    if byte == b'\n' {
        Before::Line
    } else {
        Before::Text
    }
}

/// A search for the end of a head, which goes on where it stood when more bytes have come.
#[derive(Clone, Copy, Debug)]
pub(crate) struct HeadSearch {
    /// How many bytes were looked at.
    place: usize,
    /// What stands at their end.
    before: Before,
}

impl HeadSearch {
    /// A search that has looked at nothing.
    pub(crate) fn new() -> HeadSearch
        ensures { (text : List ℕ) → HasSearched result text }
    {
        HeadSearch {
            place: 0,
            before: Before::Nothing,
        }
    }

    /// Where the head ends that this text begins with, if it does.
    pub(crate) fn end(&mut self, text: &[u8]) -> Option<usize>
        requires { HasSearched self.old text.now }
        ensures value { result ≡ head_end text.now }
        ensures within { IfSome result (λ end. end ≤ length text.now) }
        ensures searched { HasSearched self.new text.now }
    {
        while self.place < text.len() {
            match self.before.after(text[self.place]) {
                Some(before) => self.before = before,
                None => return Some(self.place + 1),
            }
            self.place += 1;
        }
        None
    }
}
