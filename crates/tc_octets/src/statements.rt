//! The lines of a profile's text, and what each of them says.
ghost use Rattle.std.specs.Prelude.{◌≡◌, ◌==◌, ◌<◌, IfSome, IfNone, [], ◌∷◌, length};
ghost use Rattle.std.specs.List.{list_all, position};
ghost use Rattle.tc_octets.specs.ProfileTexts.{is_equals, is_printable, said_of, statement_in, statement_of, trimmed, trimmed_start};
ghost use Rattle.std.specs.Str.Lines.{lines, strip_carriage_return};

use std::marker::Model;

/// The lines of a text, one after the other. A contract sees the lines that are left.
#[derive(Drop)]
pub(crate) struct Lines<'a> {
    rest: &'a [u8],
}

impl<'a> Model for Lines<'a> {
    ghost use Rattle.std.specs.Prelude.{ℕ, List};
    ghost use Rattle.std.specs.Str.Lines.{lines};

    ghost Value = { List (List ℕ) };

    ghost view = { λ l. lines l.rest.now };
}

impl<'a> Lines<'a> {
    /// Returns the lines of a text. LF ends a line, and the last LF may be missing.
    pub(crate) fn new(text: &'a [u8]) -> Lines<'a>
        ensures { result ≡ lines text.now }
    {
        Lines { rest: text }
    }

    /// Returns the next line, without its LF and a CR before it; `None` if no line is left.
    pub(crate) fn next(&mut self) -> Option<&'a [u8]>
        ensures some { IfSome result (λ line. self.old ≡ line.now ∷ self.new) }
        ensures none { IfNone result (self.old ≡ []) }
    {
        if self.rest.is_empty() {
            return None;
        }
        let (line, rest) = first_line(self.rest);
        self.rest = rest;
        Some(line)
    }
}

/// Returns the place of the first LF.
fn first_end(text: &[u8]) -> Option<usize>
    ensures { result ≡ position (λ octet. octet == 10) text.now }
{
    text.iter().position(|octet| *octet == b'\n')
}

/// Returns the first line of a text that is not empty, and what stands after its LF.
fn first_line(text: &[u8]) -> (&[u8], &[u8])
    requires { 0 < length text.now }
    ensures { lines text.now ≡ result.0.now ∷ lines result.1.now }
{
    match first_end(text) {
        Some(place) => (without_cr(&text[..place]), &text[place + 1..]),
        None => (text, &text[text.len()..]),
    }
}

/// Drops one CR at the end of a line.
fn without_cr(line: &[u8]) -> &[u8]
    ensures { result.now ≡ strip_carriage_return line.now }
{
    match line.split_last() {
        Some((b'\r', rest)) => rest,
        _ => line,
    }
}

/// The content of a line.
#[derive(Clone, Copy, Debug)]
pub(crate) enum Statement<'a> {
    /// Nothing: spaces or a comment.
    Blank,
    /// `name = value`, without the spaces around both.
    Setting {
        /// The text before the first equals sign.
        name: &'a [u8],
        /// The text after it.
        value: &'a [u8],
    },
    /// An octet outside space to `~`, or no equals sign.
    Bad,
}

/// Drops the leading spaces.
#[tactic(auto, using(crate::proofs::LineLemmas::start_step, crate::proofs::LineLemmas::start_stays))]
fn trim_start(text: &[u8]) -> &[u8]
    ensures { result.now ≡ trimmed_start text.now }
{
    let mut rest = text;
    while let Some((b' ', more)) = rest.split_first() {
        rest = more;
    }
    rest
}

/// Drops leading and trailing spaces.
#[tactic(auto, using(crate::proofs::LineLemmas::end_step, crate::proofs::LineLemmas::end_stays))]
pub(crate) fn trim(text: &[u8]) -> &[u8]
    ensures { result.now ≡ trimmed text.now }
{
    let mut rest = trim_start(text);
    while let Some((b' ', more)) = rest.split_last() {
        rest = more;
    }
    rest
}

/// Returns whether all octets are from space to `~`.
fn is_plain(line: &[u8]) -> bool
    ensures { result ≡ list_all is_printable line.now }
{
    line.iter().all(|octet| b' ' <= *octet && *octet <= b'~')
}

/// Returns the place of the first equals sign.
fn first_equals(words: &[u8]) -> Option<usize>
    ensures { result ≡ position is_equals words.now }
{
    words.iter().position(|octet| *octet == b'=')
}

/// Returns what a line without spaces around it says.
#[tactic(auto, using(crate::proofs::LineLemmas::says_nothing, crate::proofs::LineLemmas::comment_in))]
fn read_words(words: &[u8]) -> Statement<'_>
    ensures { said_of result ≡ statement_in words.now }
{
    if words.is_empty() {
        return Statement::Blank;
    }
    if words[0] == b'#' {
        return Statement::Blank;
    }
    match first_equals(words) {
        Some(place) => Statement::Setting {
            name: trim(&words[..place]),
            value: trim(&words[place + 1..]),
        },
        None => Statement::Bad,
    }
}

/// Returns what a line says.
pub(crate) fn read_line(line: &[u8]) -> Statement<'_>
    ensures { said_of result ≡ statement_of line.now }
{
    if is_plain(line) {
        read_words(trim(line))
    } else {
        Statement::Bad
    }
}
