//! Why a text is no profile of a link, in words for a person.
ghost use Rattle.std.specs.Prelude.{◌≡◌, IfOk};
ghost use Rattle.std.specs.String.{string_bytes};
ghost use Rattle.tc_hex.specs.ProfileProblems.{line_problem, problem, problem_words};

use std::alloc::{AllocError, Global};
use tc_octets::{ProfileFault, ProfileWord};

/// Returns what is wrong with a line, or with the text as a whole.
fn problem_words(word: ProfileWord) -> &'static str
    ensures { result.now ≡ problem_words word }
{
    match word {
        ProfileWord::TooLong => "it has more than 4096 bytes",
        ProfileWord::BadText => "is no comment and no KEY = VALUE in printable characters",
        ProfileWord::UnknownKey => "has a key that no profile has",
        ProfileWord::KeyTwice => "has a key that a line before it has",
        ProfileWord::BadValue => "has a value that its key may not have",
        ProfileWord::Clash => "tc.correct is yes, and tc.fecf is no",
    }
}

/// Returns what is wrong with a line, with its number.
fn line_problem(alloc: Global, line: u32, words: &str) -> Result<String, AllocError>
    ensures { IfOk result (λ text. string_bytes text ≡ line_problem line words.now) }
{
    let mut text = format!(in alloc; "line {line} ")?;
    text.push_str(words)?;
    Ok(text)
}

/// Returns why a text is no profile, with the line if one is wrong.
pub fn problem(alloc: Global, fault: ProfileFault) -> Result<String, AllocError>
    ensures { IfOk result (λ text. string_bytes text ≡ problem fault) }
{
    let words = problem_words(fault.word);
    if fault.line == 0 {
        String::from_str(alloc, words)
    } else {
        line_problem(alloc, fault.line, words)
    }
}
