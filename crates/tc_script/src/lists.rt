//! The words of lists, which stand between semicolons.
ghost use Rattle.std.specs.Prelude.{◌≡◌, ◌==◌, ◌≤◌, ◌↔◌, IsTrue, count_by, length};
ghost use Rattle.tc_script.specs.Fits.{AreMoments, AreNumbers, AreRequests, AreTimes};
ghost use Rattle.tc_script.specs.Slots.{parts};

use crate::forms::{is_moment, is_number};
use tc_lines::cut;
use tc_types::MOST_INSERTED;

/// How many semicolons part a list.
fn count_semicolons(word: &[u8]) -> usize
    ensures count { result ≡ count_by (λ byte. byte == 59) word.now }
    ensures few { result ≤ length word.now }
{
    word.iter().filter(|byte| **byte == b';').count()
}

/// How many words a list has.
#[tactic(auto, using(crate::proofs::ListLemmas::parts_counted))]
pub(crate) fn count_parts(word: &[u8]) -> usize
    ensures { result ≡ length (parts word.now) }
{
    count_semicolons(word) + 1
}

/// Whether each word of a list is a number.
fn are_numbers(word: &[u8]) -> bool
    ensures { IsTrue result ↔ AreNumbers word.now }
{
    let mut left = Some(word);
    while let Some(text) = left {
        let (first, rest) = cut(text, b';');
        if !is_number(first) {
            return false;
        }
        left = rest;
    }
    true
}

/// Whether each word of a list is a moment.
fn are_times(word: &[u8]) -> bool
    ensures { IsTrue result ↔ AreTimes word.now }
{
    let mut left = Some(word);
    while let Some(text) = left {
        let (first, rest) = cut(text, b';');
        if !is_moment(first) {
            return false;
        }
        left = rest;
    }
    true
}

/// A list of 1 to 8 requests.
pub(crate) fn are_requests(word: &[u8]) -> bool
    ensures { IsTrue result ↔ AreRequests word.now }
{
    count_parts(word) <= MOST_INSERTED && are_numbers(word)
}

/// A list of so many moments.
pub(crate) fn are_moments(count: usize, word: &[u8]) -> bool
    ensures { IsTrue result ↔ AreMoments count word.now }
{
    count_parts(word) == count && are_times(word)
}
