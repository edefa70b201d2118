//! What was found, in lines: the first 20 of them, and that there are more.
ghost use Rattle.std.specs.Prelude.{◌≡◌, ◌<◌, ◌++◌, ◌∷◌, [], ℕ, List, OnOk};
ghost use Rattle.std.specs.String.{string_bytes};
ghost use Rattle.tc_check.specs.Findings.{Shows, first_line, front_of, is_none_found, shown_lines};

use std::alloc::{AllocError, Global};

/// The most lines that are shown.
const MOST_LINES: u32 = 20;

/// Lines that were found, of which the first 20 are kept.
#[derive(Drop)]
pub struct Findings {
    pub(crate) first: String,
    pub(crate) text: String,
    pub(crate) count: u32,
}

/// What a line adds to the first one, where so many stand before it.
fn front_of(count: u32, line: &str) -> &str
    ensures { result.now ≡ front_of count line.now }
{
    if count == 0 { line } else { "" }
}

impl Findings {
    /// Nothing was found yet.
    pub fn new(alloc: Global) -> Findings
        ensures { Shows [] result }
    {
        Findings {
            first: String::new(alloc),
            text: String::new(alloc),
            count: 0,
        }
    }

    /// A line more, while there are fewer than 20.
    fn show(&mut self, line: &str) -> Result<(), AllocError>
        requires { self.old.count < 20 }
        ensures { (lines : List (List ℕ)) → Shows lines self.old → OnOk result (Shows (lines ++ line.now ∷ []) self.new) }
    {
        self.first.push_str(front_of(self.count, line))?;
        self.text.push_str(line)?;
        self.text.push_str("\n")?;
        self.count += 1;
        Ok(())
    }

    /// A line more.
    pub fn add(&mut self, line: &str) -> Result<(), AllocError>
        ensures { (lines : List (List ℕ)) → Shows lines self.old → OnOk result (Shows (lines ++ line.now ∷ []) self.new) }
    {
        if self.count < MOST_LINES {
            return self.show(line);
        }
        if self.count == MOST_LINES {
            self.text.push_str("and more\n")?;
            self.count += 1;
        }
        Ok(())
    }

    /// Whether nothing was found.
    pub fn is_empty(&self) -> bool
        ensures { (lines : List (List ℕ)) → Shows lines self.now → result ≡ is_none_found lines }
    {
        self.count == 0
    }

    /// The first line, and all of them, each ended by LF; where there are more than 20, the first 20 and `and more`.
    pub fn into_texts(self) -> (String, String)
        ensures { (lines : List (List ℕ)) → Shows lines self
            → (string_bytes result.0 ≡ first_line lines) × (string_bytes result.1 ≡ shown_lines lines) }
    {
        (self.first, self.text)
    }
}
