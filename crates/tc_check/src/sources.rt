//! Where the texts come from that the lines of a script load.
ghost use Rattle.std.specs.Prelude.{◌∷◌, [], IfOk, List, None, Option, option_map};
ghost use Rattle.tc_check.specs.Sources.{Gives, Seen, seen_at};

use std::alloc::{AllocError, Global};

/// A source of texts. Its content is the list of what it found.
pub trait Texts {
    /// What it found, at which paths; in order, where a contract can name it.
    ghost seen: { Self → Option (List Seen) };

    /// The text at a path, of which no more is wanted than shows that it is too long; none where there is none that can be read.
    fn text(&mut self, alloc: Global, path: &str) -> Result<Option<Vec<u8>>, AllocError>
        ensures { IfOk result (λ text. Gives (seen self.old) (seen self.new) (seen_at path.now (option_map (λ bytes. bytes.items) text) ∷ [])) };
}
