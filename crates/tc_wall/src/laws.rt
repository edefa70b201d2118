//! What holds of any page. These functions do nothing: their clauses are the laws.
ghost use Rattle.std.specs.Prelude.{◌≡◌, ℕ, List, [], ◌∷◌, ◌++◌, map, take, filter, IsTrue};
ghost use Rattle.tc_types.specs.declared.history.places.Place.{Place};
ghost use Rattle.tc_wall.specs.declared.walls.Wall.{Wall};
ghost use Rattle.tc_wall.specs.Escapes.{escaped, is_plain};
ghost use Rattle.tc_wall.specs.Tiles.{count_at};
ghost use Rattle.tc_wall.specs.Told.{told_all, is_count_of, is_line, is_row, said, standing};
ghost use Rattle.tc_wall.specs.Page.{page};
ghost use Rattle.tc_wall.specs.Told as told;

use crate::walls::{MOST_LINES, MOST_OPEN};

/// A text that a person typed is shown as such: escaped, it has none of the signs that mean something in HTML, but for the `&` of their five
/// names. And nothing of it is lost: two texts that are escaped alike are alike.
pub fn a_typed_text_is_plain()
    ensures plain { (text : List ℕ) → IsTrue (is_plain (escaped text)) }
    ensures alike { (a b : List ℕ) → escaped a ≡ escaped b → a ≡ b }
{}

/// Each place has one count on the page, which is the one that was given.
pub fn each_count_is_shown_once()
    ensures { (b : Wall) (place : Place) → filter (is_count_of place) (told_all (page b)) ≡ told.Stand place (count_at b.counts.now place) ∷ [] }
{}

/// The rows of the ways are those of the requests that are open, in order, up to the bound: each once, and at its place. There is no other.
pub fn each_way_is_shown_once()
    ensures { (b : Wall) → filter is_row (told_all (page b)) ≡ map standing (take MOST_OPEN b.ways.now) }
{}

/// The rows of what is open are those of the lines given, in order, up to the bound: each once, and of its kind. There is no other.
pub fn each_line_is_shown_once()
    ensures { (b : Wall) → filter is_line (told_all (page b)) ≡ map said (take MOST_LINES b.urgent.now) }
{}
