// The table of variables: four words each, the place of its name, the node of its declaration, its first cell, its name's key.
#![tactic(auto)]

pub mod declared;
pub mod listed;

ghost use Rattle.std.specs.Prelude.{◌≡◌, length, map};
ghost use Rattle.paper.specs.Words.{capital};
ghost use Rattle.paper.specs.Names.{is_among};
ghost use Rattle.tree.specs.Trees.{name_at};
ghost use Rattle.variables.specs.Table.{key_of, names_to};

use words::{ends_alike, name_length, name_of, same_name};

// The key of a name; the last byte is counted first.
fn key_from(name: &[u8]) -> u16
    ensures { result ≡ key_of (map capital name.now) }
{
    let mut key: u16 = 0;
    for &b in name.iter().rev() {
        key = key.wrapping_mul(31).wrapping_add((b % 32) as u16);
    }
    key
}

// The key of the name at a place: names with different keys differ.
pub fn key_of(text: &[u8], place: u16) -> u16
    ensures { result ≡ key_of (name_at text.now place) }
{
    key_from(name_of(text, place as usize))
}

// Whether a name is among those at these places.
pub fn among(text: &[u8], places: &[u16], place: u16) -> bool
    ensures { result ≡ is_among (name_at text.now place) (names_to text.now places.now (length places.now)) }
{
    let m = name_length(text, place as usize);
    for &other in places {
        let at = other as usize;
        if ends_alike(text, place as usize, m, at) && same_name(text, place as usize, m, at) {
            return true;
        }
    }
    false
}
