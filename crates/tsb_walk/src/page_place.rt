//! Pages of a tree, and what the pages above require of them, known before they are read.

ghost use Rattle.std.specs.Prelude.{◌≡◌, ◌↔◌, IsTrue};
ghost use Rattle.version_model.specs.Ranges.{high_or};
ghost use Rattle.tsb_node.specs.Views.{keys_between};
ghost use Rattle.tsb_walk.specs.Shown.{keys_at};

use route_model::Key;
use tsb_node::key_fits;
use version_model::Bounds;

/// A page of a tree, and what the page above it requires: at level 1 it is a column, above it a key node of exactly that level, in
/// either case of the keys from `low` on and below `high`, or of all keys from `low` on if there is none.
#[derive(Clone, Copy, Debug)]
pub struct PagePlace {
    pub page: u64,
    pub level: u8,
    pub low: Key,
    pub high: Option<Key>,
}

impl PagePlace {
    ghost use Rattle.std.specs.Prelude.{◌≡◌, ◌↔◌, IsTrue};
    ghost use Rattle.version_model.specs.Pages.{all_keys};
    ghost use Rattle.tsb_walk.specs.Shown.{keys_at, HasKey};

    /// The root of a tree, of this level: it has all keys.
    pub fn root(page: u64, level: u8) -> PagePlace
        ensures page { result.page ≡ page }
        ensures level { result.level ≡ level }
        ensures keys { keys_at result ≡ all_keys }
    {
        PagePlace {
            page,
            level,
            low: Key::from_octets(&[0; 40]),
            high: None,
        }
    }

    /// Whether a key is one of the keys that the page has to have.
    pub fn has(&self, key: Key) -> bool
        ensures { IsTrue result ↔ HasKey self.now key }
    {
        key_fits(key);
        self.low <= key
            && match self.high {
                Some(high) => key < high,
                None => true,
            }
    }
}

// Whether two high keys, or none, are the same.
fn is_same_high(high: Option<Key>, other: Option<Key>) -> bool
    ensures { IsTrue result ↔ (high_or high ≡ high_or other) }
{
    let Some(high) = high else {
        return is_open(other);
    };
    key_fits(high);
    match other {
        Some(other) => high == other,
        None => false,
    }
}

// Whether there is no high key.
fn is_open(high: Option<Key>) -> bool
    ensures { IsTrue result ↔ (high_or None ≡ high_or high) }
{
    match high {
        Some(high) => {
            key_fits(high);
            false
        }
        None => true,
    }
}

/// Whether bounds have exactly the keys of a place.
pub fn are_its_keys(bounds: &Bounds, place: &PagePlace) -> bool
    ensures { IsTrue result ↔ (keys_between bounds.now ≡ keys_at place.now) }
{
    let bounds = *bounds;
    bounds.low == place.low && is_same_high(bounds.high, place.high)
}
