//! A store of versions, as questions see it: what looks into it return.

ghost use Rattle.std.specs.Prelude.{◌≤◌, ◌++◌, ◌∷◌, [], ℕ, List, length, option_map, IfOk, IfErr, IfSome, OnOk, OnErr, Option};
ghost use Rattle.version_model.specs.Versions.{Version};
ghost use Rattle.version_model.specs.Blocks.{BlockNode};
ghost use Rattle.tsb_walk.specs.Looked.{IsLooked, IsParted};
ghost use Rattle.route_history.specs.Points.{LooksAt, PartsAt};
ghost use Rattle.route_history.specs.Blame.{BlamesNone};
ghost use Rattle.route_history.specs.Growing.{RepresentsGrown, AreBefore};

use route_model::Key;
use tsb_walk::{Looked, NodeError, Parted};
use version_model::Stamp;

/// Versions by key and stamp. Those that are current can be looked up at once; others lie in settled blocks, and a look returns
/// their place.
pub trait Versions {
    /// By these settled blocks the store represents these versions, in the order of their stamps.
    ghost represents_all: { Self → (ℕ → Option BlockNode) → List Version → Type 0 };

    /// The next key from `from` on, itself included, that has a value as of the stamp; or a higher key below which none has;
    /// or the place in the past where it is to be looked for.
    fn next(&mut self, from: Key, stamp: Stamp) -> Result<Looked, NodeError>
        ensures point { IfOk result (λ looked. LooksAt from stamp looked) }
        ensures next { IfOk result (λ looked. (blocks : ℕ → Option BlockNode) (all : List Version) → represents_all self.old blocks all → IsLooked blocks all from stamp looked) }
        ensures blames { IfErr result (λ refusal. (blocks : ℕ → Option BlockNode) (all : List Version) → represents_all self.old blocks all → BlamesNone refusal) }
        ensures kept { (blocks : ℕ → Option BlockNode) (all : List Version) → represents_all self.old blocks all → represents_all self.new blocks all };

    /// The versions of the key from the stamp on, ends included, in the order of their stamps: all before the stamp that is
    /// returned with them, or all that there are if none is; or the place in the past where they are to be looked for.
    fn part(&mut self, key: Key, from: Stamp) -> Result<Parted, NodeError>
        ensures point { IfOk result (λ parted. PartsAt key from parted) }
        ensures part { IfOk result (λ parted. (blocks : ℕ → Option BlockNode) (all : List Version) → represents_all self.old blocks all → IsParted blocks all key from parted) }
        ensures blames { IfErr result (λ refusal. (blocks : ℕ → Option BlockNode) (all : List Version) → represents_all self.old blocks all → BlamesNone refusal) }
        ensures kept { (blocks : ℕ → Option BlockNode) (all : List Version) → represents_all self.old blocks all → represents_all self.new blocks all };
}

/// Versions to which later ones are added.
pub trait Growing: Versions {
    /// Why a version isn't added.
    type Refusal;

    /// Adds a version of the key: a value of at most 3,072 octets, or an end. Its stamp is above those of all versions. More
    /// blocks may be settled, even if it is refused.
    fn insert(&mut self, key: Key, stamp: Stamp, value: Option<&[u8]>) -> Result<(), Self::Refusal>
        requires few { IfSome value (λ octets. length octets.now ≤ 3072) }
        ensures inserted { (blocks : ℕ → Option BlockNode) (all : List Version) → Self.represents_all self.old blocks all → AreBefore stamp all → OnOk result (RepresentsGrown (Self.represents_all self.new) blocks (all ++ record { key = key; stamp = stamp; value = option_map (λ octets. octets.now) value.entry } ∷ [])) }
        ensures refused { (blocks : ℕ → Option BlockNode) (all : List Version) → Self.represents_all self.old blocks all → OnErr result (RepresentsGrown (Self.represents_all self.new) blocks all) };
}
