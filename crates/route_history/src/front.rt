//! How far a walk over the keys has come.

ghost use Rattle.std.specs.Prelude.{◌≡◌, ◌↔◌, ◌^◌, ◌≤◌, suc, nat_lt, IfSome, None};
ghost use Rattle.version_model.specs.Ranges.{key_end};
ghost use Rattle.route_history.specs.Fronts.{number_at};

use route_model::Key;

/// The least key not yet looked at: this key, or the one after it.
#[derive(Clone, Copy, Debug)]
pub struct Front {
    pub key: Key,
    pub passed: bool,
}

impl Front {
    /// From this key on.
    pub(crate) fn from(key: Key) -> Front
        ensures { number_at result ≡ key }
    {
        Front { key, passed: false }
    }

    /// From the key after this one on.
    pub(crate) fn beyond(key: Key) -> Front
        ensures { number_at result ≡ suc key }
    {
        Front { key, passed: true }
    }

    /// Is the key below it, so looked at already?
    pub(crate) fn has_passed(&self, key: Key) -> bool
        ensures { result ≡ nat_lt key (number_at self.now) }
    {
        if self.passed {
            key <= self.key
        } else {
            key < self.key
        }
    }

    /// The key itself, or None after the last of all keys.
    pub(crate) fn first(&self) -> Option<Key>
        ensures key { IfSome result (λ key. key ≡ number_at self.now) }
        ensures end { result ≡ None → number_at self.now ≡ key_end }
    {
        if self.passed {
            self.key.next()
        } else {
            Some(self.key)
        }
    }
}
