//! The slots as a ring, in which the first follows the last.
ghost use Rattle.std.specs.Prelude.{◌≡◌};
ghost use Rattle.page_journal.specs.Bookkeeping.{ring_slot};

use crate::layout::SLOTS;

// The k-th slot of the ring, from its first on, at most twice around.
pub fn ring_slot(k: u64) -> u64
    ensures { result ≡ ring_slot k }
{
    if k < SLOTS { k } else { k - SLOTS }
}
