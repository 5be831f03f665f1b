//! Closes the gates of slots.
ghost use Rattle.std.specs.Prelude.{[], ◌≡◌, ◌≢◌, ◌≤◌, ◌<◌, ◌∷◌, ◌↔◌, ℕ, List, OnOk, IsErr, IsErrOf};
ghost use Rattle.disk_models.specs.Erase.{Leaves, WritesWithin};
ghost use Rattle.disk_models.specs.Serves.{Serves};
ghost use Rattle.page_journal.specs.Layout.{gate_place, slots_end};
ghost use Rattle.page_journal.specs.Bookkeeping.{open_slots};
ghost use Rattle.page_journal.specs.Recovers.{Recovers};
ghost use Rattle.page_journal.specs.inner.Laying.{HomesRepresent};
ghost use Rattle.page_journal.specs.inner.Writing.{MayLeaveButGates, TurnsGates};

use crate::layout::{CLOSED, GATE, OPEN, PAGE, SLOT_PAGES, SLOTS};
use crate::ring::ring_slot;
use disk_models::{EraseDisk, Fault};

// Closes the gate of the oldest open slot, whose images are home.
pub fn close<D: EraseDisk>(disk: &mut D, slot: u64) -> Result<(), Fault>
    requires slot { slot < 8 }
    requires room { slots_end ≤ D.octet_count disk.old }
    ensures serves { Serves D.EraseDisk disk.old disk.new (IsErr result) }
    ensures crash { D.honest disk.old → (homes : ℕ) (note rest : List ℕ) (pages : List (List ℕ)) → HomesRepresent homes note (slot ∷ rest) (D.model disk.old) pages
        → Leaves (D.model disk.old) (D.model disk.new) (λ c. Recovers homes note c pages) }
    ensures closed { D.honest disk.old → (homes : ℕ) (note rest : List ℕ) (pages : List (List ℕ)) → HomesRepresent homes note (slot ∷ rest) (D.model disk.old) pages
        → OnOk result (HomesRepresent homes note rest (D.model disk.new) pages) }
{
    disk.write_at(PAGE * (GATE + SLOT_PAGES * slot), &[CLOSED])?;
    disk.sync()
}

// Closes the gates of the open slots, so many from the first one on, whose images are home, the oldest first.
pub fn close_open<D: EraseDisk>(disk: &mut D, first: u64, count: u64) -> Result<(), Fault>
    requires ring { first < 8 }
    requires few { count ≤ 8 }
    requires room { slots_end ≤ D.octet_count disk.old }
    ensures serves { Serves D.EraseDisk disk.old disk.new (IsErr result) }
    ensures crash { D.honest disk.old → (homes : ℕ) (note : List ℕ) (pages : List (List ℕ)) → HomesRepresent homes note (open_slots first count) (D.model disk.old) pages
        → Leaves (D.model disk.old) (D.model disk.new) (λ c. Recovers homes note c pages) }
    ensures closed { D.honest disk.old → (homes : ℕ) (note : List ℕ) (pages : List (List ℕ)) → HomesRepresent homes note (open_slots first count) (D.model disk.old) pages
        → OnOk result (HomesRepresent homes note [] (D.model disk.new) pages) }
{
    for k in 0..count {
        close(disk, ring_slot(first + k))?;
    }
    Ok(())
}

// Opens the gate of the newest slot and closes that of the oldest one, and syncs both.
pub fn turn<D: EraseDisk>(disk: &mut D, newest: u64, oldest: u64) -> Result<(), Fault>
    requires newest { newest < 8 }
    requires oldest { oldest < 8 }
    requires apart { newest ≢ oldest }
    requires room { slots_end ≤ D.octet_count disk.old }
    ensures serves { Serves D.EraseDisk disk.old disk.new (IsErr result) }
    ensures crash { D.honest disk.old → Leaves (D.model disk.old) (D.model disk.new) (MayLeaveButGates newest oldest (D.model disk.old)) }
    ensures turned { D.honest disk.old → OnOk result (TurnsGates newest oldest (D.model disk.old) (D.model disk.new)) }
{
    disk.write_at(PAGE * (GATE + SLOT_PAGES * newest), &[OPEN])?;
    disk.write_at(PAGE * (GATE + SLOT_PAGES * oldest), &[CLOSED])?;
    disk.sync()
}

// Closes the gates of all slots, without a sync.
pub fn close_all<D: EraseDisk>(disk: &mut D) -> Result<(), Fault>
    requires { slots_end ≤ D.octet_count disk.old }
    ensures serves { Serves D.EraseDisk disk.old disk.new (IsErr result) }
    ensures within { D.honest disk.old → WritesWithin 16384 4325376 (D.model disk.old) (D.model disk.new) }
    ensures closed { D.honest disk.old → OnOk result ((slot : ℕ) → slot < 8 → (D.model disk.new).octet (gate_place slot) ≡ 0) }
{
    for slot in 0..SLOTS {
        disk.write_at(PAGE * (GATE + SLOT_PAGES * slot), &[CLOSED])?;
    }
    Ok(())
}
