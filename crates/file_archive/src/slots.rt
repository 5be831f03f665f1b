//! The numbers of the journal's open slots, before an opening lays them over the home pages.

ghost use Rattle.std.specs.Prelude.{◌≡◌, ◌<◌, ◌≤◌, ◌+◌, ◌-◌, ◌*◌, ◌%◌, IsTrue, ℕ, OnOk, IfOk, IfSome, IfNone, IsErr, IfErr, Err, ◌↔◌};
ghost use Rattle.disk_models.specs.Erase.{Stays};
ghost use Rattle.disk_models.specs.Serves.{Serves};
ghost use Rattle.page_journal.specs.Layout.{IsOpen, slots_end, transaction};
ghost use Rattle.file_archive.specs.Slots.{AreInOrder, IsOutOfOrder, IsSlotRefusal, open_count};

use crate::disks::{JOURNAL_PAGES, PAGE};
use disk_archive::OpenError;
use disk_models::{EraseDisk, Fault};

/// How many slots the journal has.
const SLOTS: u64 = 8;

/// How many pages a slot has. The first slot's gate, its commit flag, is on page 1, and its header on the next.
const SLOT_PAGES: u64 = 33;

/// The first octet of an open slot's gate.
const OPEN: u8 = 0xa5;

// The page of a slot's header.
fn header_of(slot: u64) -> u64
    requires { slot < 8 }
    ensures { result ≡ 2 + 33 * slot }
{
    2 + SLOT_PAGES * slot
}

// The number of an open slot's transaction. A closed one has none.
fn number_of<E: EraseDisk>(disk: &mut E, slot: u64) -> Result<Option<u64>, Fault>
    requires slot { slot < 8 }
    requires room { slots_end ≤ E.octet_count disk.old }
    ensures open { E.honest disk.old → IfOk result (λ number. IfSome number (λ n. IsOpen (E.model disk.old).octet slot × (n ≡ transaction (E.model disk.old).octet slot))) }
    ensures closed { E.honest disk.old → IfOk result (λ number. IfNone number (¬ IsOpen (E.model disk.old).octet slot)) }
    ensures serves { Serves E.EraseDisk disk.old disk.new (IsErr result) }
    ensures stays { E.honest disk.old → Stays (E.model disk.old) (E.model disk.new) }
{
    let header = header_of(slot);
    let mut gate = [0; 1];
    disk.read(PAGE * (header - 1), &mut gate)?;
    if gate[0] != OPEN {
        return Ok(None);
    }
    let mut number = [0; 8];
    disk.read(PAGE * header, &mut number)?;
    Ok(Some(u64::from_be_bytes(number)))
}

// The newest of the open slots.
#[derive(Clone, Copy)]
struct Newest {
    // How many slots are open.
    open: u64,
    // The highest number of an open slot's transaction, or 0.
    number: u64,
}

// How many slots are open, and the highest of their numbers.
#[tactic(auto, using(crate::proofs::OpenCount::none_open))]
fn find_newest<E: EraseDisk>(disk: &mut E) -> Result<Newest, Fault>
    requires { slots_end ≤ E.octet_count disk.old }
    ensures most { E.honest disk.old → IfOk result (λ newest. (slot : ℕ) → slot < 8 → IsOpen (E.model disk.old).octet slot → transaction (E.model disk.old).octet slot ≤ newest.number) }
    ensures one { E.honest disk.old → IfOk result (λ newest. 0 < newest.number → (slot : ℕ) × (slot < 8) × IsOpen (E.model disk.old).octet slot × (newest.number ≡ transaction (E.model disk.old).octet slot)) }
    ensures count { E.honest disk.old → IfOk result (λ newest. newest.open ≡ open_count (E.model disk.old).octet 8) }
    ensures serves { Serves E.EraseDisk disk.old disk.new (IsErr result) }
    ensures stays { E.honest disk.old → Stays (E.model disk.old) (E.model disk.new) }
{
    let mut newest = Newest { open: 0, number: 0 };
    for slot in 0..SLOTS {
        let number = number_of(disk, slot)?;
        newest.number = newest.number.max(number.unwrap_or(0));
        newest.open += u64::from(number.is_some());
    }
    Ok(newest)
}

// Whether a number, counted from 1, is one of a slot, which are those of its place in each round, and the newest isn't ahead of it by
// as many as are open.
fn is_in_place(slot: u64, number: u64, newest: Newest) -> bool
    requires { slot < 8 }
    ensures { IsTrue result ↔ ((0 < number) × (number % 8 ≡ (slot + 1) % 8) × (newest.number - number < newest.open)) }
{
    number > 0
        && number % SLOTS == (slot + 1) % SLOTS
        && newest.number.saturating_sub(number) < newest.open
}

/// Checks that each open slot of an archive's journal has a number of its place, and that these numbers follow one another:
/// transactions, counted from 1, take the slots in their order, round after round, and the oldest slot is closed first. An opening
/// lays them over the home pages by these numbers, so another one would let an old page come back.
///
/// Nothing is written. The error has the page of the header with another number, counted from the disk's first page.
pub(crate) fn check_slots<E: EraseDisk>(disk: &mut E) -> Result<(), OpenError>
    ensures order { E.honest disk.old → OnOk result (AreInOrder (E.model disk.old).octet) }
    ensures bad { E.honest disk.old → (page : ℕ) → result ≡ Err (OpenError.BadSlot page) → IsOutOfOrder (E.model disk.old).octet page }
    ensures small { (result ≡ Err OpenError.NotAJournal) ↔ (E.octet_count disk.old < slots_end) }
    ensures refused { IfErr result IsSlotRefusal }
    ensures serves { Serves E.EraseDisk disk.old disk.new (result ≡ Err OpenError.Fault) }
    ensures stays { E.honest disk.old → Stays (E.model disk.old) (E.model disk.new) }
{
    if disk.size() < PAGE * JOURNAL_PAGES {
        return Err(OpenError::NotAJournal);
    }
    let Ok(newest) = find_newest(disk) else {
        return Err(OpenError::Fault);
    };
    for slot in 0..SLOTS {
        match number_of(disk, slot) {
            Ok(Some(number)) if !is_in_place(slot, number, newest) => {
                return Err(OpenError::BadSlot(header_of(slot)));
            }
            Ok(_) => {}
            Err(_) => return Err(OpenError::Fault),
        }
    }
    Ok(())
}
