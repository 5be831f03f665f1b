//! Errands of questions: they read settled blocks, without the archive.

ghost use Rattle.std.specs.Prelude.{◌≡◌, ◌↔◌, ◌+◌, ℕ, OnOk, OnErr, IsErrOf, Err, min};
ghost use Rattle.route_meaning.specs.History.{History};
ghost use Rattle.once_store.specs.Readers.{capacity_of, reader_disk};
ghost use Rattle.route_history.specs.Walks.{Rose};
ghost use Rattle.tsb_walk.specs.Inside.{CachesInside};
ghost use Rattle.tsb_walk.specs.Knowing.{ReadsWell};
ghost use Rattle.disk_archive.specs.Cursors.{IsGathered, IsSameCursor, asks, walked_to};
ghost use Rattle.disk_archive.specs.Descents.{IsErrandFor, LocatedKnown};

use crate::cursor::Cursor;
use disk_models::OnceDisk;
use once_store::{BlockError, ShelfReader};
use route_history::laws::{gathered_follows_histories, versions_report};
use route_history::{EventsErrand, RowsErrand};
use std::alloc::Global;

/// The part of a turn that reads settled blocks: one place in the past, or two.
#[derive(Debug, Drop)]
pub enum Errand {
    Rows(RowsErrand),
    Events(EventsErrand),
}

impl Errand {
    /// Reads the blocks, and finishes the turn: the cursor, which is as its turn left it, has then gathered what comes next, and has come
    /// further.
    ///
    /// It needs no archive, takes no lock, and waits for nothing but the disk. `seen` is as new as the errand, or newer. Only a block
    /// that isn't what its place requires is reported as damaged, and a fault is returned only if a read failed. It takes memory for rows
    /// or events, and for blocks that the reader caches. After a refusal the cursor is as before.
    pub fn finish<O: OnceDisk + Drop>(
        self,
        alloc: Global,
        reader: &mut ShelfReader<O>,
        seen: &mut O::Seen,
        cursor: &mut Cursor,
    ) -> Result<(), BlockError>
        requires fits { IsErrandFor cursor.old self }
        ensures gathered { (h : History) → LocatedKnown O.OnceDisk reader.old seen.old self cursor.old h → OnOk result (IsGathered cursor.new h) }
        ensures further { (h : History) → LocatedKnown O.OnceDisk reader.old seen.old self cursor.old h → OnOk result (Rose (walked_to cursor.old) (walked_to cursor.new)) }
        ensures asks { asks cursor.new ≡ asks cursor.old }
        ensures refused { OnErr result (IsSameCursor cursor.old cursor.new) }
        ensures kept { OnErr result ((h : History) → IsGathered cursor.old h → IsGathered cursor.new h) }
        ensures undamaged { (h : History) → LocatedKnown O.OnceDisk reader.old seen.old self cursor.old h → (block : ℕ) → result ≡ Err (BlockError.Damaged block) → ⊥ }
        ensures reads { (h : History) → LocatedKnown O.OnceDisk reader.old seen.old self cursor.old h → ReadsWell O.OnceDisk reader.new seen.new }
        ensures inside { CachesInside O.OnceDisk reader.old → CachesInside O.OnceDisk reader.new }
        ensures known { O.honest_seen (reader_disk reader.old) seen.old → O.known seen.new ≡ O.known seen.old }
        ensures disk { reader_disk reader.new ≡ reader_disk reader.old }
        ensures capacity { capacity_of reader.new ≡ capacity_of reader.old }
        ensures honest { O.honest_seen (reader_disk reader.old) seen.old ↔ O.honest_seen (reader_disk reader.old) seen.new }
        ensures quiet { (IsErrOf result BlockError.Fault → ⊥) → O.seen_fault_count seen.new ≡ O.seen_fault_count seen.old }
        ensures counted { IsErrOf result BlockError.Fault → O.seen_fault_count seen.new ≡ min (O.seen_fault_count seen.old + 1) 18446744073709551615 }
    {
        versions_report();
        gathered_follows_histories();
        match (self, cursor) {
            (Errand::Rows(errand), Cursor::Rows(rows)) => errand.finish(reader, seen, alloc, rows),
            (Errand::Events(errand), Cursor::Events(events)) => {
                // A call on each peer and prefix gives the proof its limits.
                let _len = events.question.peer.encoded_len();
                let _address = events.question.prefix.address();
                errand.finish(reader, seen, alloc, events)
            }
            _ => unreachable!(),
        }
    }
}
