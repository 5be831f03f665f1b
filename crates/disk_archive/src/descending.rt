//! Turns of questions over what is applied. A turn reads only pages, and no block.

ghost use Rattle.std.specs.Prelude.{◌≡◌, ◌↔◌, ◌<◌, ◌≤◌, ℕ, List, Option, IfOk, IfErr, OnOk, Err, true, false, ◌≢◌, ◌+◌, min};
ghost use Rattle.page_tx.specs.Device.{KeepsDevice};
ghost use Rattle.page_tx.specs.Start.{Start};
ghost use Rattle.route_meaning.specs.History.{History, settled};
ghost use Rattle.interleaving_core.specs.Does.{last_moment};
ghost use Rattle.disk_archive.specs.Cursors.{IsGathered, asks};
ghost use Rattle.disk_archive.specs.Descents.{Descends, GoesFurther, ReadsBelow};
ghost use Rattle.disk_archive.specs.inner.Asking.{BlamesNone, LookRefusal};
ghost use Rattle.disk_archive.specs.inner.Descending.{HasPages, of_events, of_rows};

use crate::answering::{check_settled, root_of};
use crate::archive::Archive;
use crate::ask_error::AskError;
use crate::committing::begin;
use crate::cursor::Cursor;
use crate::errand::Errand;
use archive_head::Head;
use disk_models::{EraseDisk, OnceDisk};
use interleaving_core::{Answer, Query};
use page_tx::Pages;
use route_history::laws::{gathered_follows_histories, versions_report};
use route_history::{EventsTurn, RowsTurn};
use std::alloc::Global;
use tree_questions::{events_turn, rows_turn};

/// The result of a turn of a question.
#[derive(Debug, Drop)]
pub enum Descent {
    /// The whole answer. The cursor is at the start of its question again.
    Done(Answer),
    /// The walk has come further.
    Again,
    /// Settled blocks have to be read, which needs no archive.
    Historical(Errand),
}

// A turn of a question of a moment.
fn of_rows(turn: RowsTurn) -> Descent
    ensures { result ≡ of_rows turn }
{
    match turn {
        RowsTurn::Done(answer) => Descent::Done(Answer::Rows(answer)),
        RowsTurn::Again => Descent::Again,
        RowsTurn::Historical(errand) => Descent::Historical(Errand::Rows(errand)),
    }
}

// A turn of a question of a history.
fn of_events(turn: EventsTurn) -> Descent
    ensures { result ≡ of_events turn }
{
    match turn {
        EventsTurn::Done(answer) => Descent::Done(Answer::Events(answer)),
        EventsTurn::Again => Descent::Again,
        EventsTurn::Historical(errand) => Descent::Historical(Errand::Events(errand)),
    }
}

// A turn of a question over the archive's tree, by these pages. No block from `burnt` on was ever burnt.
fn descend_by<P: Pages>(
    alloc: Global,
    pages: &mut P,
    head: &Head,
    burnt: u64,
    cursor: &mut Cursor,
) -> Result<Descent, AskError>
    requires burnt { head.now.block ≤ burnt }
    ensures descends { (count : ℕ) (known : ℕ → Option (List ℕ)) (h : History) → HasPages P.Pages pages.old count known head.now.root head.now.block h → last_moment (asks cursor.old) < settled h → IsGathered cursor.old h → IfOk result (Descends count known h cursor.old cursor.new) }
    ensures further { IfOk result (GoesFurther cursor.old cursor.new) }
    ensures burnt { IfOk result (ReadsBelow burnt) }
    ensures gathered { (count : ℕ) (known : ℕ → Option (List ℕ)) (h : History) → HasPages P.Pages pages.old count known head.now.root head.now.block h → last_moment (asks cursor.old) < settled h → IsGathered cursor.old h → IsGathered cursor.new h }
    ensures asks { asks cursor.new ≡ asks cursor.old }
    ensures blames { (count : ℕ) (known : ℕ → Option (List ℕ)) (h : History) → HasPages P.Pages pages.old count known head.now.root head.now.block h → IfErr result BlamesNone }
    ensures refused { IfErr result (LookRefusal (P.down pages.old)) }
    ensures undamaged { (block : ℕ) → result ≡ Err (AskError.Damaged block) → ⊥ }
    ensures reads { (start : Start) (shown : List (List ℕ)) → P.shows pages.old start shown → P.shows pages.new start shown }
    ensures homes { P.homes pages.new ≡ P.homes pages.old }
    ensures down { P.down pages.new ≡ P.down pages.old }
    ensures device { KeepsDevice (P.honest pages.old) (P.honest pages.new) (P.faults pages.old) (P.faults pages.new) (result ≡ Err AskError.Fault) }
    ensures honest { P.honest pages.old ↔ P.honest pages.new }
{
    versions_report();
    gathered_follows_histories();
    let root = root_of(pages, head)?;
    match cursor {
        Cursor::Rows(rows) => {
            let turn = rows_turn(pages, alloc, &root, burnt, rows)?;
            Ok(of_rows(turn))
        }
        Cursor::Events(events) => {
            // A call on each peer and prefix gives the proof its limits.
            let _len = events.question.peer.encoded_len();
            let _address = events.question.prefix.address();
            let turn = events_turn(pages, alloc, &root, burnt, events)?;
            Ok(of_events(turn))
        }
    }
}

impl<E: EraseDisk + Drop, O: OnceDisk + Drop> Archive<E, O> {
    ghost use Rattle.disk_archive.specs.Archives.{Represents, RepresentsIfHonest, ContinuesFrom, IsHonest, erase_of, erase_state, is_down, once_of, once_state, pen_in, settings_of, site_of};
    ghost use Rattle.disk_archive.specs.Blanks.{next_block};
    ghost use Rattle.disk_archive.specs.Sites.{LeftRepresents, LeftEither};
    ghost use Rattle.disk_archive.specs.Crashes.{Crashes, Lasts};
    ghost use Rattle.disk_archive.specs.inner.Idle.{IsAsBefore};

    /// The start of a question. It needs no disk and no memory.
    pub fn start(&self, query: Query) -> Cursor
        ensures asks { asks result ≡ query }
        ensures gathered { (h : History) → IsGathered result h }
    {
        Cursor::start(self.alloc, query)
    }

    // A turn of a question if the archive represents a history.
    fn try_descend(&mut self, cursor: &mut Cursor) -> Result<Descent, AskError>
        ensures usable { OnOk result (is_down self.old ≡ false) }
        ensures down { is_down self.new ≡ is_down self.old }
        ensures idle { is_down self.old ≡ true → IsAsBefore self.old self.new }
        ensures unmoved { is_down self.old ≡ true → cursor.new ≡ cursor.old }
        ensures reported { is_down self.old ≡ true → result ≡ Err AskError.NeedsRecovery }
        ensures recovery { result ≡ Err AskError.NeedsRecovery → is_down self.old ≡ true }
        ensures honest { IsHonest self.old ↔ IsHonest self.new }
        ensures descends { IfOk result (λ descent. (h : History) → Represents self.old h → IsGathered cursor.old h → Descends (O.block_count (once_of self.old)) (once_state self.old).settled h cursor.old cursor.new descent) }
        ensures further { IfOk result (GoesFurther cursor.old cursor.new) }
        ensures burnt { IfOk result (ReadsBelow (next_block self.old)) }
        ensures gathered { (h : History) → Represents self.old h → IsGathered cursor.old h → IsGathered cursor.new h }
        ensures asks { asks cursor.new ≡ asks cursor.old }
        ensures below { OnOk result ((h : History) → Represents self.old h → last_moment (asks cursor.old) < settled h) }
        ensures above { (h : History) → Represents self.old h → (mark : ℕ) → result ≡ Err (AskError.AboveWatermark mark) → (mark ≡ settled h) × (settled h ≤ last_moment (asks cursor.old)) }
        ensures watermark { (h : History) → Represents self.old h → settled h ≤ last_moment (asks cursor.old) → result ≡ Err (AskError.AboveWatermark (settled h)) }
        ensures represents { (h : History) → Represents self.old h → Represents self.new h }
        ensures blames { (h : History) → Represents self.old h → IfErr result BlamesNone }
        ensures undamaged { (block : ℕ) → result ≡ Err (AskError.Damaged block) → ⊥ }
        ensures still { (h : History) → Represents self.old h → (erase_state self.new).clock ≡ (erase_state self.old).clock }
        ensures crash { (h : History) → Represents self.old h → Crashes self.old self.new (LeftEither (site_of self.old) h h) }
        ensures disk { once_of self.new ≡ once_of self.old }
        ensures blocks { once_state self.new ≡ once_state self.old }
        ensures device { KeepsDevice (E.honest (erase_of self.old)) (E.honest (erase_of self.new)) (E.fault_count (erase_of self.old)) (E.fault_count (erase_of self.new)) (result ≡ Err AskError.Fault) }
        ensures pen { pen_in self.new ≡ pen_in self.old }
        ensures settings { settings_of self.new ≡ settings_of self.old }
    {
        let burnt = self.shelf.next();
        begin(&mut self.tx)?;
        check_settled(&self.sequencer, &cursor.query())?;
        let descent = descend_by(self.alloc, &mut self.tx, &self.head, burnt, cursor)?;
        Ok(descent)
    }

    /// A turn of a question over what is applied, if its last moment is below the settled watermark: the answer; or the walk has come
    /// further, to a higher key or a later stamp, and the question goes on with its next turn; or settled blocks have to be read for it,
    /// which the errand does without the archive. The answer is that of what is applied now, and of each later history. If a column
    /// names a block that was never burnt, its page is reported as bad, and no errand is returned.
    ///
    /// What the question has gathered so far stays right, whatever was called since its last turn. A turn looks at one key and what follows
    /// in its leaf, or at one stamp, reads only pages, which stay in the archive's cache, and writes nothing. After each outcome the
    /// archive represents the same history as before, and what the question has gathered is right over it.
    pub fn descend(&mut self, cursor: &mut Cursor) -> Result<Descent, AskError>
        ensures descends { IfOk result (λ descent. IsHonest self.old → (h : History) → RepresentsIfHonest self.old h → IsGathered cursor.old h → Descends (O.block_count (once_of self.old)) (once_state self.old).settled h cursor.old cursor.new descent) }
        ensures further { IfOk result (GoesFurther cursor.old cursor.new) }
        ensures burnt { IfOk result (ReadsBelow (next_block self.old)) }
        ensures gathered { IsHonest self.old → (h : History) → RepresentsIfHonest self.old h → IsGathered cursor.old h → IsGathered cursor.new h }
        ensures asks { asks cursor.new ≡ asks cursor.old }
        ensures below { OnOk result (IsHonest self.old → (h : History) → RepresentsIfHonest self.old h → last_moment (asks cursor.old) < settled h) }
        ensures above { IsHonest self.old → (h : History) → RepresentsIfHonest self.old h → (mark : ℕ) → (result ≡ Err (AskError.AboveWatermark mark)) ↔ ((is_down self.old ≡ false) × (mark ≡ settled h) × (settled h ≤ last_moment (asks cursor.old))) }
        ensures holds { (h : History) → RepresentsIfHonest self.old h → RepresentsIfHonest self.new h }
        ensures crash { (h : History) → Represents self.old h → Crashes self.old self.new (LeftRepresents (site_of self.old) h) }
        ensures lasts { (h : History) → ContinuesFrom self.old h → Lasts self.old self.new h }
        ensures still { IsHonest self.old → (h : History) → RepresentsIfHonest self.old h → (erase_state self.new).clock ≡ (erase_state self.old).clock }
        ensures usable { OnOk result (is_down self.old ≡ false) }
        ensures idle { is_down self.old ≡ true → (erase_of self.new ≡ erase_of self.old) × (once_state self.new ≡ once_state self.old) × (is_down self.new ≡ true) }
        ensures unmoved { is_down self.old ≡ true → cursor.new ≡ cursor.old }
        ensures down { is_down self.new ≡ is_down self.old }
        ensures recovery { (result ≡ Err AskError.NeedsRecovery) ↔ (is_down self.old ≡ true) }
        ensures sound { IsHonest self.old → (h : History) → RepresentsIfHonest self.old h → (page : ℕ) → result ≡ Err (AskError.BadNode page) → ⊥ }
        ensures undamaged { (block : ℕ) → result ≡ Err (AskError.Damaged block) → ⊥ }
        ensures quiet { result ≢ Err AskError.Fault → E.fault_count (erase_of self.new) ≡ E.fault_count (erase_of self.old) }
        ensures counted { result ≡ Err AskError.Fault → E.fault_count (erase_of self.new) ≡ min (E.fault_count (erase_of self.old) + 1) 18446744073709551615 }
        ensures pen { pen_in self.new ≡ pen_in self.old }
        ensures honest { IsHonest self.old ↔ IsHonest self.new }
        ensures disk { once_of self.new ≡ once_of self.old }
        ensures blocks { once_state self.new ≡ once_state self.old }
        ensures settings { settings_of self.new ≡ settings_of self.old }
    {
        self.try_descend(cursor)
    }
}
