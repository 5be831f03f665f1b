//! The versions of one column are counted: those of its past, and those of its current leaf.

ghost use Rattle.std.specs.Prelude.{◌≡◌, ◌↔◌, ◌⊎◌, ◌+◌, ℕ, List, IfOk, OnOk, IfErr, Err, IsErrOf, min};
ghost use Rattle.once_store.specs.Readers.{capacity_of, reader_disk};
ghost use Rattle.page_tx.specs.Start.{Start};
ghost use Rattle.tsb_walk.specs.AllVersions.{VersionsRefusal};
ghost use Rattle.tsb_walk.specs.Knowing.{ReadsWell};
ghost use Rattle.tsb_walk.specs.Refusals.{OnlyReads, LookRefusal};
ghost use Rattle.tsb_check.specs.Counted.{ReportsPast, MeetUnknown, MeetDamage};
ghost use Rattle.tsb_check.specs.Pages.{past_of};
ghost use Rattle.tsb_check.specs.inner.Columns.{HasCurrent, ReportsColumn, IsBadColumn, IsUnusedColumn, IsUsedColumn, IsUnknownIn, IsDamagedIn};

use crate::in_use::{InUse, check_column};
use crate::past::count_past;
use crate::places::list_places;
use crate::reading::{column_at, count_current};
use disk_models::OnceDisk;
use once_store::{BlockError, ShelfReader};
use page_tx::Pages;
use std::alloc::{AllocError, Global};
use tsb_node::DecodedColumn;
use tsb_walk::{NodeError, PagePlace};
use version_model::{Bounds, Place, Stamp};

// The column at a place, and how many versions its current leaf has.
fn current_of<P: Pages>(
    pages: &mut P,
    alloc: Global,
    place: &PagePlace,
) -> Result<(DecodedColumn, u64), NodeError>
    ensures represents_node { (start : Start) (shown : List (List ℕ)) → P.shows pages.old start shown → IfOk result (λ read. HasCurrent shown place.now read.0 read.1) }
    ensures bad { (start : Start) (shown : List (List ℕ)) → P.shows pages.old start shown → (page : ℕ) → result ≡ Err (NodeError.BadNode page) → IsBadColumn shown place.now page }
    ensures refused { IfErr result (LookRefusal (P.down pages.old)) }
    ensures pages { OnlyReads P.Pages pages.old pages.new (result ≡ Err NodeError.Fault) }
{
    let decoded = column_at(pages, alloc, place)?;
    let current = count_current(pages, alloc, place, &decoded.current)?;
    Ok((decoded, current))
}

// The places of the past of a column.
fn places_in(
    alloc: Global,
    place: &PagePlace,
    decoded: &DecodedColumn,
) -> Result<Vec<Place>, AllocError>
    ensures { IfOk result (λ places. places.items ≡ past_of place.now decoded.now.parts.items decoded.now.current.start) }
{
    let bounds = Bounds {
        low: place.low,
        high: place.high,
        start: Stamp::new(0, 0),
        end: Some(decoded.current.start),
    };
    let places = list_places(alloc, &bounds, &decoded.parts)?;
    Ok(places)
}

// How many versions the past of a column has.
fn count_before<O: OnceDisk + Drop>(
    reader: &mut ShelfReader<O>,
    seen: &mut O::Seen,
    alloc: Global,
    place: &PagePlace,
    decoded: &DecodedColumn,
) -> Result<u64, BlockError>
    ensures checked { ReadsWell O.OnceDisk reader.old seen.old
        → IfOk result (λ n. ReportsPast (O.known seen.old) (O.block_count (reader_disk reader.old)) (past_of place.now decoded.now.parts.items decoded.now.current.start) n ⊎ MeetUnknown (O.known seen.old) (O.block_count (reader_disk reader.old)) (past_of place.now decoded.now.parts.items decoded.now.current.start)) }
    ensures damaged { ReadsWell O.OnceDisk reader.old seen.old → (block : ℕ) → result ≡ Err (BlockError.Damaged block)
        → MeetDamage (O.known seen.old) (O.block_count (reader_disk reader.old)) (past_of place.now decoded.now.parts.items decoded.now.current.start) block ⊎ MeetUnknown (O.known seen.old) (O.block_count (reader_disk reader.old)) (past_of place.now decoded.now.parts.items decoded.now.current.start) }
    ensures reads { ReadsWell O.OnceDisk reader.old seen.old → ReadsWell O.OnceDisk reader.new seen.new ⊎ MeetUnknown (O.known seen.old) (O.block_count (reader_disk reader.old)) (past_of place.now decoded.now.parts.items decoded.now.current.start) }
    ensures same { O.honest_seen (reader_disk reader.old) seen.old → O.known seen.new ≡ O.known seen.old }
    ensures disk { reader_disk reader.new ≡ reader_disk reader.old }
    ensures capacity { capacity_of reader.new ≡ capacity_of reader.old }
    ensures honest { O.honest_seen (reader_disk reader.old) seen.old ↔ O.honest_seen (reader_disk reader.old) seen.new }
    ensures quiet { (IsErrOf result BlockError.Fault → ⊥) → O.seen_fault_count seen.new ≡ O.seen_fault_count seen.old }
    ensures counted { IsErrOf result BlockError.Fault → O.seen_fault_count seen.new ≡ min (O.seen_fault_count seen.old + 1) 18446744073709551615 }
{
    let places = places_in(alloc, place, decoded)?;
    count_past(reader, seen, alloc, places)
}

/// How many versions the column at a place has. All that it uses is in use.
pub fn count_column<P: Pages, O: OnceDisk + Drop>(
    pages: &mut P,
    reader: &mut ShelfReader<O>,
    seen: &mut O::Seen,
    alloc: Global,
    in_use: &InUse,
    place: &PagePlace,
) -> Result<u64, NodeError>
    ensures checked { (start : Start) (shown : List (List ℕ)) → P.shows pages.old start shown → ReadsWell O.OnceDisk reader.old seen.old
        → IfOk result (λ n. ReportsColumn shown (O.known seen.old) (O.block_count (reader_disk reader.old)) place.now n ⊎ IsUnknownIn shown (O.known seen.old) (O.block_count (reader_disk reader.old)) place.now) }
    ensures bad { (start : Start) (shown : List (List ℕ)) → P.shows pages.old start shown → (page : ℕ) → result ≡ Err (NodeError.BadNode page) → IsBadColumn shown place.now page ⊎ IsUnusedColumn shown in_use.now place.now page }
    ensures used { (start : Start) (shown : List (List ℕ)) → P.shows pages.old start shown → OnOk result (IsUsedColumn shown in_use.now place.now) }
    ensures damaged { (start : Start) (shown : List (List ℕ)) → P.shows pages.old start shown → ReadsWell O.OnceDisk reader.old seen.old → (block : ℕ) → result ≡ Err (NodeError.Damaged block)
        → IsDamagedIn shown (O.known seen.old) (O.block_count (reader_disk reader.old)) place.now block ⊎ IsUnknownIn shown (O.known seen.old) (O.block_count (reader_disk reader.old)) place.now }
    ensures reads { (start : Start) (shown : List (List ℕ)) → P.shows pages.old start shown → ReadsWell O.OnceDisk reader.old seen.old
        → ReadsWell O.OnceDisk reader.new seen.new ⊎ IsUnknownIn shown (O.known seen.old) (O.block_count (reader_disk reader.old)) place.now }
    ensures refused { IfErr result (VersionsRefusal (P.down pages.old)) }
    ensures pages { OnlyReads P.Pages pages.old pages.new (result ≡ Err NodeError.Fault) }
    ensures same { O.honest_seen (reader_disk reader.old) seen.old → O.known seen.new ≡ O.known seen.old }
    ensures disk { reader_disk reader.new ≡ reader_disk reader.old }
    ensures capacity { capacity_of reader.new ≡ capacity_of reader.old }
    ensures honest { O.honest_seen (reader_disk reader.old) seen.old ↔ O.honest_seen (reader_disk reader.old) seen.new }
    ensures quiet { (IsErrOf result NodeError.OnceFault → ⊥) → O.seen_fault_count seen.new ≡ O.seen_fault_count seen.old }
    ensures counted { IsErrOf result NodeError.OnceFault → O.seen_fault_count seen.new ≡ min (O.seen_fault_count seen.old + 1) 18446744073709551615 }
{
    let (decoded, current) = current_of(pages, alloc, place)?;
    check_column(in_use, place.page, &decoded)?;
    let past = count_before(reader, seen, alloc, place, &decoded)?;
    Ok(past.saturating_add(current))
}
