//! Looks that are answered to their end: by current pages, or in the blocks of the past to which these lead.

ghost use Rattle.std.specs.Prelude.{◌≡◌, ◌≤◌, ℕ, List, IfOk, IfErr, Err, ◌↔◌, ◌+◌, IsErrOf, min};
ghost use Rattle.once_store.specs.Readers.{capacity_of, reader_disk};
ghost use Rattle.version_model.specs.Entries.{versions_of};
ghost use Rattle.version_model.specs.Looks.{IsPart, IsReached};
ghost use Rattle.version_model.specs.Pages.{all_keys};
ghost use Rattle.version_model.specs.Versions.{Version};
ghost use Rattle.tsb_walk.specs.AllVersions.{VersionsRefusal};
ghost use Rattle.tsb_walk.specs.Answers.{reached_as};
ghost use Rattle.tsb_walk.specs.Looked.{GoesOnFrom, ReportsFrom};
ghost use Rattle.tsb_walk.specs.Refusals.{OnlyReads};
ghost use Rattle.tsb_walk.specs.Shown.{keys_at};
ghost use Rattle.route_history.specs.Blame.{BlamesNone};
ghost use Rattle.tree_questions.specs.Reading.{ReadsTree};

use crate::naming::{next_named, part_named};
use disk_models::OnceDisk;
use once_store::ShelfReader;
use page_tx::Pages;
use route_model::Key;
use std::alloc::Global;
use tsb_node::{key_fits, stamp_fits};
use tsb_walk::{KeyVersions, Looked, NodeError, PagePlace, Parted, Reached, hist_next, hist_part};
use version_model::Stamp;

/// The next key from `from` on, itself included, that has a value as of the stamp; or a higher key below which none has; or that none
/// has.
pub(crate) fn next_key<P: Pages, O: OnceDisk + Drop>(
    pages: &mut P,
    reader: &mut ShelfReader<O>,
    seen: &mut O::Seen,
    alloc: Global,
    root: &PagePlace,
    burnt: u64,
    from: Key,
    stamp: Stamp,
) -> Result<Reached, NodeError>
    requires all { keys_at root.now ≡ all_keys }
    requires level { 1 ≤ root.now.level }
    ensures next { (all : List Version) → ReadsTree P.Pages pages.old O.OnceDisk reader.old seen.old root.now burnt all → IfOk result (λ reached. IsReached all stamp from (reached_as reached)) }
    ensures stays { (all : List Version) → ReadsTree P.Pages pages.old O.OnceDisk reader.old seen.old root.now burnt all → ReadsTree P.Pages pages.new O.OnceDisk reader.new seen.new root.now burnt all }
    ensures blames { (all : List Version) → ReadsTree P.Pages pages.old O.OnceDisk reader.old seen.old root.now burnt all → IfErr result BlamesNone }
    ensures onward { IfOk result (GoesOnFrom from) }
    ensures refused { IfErr result (VersionsRefusal (P.down pages.old)) }
    ensures same { OnlyReads P.Pages pages.old pages.new (result ≡ Err NodeError.Fault) }
    ensures known { O.honest_seen (reader_disk reader.old) seen.old → O.known seen.new ≡ O.known seen.old }
    ensures disk { reader_disk reader.new ≡ reader_disk reader.old }
    ensures capacity { capacity_of reader.new ≡ capacity_of reader.old }
    ensures honest { O.honest_seen (reader_disk reader.old) seen.old ↔ O.honest_seen (reader_disk reader.old) seen.new }
    ensures quiet { (IsErrOf result NodeError.OnceFault → ⊥) → O.seen_fault_count seen.new ≡ O.seen_fault_count seen.old }
    ensures counted { IsErrOf result NodeError.OnceFault → O.seen_fault_count seen.new ≡ min (O.seen_fault_count seen.old + 1) 18446744073709551615 }
{
    key_fits(from);
    match next_named(pages, alloc, root, burnt, from, stamp)? {
        Looked::Here(reached) => Ok(reached),
        Looked::InBlock(place) => {
            let reached = hist_next(reader, seen, alloc, &place, from, stamp)?;
            Ok(reached)
        }
    }
}

/// The versions of the key from the stamp on, ends included, in the order of their stamps: all before the stamp that is returned
/// with them, or all that there are if none is.
pub(crate) fn part_from<P: Pages, O: OnceDisk + Drop>(
    pages: &mut P,
    reader: &mut ShelfReader<O>,
    seen: &mut O::Seen,
    alloc: Global,
    root: &PagePlace,
    burnt: u64,
    key: Key,
    from: Stamp,
) -> Result<KeyVersions, NodeError>
    requires all { keys_at root.now ≡ all_keys }
    requires level { 1 ≤ root.now.level }
    ensures part { (all : List Version) → ReadsTree P.Pages pages.old O.OnceDisk reader.old seen.old root.now burnt all → IfOk result (λ part. IsPart all key from (versions_of part.entries.items) part.reported) }
    ensures stays { (all : List Version) → ReadsTree P.Pages pages.old O.OnceDisk reader.old seen.old root.now burnt all → ReadsTree P.Pages pages.new O.OnceDisk reader.new seen.new root.now burnt all }
    ensures blames { (all : List Version) → ReadsTree P.Pages pages.old O.OnceDisk reader.old seen.old root.now burnt all → IfErr result BlamesNone }
    ensures onward { IfOk result (ReportsFrom from) }
    ensures refused { IfErr result (VersionsRefusal (P.down pages.old)) }
    ensures same { OnlyReads P.Pages pages.old pages.new (result ≡ Err NodeError.Fault) }
    ensures known { O.honest_seen (reader_disk reader.old) seen.old → O.known seen.new ≡ O.known seen.old }
    ensures disk { reader_disk reader.new ≡ reader_disk reader.old }
    ensures capacity { capacity_of reader.new ≡ capacity_of reader.old }
    ensures honest { O.honest_seen (reader_disk reader.old) seen.old ↔ O.honest_seen (reader_disk reader.old) seen.new }
    ensures quiet { (IsErrOf result NodeError.OnceFault → ⊥) → O.seen_fault_count seen.new ≡ O.seen_fault_count seen.old }
    ensures counted { IsErrOf result NodeError.OnceFault → O.seen_fault_count seen.new ≡ min (O.seen_fault_count seen.old + 1) 18446744073709551615 }
{
    key_fits(key);
    stamp_fits(from);
    match part_named(pages, alloc, root, burnt, key, from)? {
        Parted::Here(part) => Ok(part),
        Parted::InBlock(place) => {
            let part = hist_part(reader, seen, alloc, &place, key, from)?;
            Ok(part)
        }
    }
}
