//! An archive of one collector to which one record was given, and then a second one, by calls that a device may refuse.

use crate::disks::{Both, given_up, open, opened, reopened};
use crate::made::{Made, give, made, mark_at, resume_of, vectors};
use archive_pages::Settings;
use interleaving_core::Resume;
use std::alloc::Global;

pub(crate) const SETTINGS: Settings = Settings {
    collectors: 1,
    ring: 9,
};

// Gives a record, this many seconds after the first moment. None where it isn't taken.
fn give_one(alloc: Global, archive: &mut Made, beyond: u8) -> Option<()> {
    give(archive, 0, &vectors(alloc, 1, beyond)?)
}

/// Disks on which one record waits. No page of them waits to go home.
pub(crate) fn one_given(alloc: Global) -> Option<Both> {
    let mut archive = made(alloc, SETTINGS)?;
    give_one(alloc, &mut archive, 0)?;
    Some(given_up(reopened(alloc, archive)?))
}

/// Disks on which two records wait, each of them in an open slot.
pub(crate) fn two_given(alloc: Global) -> Option<Both> {
    let mut archive = made(alloc, SETTINGS)?;
    give_one(alloc, &mut archive, 0)?;
    give_one(alloc, &mut archive, 1)?;
    Some(given_up(archive))
}

/// Disks on which a second record may wait.
#[derive(Drop)]
pub(crate) struct Given {
    pub(crate) disks: Both,
    pub(crate) is_acknowledged: bool,
}

/// Gives a second record, a second later, to the archive on these disks. Its header, the page of its ring and the head are written into
/// a slot, and after a sync the commit flag: four writes. To open the archive and to give the record two syncs are made each.
pub(crate) fn give_second(alloc: Global, disks: Both) -> Option<Given> {
    match open(alloc, disks)? {
        Ok(mut archive) => Some(Given {
            is_acknowledged: give_one(alloc, &mut archive, 1).is_some(),
            disks: given_up(archive),
        }),
        Err(unopened) => Some(Given {
            disks: unopened.disks,
            is_acknowledged: false,
        }),
    }
}

/// Where the collector goes on after this many records.
fn beyond(records: u32) -> Resume {
    Resume {
        offered: u64::from(records),
        admitted: u64::from(records),
        mark: mark_at(1_704_067_199u32.saturating_add(records)),
    }
}

/// Whether an archive has this many records.
pub(crate) fn has_records(archive: &Made, records: u32) -> bool {
    resume_of(archive, 0) == Some(beyond(records))
}

/// Whether this many records are there after a crash now.
pub(crate) fn leaves(alloc: Global, disks: &Both, crash: u8, records: u32) -> Option<bool> {
    let archive = opened(alloc, disks.crash(alloc, crash)?)?;
    Some(has_records(&archive, records))
}
