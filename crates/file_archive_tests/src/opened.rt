//! What opening the archive of a folder reports, and a check of one that is damaged.

ghost use Rattle.std.specs.Prelude.{◌≡◌};

use crate::be;
use crate::folders::{create, inside, is_created, new_name, remove};
use crate::session::{AMSTERDAM, Command, run};
use archive_calls::{RouteArchive, Trouble};
use disk_archive::OpenError;
use disk_files::{Access, FileErase, FileError, FileOnce, Part};
use file_archive::{FileDisks, OpenFault};
use service::Status;
use std::alloc::Global;
use std::fs;
use std::fs::OpenOptions;
use std::os::unix::fs::FileExt;

/// Writes over the beginning of a home page, which is after the journal's 265. Whether that was done.
fn spoil(rt: &HostRuntime, folder: &str, page: u64) -> Option<bool> {
    let path = inside(rt, folder, "pages.rha")?;
    let file = OpenOptions::new().write(true).open(rt, path.as_str()).ok()?;
    let at = page.checked_add(265)?.checked_mul(16_384)?;
    Some(file.write_at(&[255; 4096], at).is_ok())
}

/// How a feed ends that is given to a new archive, which is closed then.
fn given(rt: &HostRuntime, folder: &str) -> Option<Status> {
    let mut archive = create(rt, folder, 20, 7).ok()?;
    let mut out = Vec::new(rt.alloc());
    run(
        rt.alloc(),
        &mut archive,
        &Command::Load(0, AMSTERDAM),
        &mut out,
    )
}

/// What a check of an archive reports.
fn checked(rt: &HostRuntime, folder: &str) -> Option<Result<u64, Trouble>> {
    let mut archive = file_archive::open(rt.alloc(), rt, folder).ok()?;
    Some(archive.check())
}

/// Why the archive of a folder isn't opened.
#[derive(Clone, Copy, PartialEq)]
enum Refusal {
    /// It is.
    None,
    InUse,
    NoPages,
    NoMap,
    NotAJournal,
    BadHead,
    Other,
}

/// Why the archive of a folder isn't opened, if it isn't.
fn why_refused(rt: &HostRuntime, folder: &str) -> Refusal {
    match file_archive::open(rt.alloc(), rt, folder) {
        Ok(_) => Refusal::None,
        Err(OpenFault::File(FileError::InUse(Part::Pages))) => Refusal::InUse,
        Err(OpenFault::File(FileError::Missing(Part::Pages))) => Refusal::NoPages,
        Err(OpenFault::File(FileError::Missing(Part::Map))) => Refusal::NoMap,
        Err(OpenFault::Archive(OpenError::NotAJournal)) => Refusal::NotAJournal,
        Err(OpenFault::Archive(OpenError::BadNode(0))) => Refusal::BadHead,
        Err(_) => Refusal::Other,
    }
}

/// Whether a new archive isn't opened while it is held.
fn is_held(rt: &HostRuntime, folder: &str) -> bool {
    match create(rt, folder, 20, 7) {
        Ok(_archive) => why_refused(rt, folder) == Refusal::InUse,
        Err(_) => false,
    }
}

// After the head and the nine pages of the ring page 10 is the root of the tree.
#[test]
fn a_damaged_page_of_the_tree_is_reported_by_a_check(rt: HostRuntime) {
    let folder = new_name(&rt, "spoilt").expect(&rt, "a name");
    be(&rt, given(&rt, &folder) == Some(Status::Done), "a feed");
    be(&rt, checked(&rt, &folder) == Some(Ok(6)), "a check");
    be(&rt, spoil(&rt, &folder, 10) == Some(true), "damage");
    be(
        &rt,
        checked(&rt, &folder) == Some(Err(Trouble::BadNode(10))),
        "a check of it",
    );
    be(&rt, remove(&rt, &folder), "the folder goes");
}

#[test]
fn an_archive_is_one_process_s_at_a_time(rt: HostRuntime) {
    let folder = new_name(&rt, "held").expect(&rt, "a name");
    be(&rt, is_held(&rt, &folder), "an archive that is held");
    be(
        &rt,
        why_refused(&rt, &folder) == Refusal::None,
        "one that is let go",
    );
    be(&rt, remove(&rt, &folder), "the folder goes");
}

/// Makes a file of pages in a new folder. Whether that was done.
fn make_pages(rt: &HostRuntime, folder: &str) -> bool {
    fs::create_dir(rt, folder).is_ok()
        && FileErase::create(rt.alloc(), rt, folder, 300 * 16_384).is_ok()
}

/// Makes files of blocks in a folder. Whether that was done.
fn make_blocks(rt: &HostRuntime, folder: &str) -> bool {
    FileOnce::create(rt.alloc(), rt, folder, 7).is_ok()
}

#[test]
fn a_folder_without_an_archive_is_not_opened(rt: HostRuntime) {
    let folder = new_name(&rt, "no_archive").expect(&rt, "a name");
    be(
        &rt,
        why_refused(&rt, &folder) == Refusal::NoPages,
        "no folder",
    );
    be(&rt, make_pages(&rt, &folder), "pages");
    be(&rt, why_refused(&rt, &folder) == Refusal::NoMap, "no map");
    be(&rt, make_blocks(&rt, &folder), "blocks");
    be(
        &rt,
        why_refused(&rt, &folder) == Refusal::NotAJournal,
        "no journal",
    );
    be(&rt, remove(&rt, &folder), "the folder goes");
}

#[test]
fn a_damaged_head_is_reported_as_home_page_0(rt: HostRuntime) {
    let folder = new_name(&rt, "damaged").expect(&rt, "a name");
    be(&rt, is_created(&rt, &folder, 20, 7), "an archive");
    // The head has a time at octet 8, and none is so great.
    be(&rt, spoil(&rt, &folder, 0) == Some(true), "damage");
    be(
        &rt,
        why_refused(&rt, &folder) == Refusal::BadHead,
        "an opening",
    );
    be(&rt, remove(&rt, &folder), "the folder goes");
}

/// Opens the journal's first slot under a transaction number. It lays zeros over a page of the ring that holds nothing. Whether that was
/// done.
fn open_slot(rt: &HostRuntime, folder: &str, number: u8) -> Option<bool> {
    let path = inside(rt, folder, "pages.rha")?;
    let file = OpenOptions::new().write(true).open(rt, path.as_str()).ok()?;
    let header = [0, 0, 0, 0, 0, 0, 0, number, 1, 0, 0, 0, 0, 0, 0, 0, 5];
    Some(file.write_at(&header, 2 * 16_384).is_ok() && file.write_at(&[0xa5], 16_384).is_ok())
}

/// Whether a check of the journal's slots ends so.
fn slots_are(rt: &HostRuntime, folder: &str, expected: Result<(), OpenFault>) -> bool {
    match FileDisks::open(rt.alloc(), rt, folder, Access::Alone) {
        Ok(mut disks) => disks.check_slots() == expected,
        Err(_) => false,
    }
}

#[test]
fn an_open_slot_with_another_number_is_found(rt: HostRuntime) {
    let folder = new_name(&rt, "slots").expect(&rt, "a name");
    be(&rt, is_created(&rt, &folder, 20, 7), "an archive");
    be(&rt, slots_are(&rt, &folder, Ok(())), "closed slots");
    be(&rt, open_slot(&rt, &folder, 1) == Some(true), "a slot");
    be(&rt, slots_are(&rt, &folder, Ok(())), "its own number");
    be(&rt, open_slot(&rt, &folder, 9) == Some(true), "a round");
    be(
        &rt,
        slots_are(&rt, &folder, Ok(())),
        "a number of a later round",
    );
    be(&rt, open_slot(&rt, &folder, 2) == Some(true), "a number");
    let wrong = Err(OpenFault::Archive(OpenError::BadSlot(2)));
    be(&rt, slots_are(&rt, &folder, wrong), "another number");
    be(&rt, remove(&rt, &folder), "the folder goes");
}

/// A command that counts how often it is run.
#[derive(Drop)]
struct CountRuns {
    runs: u32,
}

/// The exit status of that command.
const STATUS: u8 = 7;

impl<A: RouteArchive> disk_commands::Command<A> for CountRuns {
    ghost does = { λ was now most h g status. g ≡ h };

    fn run(&mut self, _alloc: Global, archive: A) -> (A, u8) {
        self.runs = self.runs.saturating_add(1);
        (archive, STATUS)
    }
}

/// How a command ends that is run over an archive whose files are held so.
#[derive(Clone, Copy, PartialEq)]
enum End {
    /// It was run once, and its exit status was returned.
    Ran,
    InUse,
    NeedsAlone,
    Other,
}

/// How it ends. The files are let go again.
fn end_of(rt: &HostRuntime, folder: &str, access: Access) -> End {
    let mut command = CountRuns { runs: 0 };
    let ended = match FileDisks::open(rt.alloc(), rt, folder, access) {
        Ok(disks) => disks.run(rt.alloc(), &mut command).outcome,
        Err(why) => Err(OpenFault::File(why)),
    };
    match ended {
        Ok(status) if status == STATUS && command.runs == 1 => End::Ran,
        Err(OpenFault::File(FileError::InUse(Part::Pages))) => End::InUse,
        Err(fault) if fault.needs_alone() => End::NeedsAlone,
        _ => End::Other,
    }
}

/// How runs end over an archive with an open slot, one after another.
const RECOVERED: [(Access, End); 4] = [
    (Access::Shared, End::NeedsAlone),
    (Access::Shared, End::NeedsAlone),
    (Access::Alone, End::Ran),
    (Access::Shared, End::Ran),
];

/// How runs end while the archive is held so.
const BESIDE: [(Access, Access, End); 3] = [
    (Access::Shared, Access::Shared, End::Ran),
    (Access::Shared, Access::Alone, End::InUse),
    (Access::Alone, Access::Shared, End::InUse),
];

/// How a run ends while disks hold the files so.
fn end_beside(rt: &HostRuntime, folder: &str, held: Access, access: Access) -> End {
    match FileDisks::open(rt.alloc(), rt, folder, held) {
        Ok(_disks) => end_of(rt, folder, access),
        Err(_) => End::Other,
    }
}

#[test]
fn an_archive_is_shared_where_nothing_has_to_be_written(rt: HostRuntime) {
    let folder = new_name(&rt, "shared").expect(&rt, "a name");
    be(&rt, is_created(&rt, &folder, 20, 7), "an archive");
    for (held, access, end) in BESIDE {
        be(
            &rt,
            end_beside(&rt, &folder, held, access) == end,
            "beside another",
        );
    }
    be(&rt, open_slot(&rt, &folder, 1) == Some(true), "a slot");
    for (access, end) in RECOVERED {
        be(
            &rt,
            end_of(&rt, &folder, access) == end,
            "one after another",
        );
    }
    be(&rt, remove(&rt, &folder), "the folder goes");
}
