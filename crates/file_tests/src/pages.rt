//! The erasable disk over a real file.

use crate::answers::Answer::{self, Fault, Yes};
use crate::be;
use crate::folders::{
    PAGE, are_all, beside, cut, folder, has, holds, inside, link, octet_of, remove, remove_file,
    size_of, write_four,
};
use disk_files::{Access, Call, Failure, Failures, FileErase, FileError, Part, Reason};
use disk_models::EraseDisk;
use std::os::fd::AsRawFd;
use std::sync::Arc;

/// The file of a disk.
const FILE: &str = "pages.rha";

/// A step over a disk of pages.
#[derive(Clone, Copy)]
enum Step {
    /// A page is filled with an octet.
    Write(u64, u8),
    /// A page is read: is it filled with this octet?
    Is(u64, u8),
    Sync,
    /// Its file is given another size.
    Cut(u64),
}

use Step::{Cut, Is, Sync, Write};

fn fill(disk: &mut FileErase, n: u64, octet: u8) -> Answer {
    let at = n.saturating_mul(PAGE);
    if at > disk.size() || disk.size() - at < PAGE {
        return Answer::Harness;
    }
    Answer::of(disk.write_at(at, &[octet; 16_384]))
}

fn is_filled(disk: &mut FileErase, n: u64, octet: u8) -> Answer {
    let at = n.saturating_mul(PAGE);
    if at > disk.size() || disk.size() - at < PAGE {
        return Answer::Harness;
    }
    let mut octets = [99; 16_384];
    match disk.read(at, &mut octets) {
        Ok(()) => Answer::is(are_all(&octets, octet)),
        Err(_) => Fault,
    }
}

/// Takes a step.
fn act(rt: &HostRuntime, folder: &str, disk: &mut FileErase, step: Step) -> Answer {
    match step {
        Write(n, octet) => fill(disk, n, octet),
        Is(n, octet) => is_filled(disk, n, octet),
        Sync => Answer::of(disk.sync()),
        Cut(size) => cut(rt, folder, FILE, size),
    }
}

/// Whether each step returns what the table says.
fn plays(rt: &HostRuntime, folder: &str, disk: &mut FileErase, table: &[(Step, Answer)]) -> bool {
    for (step, expected) in table {
        if act(rt, folder, disk, *step) != *expected {
            return false;
        }
    }
    true
}

/// A new disk of `pages` pages.
fn created(rt: &HostRuntime, folder: &str, pages: u64) -> Option<FileErase> {
    FileErase::create(rt.alloc(), rt, folder, pages.checked_mul(PAGE)?).ok()
}

/// Whether a new disk of `pages` pages is made, and let go.
fn is_created(rt: &HostRuntime, folder: &str, pages: u64) -> bool {
    created(rt, folder, pages).is_some()
}

/// The disk of a folder.
fn opened(rt: &HostRuntime, folder: &str) -> Option<FileErase> {
    FileErase::open(rt.alloc(), rt, folder, Access::Alone).ok()
}

/// Why the disk of a folder isn't opened, if it isn't.
fn not_opened(rt: &HostRuntime, folder: &str) -> Option<FileError> {
    FileErase::open(rt.alloc(), rt, folder, Access::Alone).err()
}

/// Why a disk of `octets` octets isn't created, if it isn't.
fn not_created(rt: &HostRuntime, folder: &str, octets: u64) -> Option<FileError> {
    FileErase::create(rt.alloc(), rt, folder, octets).err()
}

const TWO_WRITES: [(Step, Answer); 2] = [(Write(1, 7), Yes), (Write(2, 9), Yes)];

const WRITTEN: [(u64, Option<u8>); 6] = [
    (16_383, Some(0)),
    (16_384, Some(7)),
    (32_767, Some(7)),
    (32_768, Some(9)),
    (49_151, Some(9)),
    (49_152, None),
];

#[test]
fn pages_stand_at_their_places_in_the_file(rt: HostRuntime) {
    let folder = folder(&rt, "places").expect(&rt, "a folder");
    let mut disk = created(&rt, &folder, 3).expect(&rt, "a disk");
    be(
        &rt,
        plays(&rt, &folder, &mut disk, &TWO_WRITES),
        "two writes",
    );
    be(&rt, holds(&rt, &folder, FILE, &WRITTEN), "their places");
    be(&rt, remove(&rt, &folder), "the folder goes");
}

const WRITE_AND_SYNC: [(Step, Answer); 2] = [(Write(1, 7), Yes), (Sync, Yes)];

const READ_AGAIN: [(Step, Answer); 2] = [(Is(0, 0), Yes), (Is(1, 7), Yes)];

#[test]
fn pages_are_there_after_the_disk_is_opened_again(rt: HostRuntime) {
    let folder = folder(&rt, "pages").expect(&rt, "a folder");
    let mut disk = created(&rt, &folder, 2).expect(&rt, "a disk");
    be(
        &rt,
        plays(&rt, &folder, &mut disk, &WRITE_AND_SYNC),
        "a write",
    );
    drop(disk);
    let mut disk = opened(&rt, &folder).expect(&rt, "the disk again");
    be(
        &rt,
        plays(&rt, &folder, &mut disk, &READ_AGAIN),
        "what was written",
    );
    be(
        &rt,
        disk.size() == 32_768 && disk.faults() == 0,
        "its size, and no fault",
    );
    be(&rt, remove(&rt, &folder), "the folder goes");
}

const BEFORE: [(Step, Answer); 1] = [(Write(0, 5), Yes)];

const AFTER: [(Step, Answer); 3] = [(Is(0, 5), Yes), (Write(1, 6), Yes), (Sync, Yes)];

#[test]
fn two_processes_in_one_archive_are_one_too_many(rt: HostRuntime) {
    let folder = folder(&rt, "held").expect(&rt, "a folder");
    let mut disk = created(&rt, &folder, 2).expect(&rt, "a disk");
    be(&rt, plays(&rt, &folder, &mut disk, &BEFORE), "a write");
    let in_use = Some(FileError::InUse(Part::Pages));
    be(&rt, not_opened(&rt, &folder) == in_use, "an opening");
    be(&rt, not_created(&rt, &folder, PAGE) == in_use, "a creation");
    be(
        &rt,
        plays(&rt, &folder, &mut disk, &AFTER),
        "nothing was harmed",
    );
    be(&rt, remove(&rt, &folder), "the folder goes");
}

#[test]
fn an_archive_that_is_let_go_is_opened_and_not_made_again(rt: HostRuntime) {
    let folder = folder(&rt, "let_go").expect(&rt, "a folder");
    be(&rt, is_created(&rt, &folder, 2), "a disk");
    be(&rt, not_opened(&rt, &folder) == None, "an opening");
    let there = Some(FileError::Exists(Part::Pages));
    be(&rt, not_created(&rt, &folder, PAGE) == there, "a creation");
    be(&rt, remove(&rt, &folder), "the folder goes");
}

/// More octets than any file of this system may have: it is refused once the file is made.
const MOST: u64 = 9_223_372_036_854_759_424;

/// Sizes that no such file has.
const NO_SIZES: [u64; 6] = [0, 1, 16_383, 16_385, 1 << 63, 18_446_744_073_709_535_232];

/// Whether a size is refused once the file is made.
fn is_not_resized(rt: &HostRuntime, folder: &str, octets: u64) -> bool {
    matches!(
        not_created(rt, folder, octets),
        Some(FileError::Failed(Failure {
            part: Part::Pages,
            call: Call::Resize,
            reason: Reason::System(_),
        }))
    )
}

#[test]
fn sizes_that_no_such_file_has_make_nothing(rt: HostRuntime) {
    let folder = folder(&rt, "no_size").expect(&rt, "a folder");
    for octets in NO_SIZES {
        let refused = not_created(&rt, &folder, octets);
        be(&rt, refused == Some(FileError::Size(Part::Pages)), "a size");
    }
    be(&rt, is_not_resized(&rt, &folder, MOST), "too great a size");
    be(&rt, has(&rt, &folder, FILE) == Some(false), "no file");
    be(&rt, remove(&rt, &folder), "the folder goes");
}

#[test]
fn what_is_missing_is_reported(rt: HostRuntime) {
    let folder = folder(&rt, "missing").expect(&rt, "a folder");
    let nowhere = inside(rt.alloc(), &folder, "nowhere").expect(&rt, "a name");
    let missing = Some(FileError::Missing(Part::Pages));
    be(
        &rt,
        not_opened(&rt, &nowhere) == missing,
        "no folder to open",
    );
    be(
        &rt,
        not_created(&rt, &nowhere, PAGE) == missing,
        "no folder to create in",
    );
    be(&rt, not_opened(&rt, &folder) == missing, "no file to open");
    be(&rt, not_created(&rt, &folder, PAGE) == None, "a file");
    be(&rt, remove(&rt, &folder), "the folder goes");
}

/// Whether a new disk takes its file away.
fn takes_its_file(rt: &HostRuntime, folder: &str) -> Option<bool> {
    let disk = created(rt, folder, 1)?;
    disk.remove(rt.alloc(), rt, folder).ok()?;
    Some(!has(rt, folder, FILE)?)
}

/// Why a new disk doesn't take away another's file that took the name, if it doesn't.
fn not_removed(rt: &HostRuntime, folder: &str) -> Option<FileError> {
    let disk = created(rt, folder, 1)?;
    if !remove_file(rt, folder, FILE) || !write_four(rt, folder, FILE) {
        return None;
    }
    disk.remove(rt.alloc(), rt, folder).err()
}

#[test]
fn a_file_is_taken_away_by_its_maker_alone(rt: HostRuntime) {
    let folder = folder(&rt, "taken").expect(&rt, "a folder");
    be(
        &rt,
        takes_its_file(&rt, &folder) == Some(true),
        "its own file",
    );
    let missing = Some(FileError::Missing(Part::Pages));
    be(&rt, not_removed(&rt, &folder) == missing, "another's file");
    be(&rt, size_of(&rt, &folder, FILE) == Some(4), "it stays");
    be(&rt, remove(&rt, &folder), "the folder goes");
}

/// Why the disk of a folder isn't opened, if it isn't, where its file is cut to `octets`.
fn not_opened_cut(rt: &HostRuntime, folder: &str, octets: u64) -> Option<Option<FileError>> {
    if cut(rt, folder, FILE, octets) != Yes {
        return None;
    }
    Some(not_opened(rt, folder))
}

#[test]
fn a_file_of_another_size_is_refused(rt: HostRuntime) {
    let folder = folder(&rt, "sizes").expect(&rt, "a folder");
    be(&rt, is_created(&rt, &folder, 2), "a disk");
    let size = Some(FileError::Size(Part::Pages));
    for octets in [0, 100, 16_383, 16_385] {
        be(
            &rt,
            not_opened_cut(&rt, &folder, octets) == Some(size),
            "a size",
        );
    }
    be(
        &rt,
        not_opened_cut(&rt, &folder, PAGE) == Some(None),
        "a page",
    );
    be(&rt, remove(&rt, &folder), "the folder goes");
}

/// A disk of four pages whose file is cut within the second one.
const IS_CUT: [(Step, Answer); 2] = [(Write(0, 3), Yes), (Cut(PAGE + 100), Yes)];

/// What was cut isn't read as zeros.
const READS: [(Step, Answer); 4] = [
    (Is(0, 3), Yes),
    (Is(1, 0), Fault),
    (Is(3, 0), Fault),
    (Is(0, 3), Yes),
];

/// A write after the cut fails, and then nothing succeeds, also where the file has its size again.
const WRITES: [(Step, Answer); 5] = [
    (Write(3, 8), Fault),
    (Cut(4 * PAGE), Yes),
    (Is(0, 3), Fault),
    (Write(0, 8), Fault),
    (Sync, Fault),
];

/// A cut that only a sync meets is a failure, too.
const SYNCS: [(Step, Answer); 1] = [(Sync, Fault)];

/// Whether a disk whose file is cut goes on so, and fails this often.
fn is_met(rt: &HostRuntime, table: &[(Step, Answer)], faults: u64) -> Option<bool> {
    let folder = folder(rt, "cut")?;
    let mut disk = created(rt, &folder, 4)?;
    Some(
        plays(rt, &folder, &mut disk, &IS_CUT)
            && plays(rt, &folder, &mut disk, table)
            && disk.faults() == faults
            && remove(rt, &folder),
    )
}

#[test]
fn a_file_that_was_cut_is_met(rt: HostRuntime) {
    be(&rt, is_met(&rt, &READS, 2) == Some(true), "by reads");
    be(&rt, is_met(&rt, &WRITES, 4) == Some(true), "by writes");
    be(&rt, is_met(&rt, &SYNCS, 1) == Some(true), "by a sync");
}

const CUT_AND_WRITE: [(Step, Answer); 2] = [(Cut(PAGE + 100), Yes), (Write(3, 8), Fault)];

#[test]
fn a_write_after_a_cut_does_not_make_the_file_grow(rt: HostRuntime) {
    let folder = folder(&rt, "grow").expect(&rt, "a folder");
    let mut disk = created(&rt, &folder, 4).expect(&rt, "a disk");
    be(
        &rt,
        plays(&rt, &folder, &mut disk, &CUT_AND_WRITE),
        "a write after a cut",
    );
    be(&rt, size_of(&rt, &folder, FILE) == Some(16_484), "the size");
    be(&rt, remove(&rt, &folder), "the folder goes");
}

/// Whether a disk is neither opened nor created where the name of its file leads to something that is no regular file.
fn is_irregular(rt: &HostRuntime, folder: &str, target: &str) -> bool {
    let refused = Some(FileError::NotAFile(Part::Pages));
    link(rt, target, folder, FILE)
        && not_opened(rt, folder) == refused
        && not_created(rt, folder, PAGE) == refused
        && remove_file(rt, folder, FILE)
}

/// The same of a pipe.
fn is_pipe_irregular(rt: &HostRuntime, folder: &str) -> Option<bool> {
    let (reader, _writer) = std::io::pipe(rt).ok()?;
    let fd = reader.as_raw_fd();
    let pipe = format!(in rt.alloc(); "/proc/self/fd/{fd}").ok()?;
    Some(is_irregular(rt, folder, &pipe))
}

/// The same of a file that is at hand.
fn not_opened_on_device(rt: &HostRuntime) -> Option<FileError> {
    let refused = FileErase::open_on(beside(rt, "/dev", "null")?, Access::Alone).err()?;
    Some(refused.error)
}

#[test]
fn what_is_no_regular_file_is_refused_and_not_waited_for(rt: HostRuntime) {
    let folder = folder(&rt, "irregular").expect(&rt, "a folder");
    for target in ["/dev/zero", "/dev/null", "/tmp"] {
        be(&rt, is_irregular(&rt, &folder, target), target);
    }
    be(&rt, is_pipe_irregular(&rt, &folder) == Some(true), "a pipe");
    let refused = Some(FileError::NotAFile(Part::Pages));
    be(
        &rt,
        not_opened_on_device(&rt) == refused,
        "a device at hand",
    );
    be(&rt, remove(&rt, &folder), "the folder goes");
}

/// Makes a disk of one page in a folder, and a link to its file in another. Whether that was done.
fn is_linked(rt: &HostRuntime, folder: &str, other: &str) -> bool {
    is_created(rt, other, 1)
        && match inside(rt.alloc(), other, FILE) {
            Some(target) => link(rt, &target, folder, FILE),
            None => false,
        }
}

#[test]
fn a_page_reads_as_it_was_written_through_a_link(rt: HostRuntime) {
    let folder_of_link = folder(&rt, "link").expect(&rt, "a folder");
    let other = folder(&rt, "target").expect(&rt, "a folder");
    be(&rt, is_linked(&rt, &folder_of_link, &other), "a link");
    let mut disk = opened(&rt, &folder_of_link).expect(&rt, "a disk");
    let in_use = Some(FileError::InUse(Part::Pages));
    be(&rt, not_opened(&rt, &other) == in_use, "the file is held");
    be(
        &rt,
        disk.size() == PAGE && fill(&mut disk, 0, 4) == Yes,
        "a write",
    );
    be(
        &rt,
        octet_of(&rt, &other, FILE, 16_383) == Some(Some(4)),
        "what was written",
    );
    be(
        &rt,
        remove(&rt, &folder_of_link) && remove(&rt, &other),
        "the folders go",
    );
}

/// A disk of two pages that notes its failures here.
fn noting(rt: &HostRuntime, folder: &str, failures: &Arc<Failures>) -> Option<FileErase> {
    let mut disk = created(rt, folder, 2)?;
    disk.note_in(failures).ok()?;
    Some(disk)
}

/// Failures of a disk in a folder.
fn failures_of(rt: &HostRuntime, folder: &str) -> Option<Arc<Failures>> {
    let failures = Failures::new(rt.alloc(), folder).ok()?;
    Arc::new(rt.alloc(), failures).ok()
}

/// Whether the first failure is that of a file that is shorter than it should be, at this call.
fn is_cut_at(failures: &Failures, call: Call) -> bool {
    failures.first()
        == Some(Failure {
            part: Part::Pages,
            call,
            reason: Reason::Cut,
        })
}

/// Whether the first failure is reported with the name of its file.
fn is_named(rt: &HostRuntime, folder: &str, failures: &Failures) -> Option<bool> {
    let text = failures.text(rt.alloc())?;
    let expected = format!(in rt.alloc();
        "{folder}/pages.rha: write: the file is shorter than it should be"
    );
    Some(text == expected.ok()?)
}

/// A page is written, and another one isn't read.
const READ_OF_A_CUT: [(Step, Answer); 2] = [(Cut(PAGE), Yes), (Is(1, 0), Fault)];

const WRITE_OF_A_CUT: [(Step, Answer); 2] = [(Write(0, 2), Fault), (Sync, Fault)];

// A read that failed is kept until a write fails, and then that is.
#[test]
fn the_first_failure_is_kept(rt: HostRuntime) {
    let folder = folder(&rt, "kept").expect(&rt, "a folder");
    let failures = failures_of(&rt, &folder).expect(&rt, "failures");
    let mut disk = noting(&rt, &folder, &failures).expect(&rt, "a disk");
    let written = fill(&mut disk, 0, 1) == Yes;
    be(
        &rt,
        written && failures.text(rt.alloc()) == None,
        "no failure",
    );
    be(
        &rt,
        plays(&rt, &folder, &mut disk, &READ_OF_A_CUT),
        "a read fails",
    );
    be(&rt, is_cut_at(&failures, Call::Read), "it is kept");
    be(
        &rt,
        plays(&rt, &folder, &mut disk, &WRITE_OF_A_CUT),
        "a write fails",
    );
    be(
        &rt,
        is_cut_at(&failures, Call::Write),
        "it is kept in its place",
    );
    be(
        &rt,
        is_named(&rt, &folder, &failures) == Some(true),
        "its text",
    );
    be(&rt, remove(&rt, &folder), "the folder goes");
}
