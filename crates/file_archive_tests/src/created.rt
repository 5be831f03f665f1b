//! What creating an archive leaves in its folder, and what it refuses.

use crate::be;
use crate::folders::{PAGE, create, has, inside, is_created, is_there, new_name, remove, size_of};
use archive_calls::RouteArchive;
use disk_archive::CreateError;
use disk_files::{FileError, Part};
use file_archive::CreateFault;
use std::fs;

/// Whether a new archive has this limit of the octets of a batch, and one collector.
fn has_limit(rt: &HostRuntime, folder: &str, limit: usize) -> bool {
    match create(rt, folder, 20, 7) {
        Ok(archive) => archive.batch_limit() == limit && archive.collectors() == 1,
        Err(_) => false,
    }
}

/// Why an archive isn't created.
#[derive(Clone, Copy, PartialEq)]
enum Refusal {
    /// It is.
    None,
    Folder,
    Pages,
    Map,
    PagesFull,
    Other,
}

/// Why an archive of this many pages and blocks isn't created, if it isn't.
fn why_refused(rt: &HostRuntime, folder: &str, pages: u64, blocks: u64) -> Refusal {
    match create(rt, folder, pages, blocks) {
        Ok(_) => Refusal::None,
        Err(CreateFault::Folder(_)) => Refusal::Folder,
        Err(CreateFault::File(FileError::Size(Part::Pages))) => Refusal::Pages,
        Err(CreateFault::File(FileError::Size(Part::Map))) => Refusal::Map,
        Err(CreateFault::Archive(CreateError::PagesFull)) => Refusal::PagesFull,
        Err(_) => Refusal::Other,
    }
}

#[test]
fn an_archive_has_three_files_of_its_sizes(rt: HostRuntime) {
    let folder = new_name(&rt, "three_files").expect(&rt, "a name");
    // A batch may have what a ring of nine pages holds.
    be(&rt, has_limit(&rt, &folder, 147_456), "an archive");
    // 265 pages of the journal stand before the home pages.
    be(
        &rt,
        size_of(&rt, &folder, "pages.rha") == Some(285 * PAGE),
        "pages",
    );
    be(
        &rt,
        size_of(&rt, &folder, "once.rha") == Some(7 * PAGE),
        "blocks",
    );
    be(&rt, size_of(&rt, &folder, "once.map") == Some(7), "the map");
    be(&rt, remove(&rt, &folder), "the folder goes");
}

/// Makes a folder with a file of four octets. Whether that was done.
fn make_folder(rt: &HostRuntime, folder: &str) -> bool {
    if fs::create_dir(rt, folder).is_err() {
        return false;
    }
    match inside(rt, folder, "own") {
        Some(path) => fs::write(rt, path.as_str(), "mine").is_ok(),
        None => false,
    }
}

#[test]
fn a_folder_that_is_there_is_left_as_it_is(rt: HostRuntime) {
    let folder = new_name(&rt, "there").expect(&rt, "a name");
    be(&rt, make_folder(&rt, &folder), "a folder");
    be(
        &rt,
        why_refused(&rt, &folder, 20, 7) == Refusal::Folder,
        "a refusal",
    );
    be(
        &rt,
        size_of(&rt, &folder, "own") == Some(4),
        "what was there",
    );
    be(
        &rt,
        has(&rt, &folder, "pages.rha") == Some(false),
        "no pages",
    );
    be(&rt, remove(&rt, &folder), "the folder goes");
}

#[test]
fn the_head_the_rings_and_the_tree_need_pages(rt: HostRuntime) {
    let folder = new_name(&rt, "few_pages").expect(&rt, "a name");
    // The head, nine pages of the ring, and two of the tree.
    be(
        &rt,
        why_refused(&rt, &folder, 11, 7) == Refusal::PagesFull,
        "eleven pages",
    );
    be(&rt, is_there(&rt, &folder) == Some(false), "no folder");
    be(&rt, is_created(&rt, &folder, 12, 7), "twelve pages");
    be(&rt, remove(&rt, &folder), "the folder goes");
}

/// Whether an archive of this many pages and blocks is refused for this, and leaves no folder.
fn leaves_nothing(rt: &HostRuntime, folder: &str, pages: u64, blocks: u64, why: Refusal) -> bool {
    why_refused(rt, folder, pages, blocks) == why && is_there(rt, folder) == Some(false)
}

#[test]
fn a_refused_archive_leaves_no_folder(rt: HostRuntime) {
    let folder = new_name(&rt, "refused").expect(&rt, "a name");
    // Pages of more octets than a file can have; no blocks, which is reported once the pages are made; and a name that no folder has.
    let pages = leaves_nothing(&rt, &folder, 1 << 49, 7, Refusal::Pages);
    be(&rt, pages, "too many pages");
    be(
        &rt,
        leaves_nothing(&rt, &folder, 20, 0, Refusal::Map),
        "no blocks",
    );
    let below = inside(&rt, &folder, "below").expect(&rt, "a name");
    be(
        &rt,
        why_refused(&rt, &below, 20, 7) == Refusal::Folder,
        "a folder in none",
    );
    be(&rt, is_there(&rt, &folder) == Some(false), "no folder");
}
