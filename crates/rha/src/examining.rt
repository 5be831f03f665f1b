//! The command `info`: how far an archive has come, and how much room it has left.

ghost use Rattle.std.specs.Prelude.{◌≡◌};

use crate::opening::{First, run_to_read, status_of};
use archive_calls::RouteArchive;
use archive_facts::{
    FIRST_LEN, Facts, HEAD_PLACE, JOURNAL_PAGES, OPEN_GATE, PAGE, SIZES_LEN, SLOTS, Sizes,
    first_change, gate_place,
};
use archive_head::Head;
use disk_commands::Command;
use disk_models::Page;
use service::{
    Examining, Output, Refusal, Status, VERSION, finish, report_out_of_memory, report_outside,
    report_refusal,
};
use std::alloc::Global;
use std::fs::File;
use std::io;
use std::io::Write;
use std::os::unix::fs::FileExt;

/// Why nothing is printed about an archive.
enum Unshown {
    Failed(io::Error),
    Refused(Refusal),
}

impl From<io::Error> for Unshown {
    fn from(why: io::Error) -> Unshown {
        Unshown::Failed(why)
    }
}

/// How many slots of the journal are open in the file of an archive's pages.
fn open_slots(file: &File) -> io::Result<u64> {
    let mut open: u64 = 0;
    for slot in 0..SLOTS {
        let mut gate = [0; 1];
        file.read_exact_at(&mut gate, gate_place(slot))?;
        open = open.saturating_add(u64::from(gate[0] == OPEN_GATE));
    }
    Ok(open)
}

/// The time of the first change, if the leaf that stands in the file's page or block of this number begins with it.
fn first_at(file: &File, number: u64) -> io::Result<Option<u64>> {
    let mut octets = [0; FIRST_LEN];
    file.read_exact_at(&mut octets, number.saturating_mul(PAGE))?;
    Ok(first_change(&octets))
}

/// The time of the first change. The leaves of the tree are gone through until one begins with it: a block and a page in turn, since the
/// blocks that were burnt first are mostly of the first leaves.
fn first_time(pages: &File, once: &File, sizes: &Sizes, head: &Head) -> io::Result<Option<u64>> {
    let rings = u64::from(sizes.collectors).saturating_mul(u64::from(sizes.ring));
    let begin = rings.saturating_add(1);
    let count = head.fresh.saturating_sub(begin).max(head.block);
    for number in 0..count {
        let page = begin.saturating_add(number);
        let mut found = None;
        if number < head.block {
            found = first_at(once, number)?;
        }
        if found.is_none() && page < head.fresh {
            found = first_at(pages, page.saturating_add(JOURNAL_PAGES))?;
        }
        if found.is_some() {
            return Ok(found);
        }
    }
    Ok(None)
}

/// What the files of an archive's pages and blocks say, once no slot is open any more.
fn facts_in<A: RouteArchive>(
    alloc: Global,
    file: &File,
    once: &File,
    archive: &A,
    open: u64,
) -> Result<Facts, Unshown> {
    let mut octets = [0; SIZES_LEN];
    file.read_exact_at(&mut octets, 0)?;
    let Some(sizes) = Sizes::read(&octets) else {
        return Err(Unshown::Refused(Refusal::NotAJournal));
    };
    let Ok(mut page) = Page::new(alloc) else {
        return Err(Unshown::Refused(Refusal::OutOfMemory));
    };
    file.read_exact_at(page.octets_mut(), HEAD_PLACE)?;
    let head = match Head::read(alloc, &page, usize::from(archive.collectors())) {
        Ok(Some(head)) => head,
        Ok(None) => return Err(Unshown::Refused(Refusal::BadNode(0))),
        Err(_) => return Err(Unshown::Refused(Refusal::OutOfMemory)),
    };
    let first = first_time(file, once, &sizes, &head)?;
    let settled = archive.settled();
    Facts::of(alloc, VERSION, sizes, &head, settled, first, open).map_err(|_| Unshown::Refused(
        Refusal::OutOfMemory,
    ))
}

/// The facts as lines for a person, or as one line of JSON.
fn text_of(alloc: Global, facts: &Facts, json: bool) -> Option<String> {
    if json {
        return facts.json(alloc);
    }
    format!(in alloc; "{facts}").ok()
}

/// Prints the facts about an archive, and writes them out.
fn show<E: Write>(rt: &HostRuntime, facts: &Facts, json: bool, err: &mut Output<E>) -> u8 {
    let Some(text) = text_of(rt.alloc(), facts, json) else {
        return report_out_of_memory(err);
    };
    let mut out = Output::new(rt.stdout());
    out.text(text.as_str());
    finish(rt.alloc(), Status::Done, &mut out, err)
}

/// Opens a file of an archive to read it. None once standard error has why it can't be opened.
fn open_file<E: Write>(rt: &HostRuntime, path: &str, err: &mut Output<E>) -> Option<File> {
    match File::open(rt, path) {
        Ok(file) => Some(file),
        Err(why) => {
            report_outside(rt.alloc(), err, path, "open", &why);
            None
        }
    }
}

/// The command that prints the facts about an archive.
#[derive(Drop)]
struct ShowFacts<'r, 'x, 'a, 'p, 'e, E: Write> {
    rt: &'r HostRuntime,
    asked: &'x Examining<'a>,
    /// The files of its pages and blocks.
    pages: &'p str,
    once: &'p str,
    /// How many slots were open before the archive was.
    open: u64,
    err: &'e mut Output<E>,
}

impl<E: Write> ShowFacts<'_, '_, '_, '_, '_, E> {
    /// Prints what the files say while the archive is held. Returns the exit status.
    fn print<A: RouteArchive>(&mut self, alloc: Global, archive: &A) -> u8 {
        let (rt, asked) = (self.rt, self.asked);
        let Some(file) = open_file(rt, self.pages, self.err) else {
            return 1;
        };
        let Some(once) = open_file(rt, self.once, self.err) else {
            return 1;
        };
        match facts_in(alloc, &file, &once, archive, self.open) {
            Ok(facts) => show(rt, &facts, asked.json, self.err),
            Err(Unshown::Failed(why)) => report_outside(
                alloc,
                self.err,
                asked.folder,
                "read",
                &why,
            ),
            Err(Unshown::Refused(refusal)) => report_refusal(&refusal, self.err),
        }
    }
}

impl<A: RouteArchive, E: Write> Command<A> for ShowFacts<'_, '_, '_, '_, '_, E> {
    ghost does = { λ was now most h g status. g ≡ h };

    fn run(&mut self, alloc: Global, archive: A) -> (A, u8) {
        let code = self.print(alloc, &archive);
        (archive, code)
    }
}

/// Prints how far the archive of a folder has come, and how much room it has left. Its slots are counted before it is opened, which
/// closes them.
pub(crate) fn info<E: Write>(rt: &HostRuntime, asked: &Examining<'_>, err: &mut Output<E>) -> u8 {
    let alloc = rt.alloc();
    let Ok(pages) = format!(in alloc; "{}/pages.rha", asked.folder) else {
        return report_out_of_memory(err);
    };
    let Ok(once) = format!(in alloc; "{}/once.rha", asked.folder) else {
        return report_out_of_memory(err);
    };
    let before = File::open(rt, pages.as_str());
    let slots = before.as_ref().ok().and_then(|it| open_slots(it).ok());
    let mut command = ShowFacts {
        rt,
        asked,
        pages: pages.as_str(),
        once: once.as_str(),
        open: slots.unwrap_or(0),
        err: &mut *err,
    };
    let (folder, wait) = (asked.folder, asked.wait);
    let ended = run_to_read(rt, folder, wait, First::Nothing, &mut command);
    status_of(rt, folder, ended, 1, err)
}
