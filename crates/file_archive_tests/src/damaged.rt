//! Octets of an archive's files that become others: what a check shows on standard error, and what is answered.

use crate::be;
use crate::folders::{PAGE, create, inside, new_name, remove};
use crate::session::give_octets;
use service::{Output, Status, ask, check};
use std::fs::OpenOptions;
use std::os::unix::fs::FileExt;
use test_octets::octets;

/// An octet of a file that becomes another one, and what is shown then.
struct Damage {
    file: &'static str,
    at: u64,
    octet: u8,
    /// What a check writes on standard error.
    shown: &'static str,
    /// What a question of all that was recorded returns.
    answer: &'static str,
}

/// An UPDATE of 192.0.2.1, AS 65001, at 00:00:00, which announces 10.0.0.0/8.
const UPDATE: &str = "65920080 0010 0001 0000003d fde9 fc00 0000 0001 c0000201 c0000202
    ffffffffffffffffffffffffffffffff 002d 02 0000 0014 40010100 4002060202fde9fdea 400304c0000201 080a";

/// How often it comes. A leaf has room for 202 versions, so the first 404 of these are in blocks.
const TIMES: usize = 410;

/// Asks what was recorded. Blocks are read for it.
const HISTORY: &str = "history 0 1704067200 0 192.0.2.1 65001 10.0.0.0/8";

/// Asks what stands now. No block is read for it.
const NOW: &str = "at 1704067200 prefix 10.0.0.0/8";

const ROUTE: &str = "R|0|192.0.2.1|65001|10.0.0.0/8|65001 65002|IGP|192.0.2.1|||NAG||\nE|1\n";

/// The column on home page 10, after the head and the nine pages of the ring.
const COLUMN: u64 = (265 + 10) * PAGE;

// A block's octet, a block whose mark is lost, and the number of a block in the column, as which one is named that was never burnt.
const DAMAGES: [Damage; 4] = [
    Damage {
        file: "once.rha",
        at: 200,
        octet: 0x40,
        shown: "rha: 8 Damaged\n",
        answer: "X|8|Damaged|0\n",
    },
    Damage {
        file: "once.rha",
        at: PAGE + 16_383,
        octet: 0,
        shown: "rha: 8 Damaged\n",
        answer: "X|8|Damaged|1\n",
    },
    Damage {
        file: "once.map",
        at: 0,
        octet: 0,
        shown: "rha: 8 Damaged\n",
        answer: "X|8|Damaged|0\n",
    },
    Damage {
        file: "pages.rha",
        at: COLUMN + 144,
        octet: 6,
        shown: "rha: 9 BadNode\n",
        answer: "X|9|BadNode|10\n",
    },
];

/// Puts an octet into a file of a folder. Returns the one that was there.
fn put(rt: &HostRuntime, folder: &str, file: &str, at: u64, octet: u8) -> Option<u8> {
    let path = inside(rt, folder, file)?;
    let file = OpenOptions::new()
        .read(true)
        .write(true)
        .open(rt, path.as_str())
        .ok()?;
    let mut was = [0u8];
    let read = file.read_at(&mut was, at).ok()?;
    let written = file.write_at(&[octet], at).ok()?;
    (read == 1 && written == 1).then_some(was[0])
}

/// Whether a check of the archive of a folder writes this alone, on standard error, and is refused.
fn is_shown(rt: &HostRuntime, folder: &str, shown: &str) -> Option<bool> {
    let mut archive = file_archive::open(rt.alloc(), rt, folder).ok()?;
    let (mut out, mut err) = (Vec::new(rt.alloc()), Vec::new(rt.alloc()));
    let status = check(
        rt.alloc(),
        &mut archive,
        &mut Output::new(&mut out),
        &mut Output::new(&mut err),
    );
    Some(status == Status::Refused && out.is_empty() && err.as_slice() == shown.as_bytes())
}

/// Whether a question of the archive of a folder returns this.
fn is_answered(rt: &HostRuntime, folder: &str, line: &str, answer: &str) -> Option<bool> {
    let mut archive = file_archive::open(rt.alloc(), rt, folder).ok()?;
    let (mut out, mut err) = (Vec::new(rt.alloc()), Vec::new(rt.alloc()));
    let mut lines = Output::new(&mut out);
    let mut refusals = Output::new(&mut err);
    ask(rt.alloc(), &mut archive, line, &mut lines, &mut refusals);
    drop(lines);
    Some(out.as_slice() == answer.as_bytes())
}

/// Whether what is damaged is shown, and what stands now is answered, if the column is whole. The octet is put back.
fn is_found(rt: &HostRuntime, folder: &str, damage: &Damage) -> Option<bool> {
    let was = put(rt, folder, damage.file, damage.at, damage.octet)?;
    let is_shown = is_shown(rt, folder, damage.shown)?
        && is_answered(rt, folder, HISTORY, damage.answer)?
        && is_answered(rt, folder, NOW, ROUTE)?;
    put(rt, folder, damage.file, damage.at, was)?;
    Some(is_shown && was != damage.octet)
}

/// The folder of a new archive of 410 versions of a route.
fn filled(rt: &HostRuntime) -> Option<String> {
    let folder = new_name(rt, "damaged_octets")?;
    let mut archive = create(rt, &folder, 20, 7).ok()?;
    let update = octets(rt.alloc(), UPDATE).ok()?;
    let mut feed = Vec::new(rt.alloc());
    for _ in 0..TIMES {
        feed.extend_from_slice(&update).ok()?;
    }
    let mut out = Vec::new(rt.alloc());
    let status = give_octets(rt.alloc(), &mut archive, 0, &feed, &mut out);
    (status == Status::Done).then_some(folder)
}

#[test]
fn damage_of_an_octet_is_shown_by_its_name(rt: HostRuntime) {
    let folder = filled(&rt).expect(&rt, "a folder");
    for damage in &DAMAGES {
        let is_found = is_found(&rt, &folder, damage);
        be(&rt, is_found == Some(true), damage.file);
    }
    be(
        &rt,
        is_answered(&rt, &folder, NOW, ROUTE) == Some(true),
        "all octets are as they were",
    );
    be(&rt, remove(&rt, &folder), "the folder goes");
}
