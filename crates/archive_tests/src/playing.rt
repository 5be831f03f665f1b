//! Scripts that are played: each command line of the program over an archive on disks in memory that is opened anew for it.

use crate::damaged::damaged;
use crate::disks::{MemArchive, created, reopened};
use crate::failing::reopened_to_fail;
use crate::files::file_of;
use crate::gathered::Gathered;
use crate::scripts::Script;
use crate::scripts::changed::CHANGED;
use crate::scripts::damage::DAMAGE;
use crate::scripts::failed::FAILED;
use crate::scripts::full::FULL;
use crate::scripts::loads::LOADS;
use crate::scripts::marks::MARKS;
use crate::scripts::questions::QUESTIONS;
use crate::scripts::several::SEVERAL;
use crate::scripts::table_dumps::TABLES;
use crate::scripts::updates::UPDATES;
use crate::scripts::whole::WHOLE_TABLES;
use crate::{be, be_at};
use service::{
    Comparing, Dumping, FileLoad, Finding, Invocation, Listing, Loading, Output, Question,
    check_archive, command, load_files,
};
use std::alloc::Global;
use std::io::Read;
use std::process::Abort;
use tables::{
    ask, diff, dump, find, peers, read_comparison, read_listing, read_search, read_table,
};

/// Octets that are read in pieces of this many at most.
#[derive(Drop)]
struct Pieces<'a> {
    octets: &'a [u8],
    most: usize,
}

impl Read for Pieces<'_> {
    fn read(&mut self, buf: &mut [u8]) -> std::io::Result<usize> {
        let most = self.most.min(buf.len());
        let Some(piece) = buf.get_mut(..most) else {
            return Ok(0);
        };
        self.octets.read(piece)
    }
}

/// What a command wrote on both writers, and its exit status.
#[derive(Drop)]
pub(crate) struct Ran {
    pub(crate) out: Vec<u8>,
    pub(crate) err: Vec<u8>,
    pub(crate) code: u8,
}

/// What is in the files of these names. None where there is no such file.
fn octets_of(alloc: Global, names: &[&str]) -> Option<Vec<Vec<u8>>> {
    let mut all = Vec::new(alloc);
    for name in names {
        all.push(file_of(alloc, name)?).ok()?;
    }
    Some(all)
}

/// Loads the files that a command line names: the exit status. None where there is no such file.
fn load(
    alloc: Global,
    archive: &mut MemArchive,
    asked: &Loading<'_>,
    most: usize,
    out: &mut Vec<u8>,
    err: &mut Vec<u8>,
) -> Option<u8> {
    let octets = octets_of(alloc, asked.files.as_slice())?;
    let mut files = Vec::new(alloc);
    for octets in octets.as_slice() {
        let pieces = Pieces { octets, most };
        files.push(FileLoad::new(pieces)).ok()?;
    }
    let mut lines = Output::new(out);
    let mut refusals = Output::new(err);
    Some(load_files(
        alloc,
        archive,
        asked,
        files.as_mut_slice(),
        &mut lines,
        &mut refusals,
    ))
}

/// Answers the line that a command line asks: the exit status.
fn ask_of(
    alloc: Global,
    archive: &mut MemArchive,
    asked: &Question<'_>,
    out: &mut Vec<u8>,
    err: &mut Vec<u8>,
) -> u8 {
    let (mut lines, mut refusals) = (Output::new(out), Output::new(err));
    ask(alloc, archive, asked, false, &mut lines, &mut refusals)
}

/// Writes the table that a command line asks for: the exit status. None where a text isn't valid.
fn dump_of(
    alloc: Global,
    archive: &mut MemArchive,
    asked: &Dumping<'_>,
    out: &mut Vec<u8>,
    err: &mut Vec<u8>,
) -> Option<u8> {
    let table = match read_table(asked) {
        Ok(table) => table,
        Err(_) => return None,
    };
    let (mut lines, mut refusals) = (Output::new(out), Output::new(err));
    Some(dump(alloc, archive, &table, false, &mut lines, &mut refusals))
}

/// Counts the peers that a command line asks for: the exit status. None where a text isn't valid.
fn peers_of(
    alloc: Global,
    archive: &mut MemArchive,
    asked: &Listing<'_>,
    out: &mut Vec<u8>,
    err: &mut Vec<u8>,
) -> Option<u8> {
    let at = read_listing(asked).ok()?;
    let (mut lines, mut refusals) = (Output::new(out), Output::new(err));
    Some(peers(alloc, archive, at, false, &mut lines, &mut refusals))
}

/// Compares the tables that a command line asks for: the exit status. None where a text isn't valid.
fn diff_of(
    alloc: Global,
    archive: &mut MemArchive,
    asked: &Comparing<'_>,
    out: &mut Vec<u8>,
    err: &mut Vec<u8>,
) -> Option<u8> {
    let comparison = match read_comparison(asked) {
        Ok(comparison) => comparison,
        Err(_) => return None,
    };
    let (mut lines, mut refusals) = (Output::new(out), Output::new(err));
    Some(diff(
        alloc,
        archive,
        &comparison,
        false,
        &mut lines,
        &mut refusals,
    ))
}

/// Shows what a command line looks for: the exit status. None where a text isn't valid.
fn find_of(
    alloc: Global,
    archive: &mut MemArchive,
    asked: &Finding<'_>,
    out: &mut Vec<u8>,
    err: &mut Vec<u8>,
) -> Option<u8> {
    let search = match read_search(asked) {
        Ok(search) => search,
        Err(_) => return None,
    };
    let (mut lines, mut refusals) = (Output::new(out), Output::new(err));
    Some(find(alloc, archive, &search, false, &mut lines, &mut refusals))
}

/// Checks the archive: the exit status.
fn check(alloc: Global, archive: &mut MemArchive, out: &mut Vec<u8>, err: &mut Vec<u8>) -> u8 {
    check_archive(alloc, archive, &mut Output::new(out), &mut Output::new(err))
}

/// Runs what a command line asks for. None where that needs no archive that is there.
fn run(
    alloc: Global,
    archive: &mut MemArchive,
    asked: &Invocation<'_>,
    most: usize,
) -> Option<Ran> {
    let mut out = Vec::new(alloc);
    let mut err = Vec::new(alloc);
    let code = match asked {
        Invocation::Load(asked) => load(alloc, archive, asked, most, &mut out, &mut err)?,
        Invocation::Ask(asked) => ask_of(alloc, archive, asked, &mut out, &mut err),
        Invocation::Dump(asked) => dump_of(alloc, archive, asked, &mut out, &mut err)?,
        Invocation::Peers(asked) => peers_of(alloc, archive, asked, &mut out, &mut err)?,
        Invocation::Diff(asked) => diff_of(alloc, archive, asked, &mut out, &mut err)?,
        Invocation::Find(asked) => find_of(alloc, archive, asked, &mut out, &mut err)?,
        Invocation::Check(_) => check(alloc, archive, &mut out, &mut err),
        Invocation::Create(_) | Invocation::Serve(_) | Invocation::Info(_) => return None,
    };
    Some(Ran { out, err, code })
}

/// Runs a command line. None where it isn't accepted.
fn run_line(alloc: Global, archive: &mut MemArchive, line: &str, most: usize) -> Option<Ran> {
    let Ok(words): Result<Vec<&str>, _> = line.split(' ').collect(alloc) else {
        return None;
    };
    match command(alloc, words.as_slice()) {
        Ok(asked) => run(alloc, archive, &asked, most),
        Err(_) => None,
    }
}

/// The archive that is opened anew for a command line. Where the line before says so, a call of a disk fails from then on.
fn opened_after(alloc: Global, archive: MemArchive, before: &str) -> Option<MemArchive> {
    match before.strip_prefix(FAILS) {
        Some(call) => reopened_to_fail(alloc, archive, call),
        None => reopened(alloc, archive),
    }
}

/// The archive after a command line, for which it is opened anew. What the command line shows is added.
fn after_command(
    alloc: Global,
    archive: MemArchive,
    before: &str,
    line: &str,
    most: usize,
    shown: &mut Gathered,
) -> Option<MemArchive> {
    let Some(mut archive) = opened_after(alloc, archive, before) else {
        return None;
    };
    let Some(ran) = run_line(alloc, &mut archive, line, most) else {
        return None;
    };
    shown.add_command(line, &ran);
    Some(archive)
}

/// What a line begins with that says which call of a disk fails in the next command line.
const FAILS: &str = "~ fails: ";

/// The archive after a line that changes its disks. Another line changes nothing.
fn after_damage(
    alloc: Global,
    archive: MemArchive,
    line: &str,
    shown: &mut Gathered,
) -> Option<MemArchive> {
    if line.starts_with(FAILS) {
        shown.add_line(line);
        return Some(archive);
    }
    match line.strip_prefix("~ ") {
        Some(text) => {
            shown.add_line(line);
            damaged(alloc, archive, text)
        }
        None => Some(archive),
    }
}

/// The archive after a line of a script, and the line before it. What only shows something changes nothing.
fn after(
    alloc: Global,
    archive: MemArchive,
    before: &str,
    line: &str,
    most: usize,
    shown: &mut Gathered,
) -> Option<MemArchive> {
    match line.strip_prefix("$ ") {
        Some(command) => after_command(alloc, archive, before, command, most, shown),
        None => after_damage(alloc, archive, line, shown),
    }
}

/// Goes through the lines of a script, and adds what its command lines show: how many these are.
fn show(alloc: Global, script: &Script, most: usize, shown: &mut Gathered) -> Option<u64> {
    let Some(mut archive) = created(alloc, &script.made) else {
        return None;
    };
    let mut commands = 0u64;
    let mut before = "";
    for line in script.shown.lines() {
        let Some(next) = after(alloc, archive, before, line, most, shown) else {
            return None;
        };
        archive = next;
        before = line;
        if line.starts_with("$ ") {
            commands = commands.saturating_add(1);
        }
    }
    Some(commands)
}

/// What came of a script: how many command lines it has, whether they show what it says, and the number of the line where they don't.
#[derive(Clone, Copy)]
struct Played {
    commands: u64,
    is_right: bool,
    line: u64,
}

fn play(alloc: Global, script: &Script, most: usize) -> Played {
    let mut shown = Gathered::new(alloc);
    let commands = show(alloc, script, most, &mut shown);
    let mut expected = Gathered::new(alloc);
    expected.add_lines(script.shown);
    let is_shown = shown.octets.as_slice() == expected.octets.as_slice();
    Played {
        commands: commands.unwrap_or(0),
        is_right: commands.is_some() && shown.is_whole && expected.is_whole && is_shown,
        line: shown.first_difference(&expected),
    }
}

/// How many scripts were played, and how many command lines these have.
#[derive(Clone, Copy)]
struct Count {
    scripts: u64,
    commands: u64,
}

/// Plays scripts, with files that are read in pieces of this many octets. Ends the test where one doesn't show what it says.
fn play_all(rt: &impl Abort, alloc: Global, scripts: &[Script], most: usize) -> Count {
    let mut count = Count {
        scripts: 0,
        commands: 0,
    };
    for script in scripts {
        let played = play(alloc, script, most);
        be_at(rt, played.is_right, script.name, played.line);
        count.scripts = count.scripts.saturating_add(1);
        count.commands = count.commands.saturating_add(played.commands);
    }
    count
}

/// How many octets are read at once where a file is read as it comes: more than any has.
const WHOLE: usize = 1_000_000;

#[test]
fn updates_are_played(rt: HostRuntime) {
    let count = play_all(&rt, rt.alloc(), &UPDATES, WHOLE);
    be(&rt, count.scripts == 24 && count.commands == 92, "updates");
}

#[test]
fn tables_are_played(rt: HostRuntime) {
    let count = play_all(&rt, rt.alloc(), &TABLES, WHOLE);
    be(&rt, count.scripts == 16 && count.commands == 51, "tables");
}

#[test]
fn whole_tables_are_played(rt: HostRuntime) {
    let count = play_all(&rt, rt.alloc(), &WHOLE_TABLES, WHOLE);
    be(
        &rt,
        count.scripts == 3 && count.commands == 33,
        "whole tables",
    );
}

#[test]
fn questions_are_played(rt: HostRuntime) {
    let count = play_all(&rt, rt.alloc(), &QUESTIONS, WHOLE);
    be(&rt, count.scripts == 5 && count.commands == 40, "questions");
}

#[test]
fn changed_places_are_played(rt: HostRuntime) {
    let count = play_all(&rt, rt.alloc(), &CHANGED, WHOLE);
    be(
        &rt,
        count.scripts == 3 && count.commands == 23,
        "changed places",
    );
}

#[test]
fn marks_are_played(rt: HostRuntime) {
    let count = play_all(&rt, rt.alloc(), &MARKS, WHOLE);
    be(&rt, count.scripts == 6 && count.commands == 40, "marks");
}

#[test]
fn loads_are_played(rt: HostRuntime) {
    let count = play_all(&rt, rt.alloc(), &LOADS, WHOLE);
    be(&rt, count.scripts == 12 && count.commands == 33, "loads");
}

#[test]
fn loads_of_several_files_are_played(rt: HostRuntime) {
    let count = play_all(&rt, rt.alloc(), &SEVERAL, WHOLE);
    be(
        &rt,
        count.scripts == 10 && count.commands == 18,
        "several files",
    );
}

#[test]
fn full_archives_are_played(rt: HostRuntime) {
    let count = play_all(&rt, rt.alloc(), &FULL, WHOLE);
    be(
        &rt,
        count.scripts == 4 && count.commands == 37,
        "full archives",
    );
}

#[test]
fn damage_is_played(rt: HostRuntime) {
    let count = play_all(&rt, rt.alloc(), &DAMAGE, WHOLE);
    be(&rt, count.scripts == 4 && count.commands == 34, "damage");
}

#[test]
fn failures_are_played(rt: HostRuntime) {
    let count = play_all(&rt, rt.alloc(), &FAILED, WHOLE);
    be(&rt, count.scripts == 4 && count.commands == 23, "failures");
}

#[test]
fn files_are_read_octet_by_octet(rt: HostRuntime) {
    let updates = play_all(&rt, rt.alloc(), &UPDATES, 1);
    let loads = play_all(&rt, rt.alloc(), &LOADS, 1);
    be(&rt, updates.scripts == 24 && loads.scripts == 12, "scripts");
    be(
        &rt,
        updates.commands == 92 && loads.commands == 33,
        "command lines",
    );
}
