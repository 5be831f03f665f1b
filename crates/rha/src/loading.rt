//! The command `load`: files are loaded into the archive of a folder, one after another.

ghost use Rattle.std.specs.Prelude.{◌≡◌, map};
ghost use Rattle.service.specs.Running.{AreFilesLoaded};

use crate::opening::open_disks;
use crate::refusals::report_unopened;
use crate::sizes::sizes_of;
use crate::sources::Source;
use advice::{FirstOctets, Loaded, NotedReader, Unread, advise, advise_load};
use archive_calls::RouteArchive;
use disk_commands::Command;
use file_archive::{FileDisks, OpenFault};
use progress::{Applied, ClearedWriter, Meter, WatchedArchive, WatchedReader};
use service::{
    FileLoad, Input, Loading, Output, load_files, report_lost, report_out_of_memory, report_outside,
};
use std::alloc::Global;
use std::cell::Cell;
use std::io::{BufWriter, IsTerminal, Read, Write};

/// What is known of a file besides its records: its first octets, and whether it was opened.
#[derive(Drop)]
struct Noted {
    first: FirstOctets,
    is_open: Cell<bool>,
}

impl Noted {
    fn new() -> Noted {
        Noted {
            first: FirstOctets::new(),
            is_open: Cell::new(false),
        }
    }
}

/// Nothing yet of each of `count` files. None if there is no memory.
fn noted_of(rt: &HostRuntime, count: usize) -> Option<Vec<Noted>> {
    let mut noted = Vec::new(rt.alloc());
    for _ in 0..count {
        noted.push(Noted::new()).ok()?;
    }
    Some(noted)
}

/// The files of these names. None if there is no memory.
fn sources_of<'a, 'o>(
    rt: &'a HostRuntime,
    names: &[&'a str],
    noted: &'o [Noted],
) -> Option<Vec<Source<'a, 'o>>> {
    let mut sources = Vec::new(rt.alloc());
    for (name, it) in names.iter().zip(noted) {
        sources.push(Source::new(rt, *name, &it.is_open)).ok()?;
    }
    Some(sources)
}

/// Loads files into the archive of a folder. The folder's files are opened before the first of them, and what is in these is read after it; each
/// further one is opened when the load comes to it.
pub(crate) fn load<'a, E: Write>(
    rt: &'a HostRuntime,
    asked: &Loading<'a>,
    err: &mut Output<E>,
) -> u8 {
    let alloc = rt.alloc();
    let names = asked.files.as_slice();
    let Some(disks) = open_disks(rt, asked.folder, asked.wait, err) else {
        return 1;
    };
    let Some(noted) = noted_of(rt, names.len()) else {
        return report_out_of_memory(err);
    };
    let Some(mut sources) = sources_of(rt, names, &noted) else {
        return report_out_of_memory(err);
    };
    if let (Some(first), Some(name)) = (sources.first_mut(), names.first()) {
        if let Err(why) = first.open() {
            let code = report_outside(alloc, err, name, "open", &why);
            advise_unread(rt, names.get(1..).unwrap_or(&[]), err);
            return code;
        }
    }
    match load_into(rt, disks, asked, sources, &noted, err) {
        Ok(code) => code,
        Err(fault) => report_unopened(rt, asked.folder, fault, err),
    }
}

/// Prints why a file couldn't be opened or read, if it couldn't.
fn report_failed<R: Read, E: Write>(
    rt: &HostRuntime,
    name: &str,
    is_open: bool,
    input: &Input<R>,
    err: &mut Output<E>,
) {
    if is_open {
        return report_lost(rt.alloc(), name, input, err);
    }
    if let Some(why) = input.failure() {
        report_outside(rt.alloc(), err, name, "open", why);
    }
}

/// Says which files weren't read, if there are such.
fn advise_unread<E: Write>(rt: &HostRuntime, files: &[&str], err: &mut Output<E>) {
    if !files.is_empty() {
        advise(rt.alloc(), &Unread { files }, err);
    }
}

/// Says of each file that was loaded why it couldn't be read, if so, and what a person may not expect; and which files weren't read.
fn advise_loaded<A: RouteArchive, R: Read, E: Write>(
    rt: &HostRuntime,
    archive: &A,
    asked: &Loading<'_>,
    files: &[FileLoad<R>],
    noted: &[Noted],
    err: &mut Output<E>,
) {
    let names = asked.files.as_slice();
    let mut begun = 0usize;
    for ((file, it), name) in files.iter().zip(noted).zip(names) {
        if !file.report.is_begun {
            break;
        }
        begun = begun.saturating_add(1);
        report_failed(rt, name, it.is_open.get(), &file.input, err);
        let mark = if begun == names.len() {
            asked.mark
        } else {
            None
        };
        let loaded = Loaded {
            file: name,
            packing: it.first.packing(),
            collector: asked.collector,
            lose_entries: asked.lose_entries,
            mark,
            report: file.report,
            sizes: sizes_of(rt, asked.folder),
        };
        advise_load(rt.alloc(), archive, &loaded, err);
    }
    advise_unread(rt, names.get(begun..).unwrap_or(&[]), err);
}

/// The same of files that a command has by `&mut`: the toolchain's borrow checker doesn't lend such a field as `&`.
fn advise_held<A: RouteArchive, R: Read, E: Write>(
    rt: &HostRuntime,
    archive: &A,
    asked: &Loading<'_>,
    files: &mut [FileLoad<R>],
    noted: &[Noted],
    err: &mut Output<E>,
)
    ensures same { files.new ≡ files.old }
{
    advise_loaded(rt, archive, asked, &*files, noted, err);
}

/// The command that loads files, while a line on a terminal says how far it has come, and then prints what a person may not expect.
#[derive(Drop)]
struct LoadShown<'l, 'c, 'm, 'f, R: Read, W: Write, X: Write, E: Write> {
    rt: &'l HostRuntime,
    asked: &'l Loading<'c>,
    noted: &'l [Noted],
    meter: &'m Meter<'m, HostRuntime>,
    files: &'f mut [FileLoad<R>],
    out: Output<W>,
    reported: Output<X>,
    err: &'l mut Output<E>,
}

impl<A: RouteArchive + Applied, R: Read, W: Write, X: Write, E: Write> Command<A>
    for LoadShown<'_, '_, '_, '_, R, W, X, E> {
    ghost always = { λ was now status. (was.files.ghost_name ≡ now.files.ghost_name) × (status ≡ 0 → map (λ f. f.input.failed) now.files.now ≡ map (λ f. f.input.failed) was.files.now) };

    ghost does = { λ was now most h g status. AreFilesLoaded was.asked.now most h (map (λ f. record { input = f.input; report = f.report }) was.files.now) (map (λ f. record { input = f.input; report = f.report }) now.files.now) status (λ left. left ≡ g) was.out now.out was.reported now.reported };

    fn run(&mut self, alloc: Global, archive: A) -> (A, u8) {
        let mut archive = WatchedArchive::new(archive, self.meter);
        let code = load_files(
            alloc,
            &mut archive,
            self.asked,
            self.files,
            &mut self.out,
            &mut self.reported,
        );
        self.meter.line().clear();
        let (rt, asked, noted) = (self.rt, self.asked, self.noted);
        advise_held(rt, &archive, asked, self.files, noted, self.err);
        (archive.into_archive(), code)
    }
}

/// Loads files into the archive of a folder: the exit status, or why the archive isn't opened. Where standard error is a terminal, one line
/// there says how far it has come, and is gone before anything else is printed.
fn load_into<'a, 'o, E: Write>(
    rt: &'a HostRuntime,
    disks: FileDisks,
    asked: &Loading<'_>,
    sources: Vec<Source<'a, 'o>>,
    noted: &'o [Noted],
    err: &mut Output<E>,
) -> Result<u8, OpenFault> {
    let alloc = rt.alloc();
    let terminal = rt.stderr().is_terminal().then_some(rt);
    let meter = Meter::new(terminal);
    let seen_line = rt.stdout().is_terminal().then_some(meter.line());
    let Ok(buffer) = BufWriter::new(alloc, ClearedWriter::new(rt.stdout(), seen_line)) else {
        return Ok(report_out_of_memory(err));
    };
    let mut files = Vec::new(alloc);
    for (source, it) in sources.into_iter().zip(noted) {
        let reader = NotedReader::new(WatchedReader::new(source, &meter), &it.first);
        if files.push(FileLoad::new(reader)).is_err() {
            return Ok(report_out_of_memory(err));
        }
    }
    let mut command = LoadShown {
        rt,
        asked,
        noted,
        meter: &meter,
        files: files.as_mut_slice(),
        out: Output::new(buffer),
        reported: Output::new(ClearedWriter::new(rt.stderr(), Some(meter.line()))),
        err,
    };
    disks.run(alloc, &mut command).outcome
}
