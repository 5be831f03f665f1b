//! The commands of the program: the archive of a folder is made or opened, and the command runs over it. What it writes is buffered,
//! and written out before the program ends.

ghost use Rattle.std.specs.Prelude.{◌≡◌, ◌≤◌, false, string_bytes};
ghost use Rattle.archive_pages.specs.Places.{AreSettings};
ghost use Rattle.disk_commands.specs.Disks.{settings_for};
ghost use Rattle.service.specs.Running.{IsLineAsked};

use crate::opening::{First, run_to_read, status_of};
use crate::refusals::{report_unanswered, report_unmade};
use advice::{LimitAdvice, advise, advise_question};
use archive_calls::RouteArchive;
use archive_pages::Settings;
use disk_archive::CreateError;
use disk_commands::{CheckAll, Command};
use disk_files::{Call, FileError};
use file_archive::{CreateFault, OpenFault};
use service::{Checking, Creation, Output, Question, report_created, report_out_of_memory};
use std::alloc::Global;
use std::io::{BufWriter, IsTerminal, Write};

/// Prints what helps if an archive isn't made because of its sizes: how many pages it needs, or that its files are too large.
fn advise_unmade<E: Write>(
    alloc: Global,
    asked: &Creation<'_>,
    fault: &CreateFault,
    err: &mut Output<E>,
) {
    match fault {
        CreateFault::Archive(CreateError::PagesFull) => {
            let pages = asked.pages;
            let needed = u64::from(asked.collectors) * u64::from(asked.ring) + 3;
            advise(alloc, &LimitAdvice::FewPages { pages, needed }, err);
        }
        CreateFault::File(FileError::Failed(failure)) if failure.call == Call::Resize => {
            advise(alloc, &LimitAdvice::LargeFiles, err);
        }
        _ => {}
    }
}

/// Makes a folder with a new archive. The order of refusals: too few pages, the folder, its files.
pub(crate) fn create<E: Write>(rt: &HostRuntime, asked: &Creation<'_>, err: &mut Output<E>) -> u8
    requires { AreSettings (settings_for asked.now) }
{
    let alloc = rt.alloc();
    let Ok(buffer) = BufWriter::new(alloc, rt.stdout()) else {
        return report_out_of_memory(err);
    };
    let settings = Settings {
        collectors: asked.collectors,
        ring: asked.ring,
    };
    let (folder, pages, blocks) = (asked.folder, asked.pages, asked.blocks);
    match file_archive::create(alloc, rt, folder, settings, pages, blocks) {
        Ok(_) => {
            let mut out = Output::new(buffer);
            report_created(alloc, asked, &mut out, err)
        }
        Err(fault) => {
            let code = report_unmade(alloc, folder, &fault, err);
            advise_unmade(alloc, asked, &fault, err);
            code
        }
    }
}

/// The command that answers a line, and prints what helps if it isn't answered.
#[derive(Drop)]
struct AskLine<'q, 't, 'e, W: Write, X: Write, E: Write> {
    asked: &'q Question<'t>,
    /// Whether standard output is a terminal.
    is_seen: bool,
    out: Output<W>,
    err: Output<X>,
    advice: &'e mut Output<E>,
}

impl<A: RouteArchive, W: Write, X: Write, E: Write> Command<A> for AskLine<'_, '_, '_, W, X, E> {
    ghost does = { λ was now most h g status. (g ≡ h) × (was.asked.now.all ≡ false → was.asked.now.human ≡ false → was.is_seen ≡ false → IsLineAsked (string_bytes was.asked.now.line) h status was.out now.out was.err now.err) };

    fn run(&mut self, alloc: Global, archive: A) -> (A, u8) {
        let mut archive = archive;
        let (asked, is_seen) = (self.asked, self.is_seen);
        let code = tables::ask(
            alloc,
            &mut archive,
            asked,
            is_seen,
            &mut self.out,
            &mut self.err,
        );
        if code != 0 {
            report_unanswered(alloc, &archive, self.advice);
            advise_question(alloc, &archive, asked.line.as_str(), self.advice);
        }
        (archive, code)
    }
}

/// Answers a request line by the archive of a folder: the exit status, or why the archive isn't opened.
fn ask_folder<E: Write>(
    rt: &HostRuntime,
    asked: &Question<'_>,
    err: &mut Output<E>,
) -> Result<u8, OpenFault> {
    let Ok(buffer) = BufWriter::new(rt.alloc(), rt.stdout()) else {
        return Ok(report_out_of_memory(err));
    };
    let mut command = AskLine {
        asked,
        is_seen: rt.stdout().is_terminal(),
        out: Output::new(buffer),
        err: Output::new(rt.stderr()),
        advice: err,
    };
    let (folder, wait) = (asked.folder, asked.wait);
    run_to_read(rt, folder, wait, First::Nothing, &mut command)
}

/// Answers a request line by the archive of a folder.
pub(crate) fn ask<E: Write>(rt: &HostRuntime, asked: &Question<'_>, err: &mut Output<E>) -> u8 {
    let ended = ask_folder(rt, asked, err);
    status_of(rt, asked.folder, ended, 1, err)
}

/// Checks the archive of a folder.
pub(crate) fn check<E: Write>(rt: &HostRuntime, asked: &Checking<'_>, err: &mut Output<E>) -> u8 {
    let Ok(buffer) = BufWriter::new(rt.alloc(), rt.stdout()) else {
        return report_out_of_memory(err);
    };
    let mut out = Output::new(buffer);
    let mut command = CheckAll {
        out: &mut out,
        err: &mut *err,
    };
    let (folder, wait) = (asked.folder, asked.wait);
    let ended = run_to_read(rt, folder, wait, First::Slots, &mut command);
    status_of(rt, folder, ended, 1, err)
}
