//! The command `load`: files of records are loaded into the archive on two disks.

ghost use Rattle.std.specs.Prelude.{◌≡◌, ◌≤◌, IfOk, IfErr, Ok, map};
ghost use Rattle.page_journal.specs.Layout.{home_place};
ghost use Rattle.route_meaning.specs.History.{History};
ghost use Rattle.disk_archive.specs.Openings.{IsFaultOrMemory};
ghost use Rattle.disk_calls.specs.Represented.{limit_for};
ghost use Rattle.disk_commands.specs.Disks.{Keep, Leave, Represent};
ghost use Rattle.service.specs.Running.{AreFilesLoaded};

use crate::command::Command;
use crate::disks::{Disks, Ended};
use crate::running::run_on;
use archive_calls::RouteArchive;
use disk_archive::OpenError;
use disk_calls::NoReasons;
use disk_models::{EraseDisk, OnceDisk};
use service::{FileLoad, Loading, Output, load_files};
use std::alloc::Global;
use std::io::{Read, Write};

/// Files that are loaded, one after another.
#[derive(Drop)]
struct LoadFiles<'l, 't, 'f, 'o, 'e, R: Read, W: Write, X: Write> {
    asked: &'l Loading<'t>,
    files: &'f mut [FileLoad<R>],
    out: &'o mut Output<W>,
    err: &'e mut Output<X>,
}

impl<A: RouteArchive, R: Read, W: Write, X: Write> Command<A>
    for LoadFiles<'_, '_, '_, '_, '_, R, W, X> {
    ghost always = { λ was now status. (was.files.ghost_name ≡ now.files.ghost_name) × (was.out.ghost_name ≡ now.out.ghost_name) × (was.err.ghost_name ≡ now.err.ghost_name) × (status ≡ 0 → map (λ f. f.input.failed) now.files.now ≡ map (λ f. f.input.failed) was.files.now) };

    ghost does = { λ was now most h g status. AreFilesLoaded was.asked.now most h (map (λ f. record { input = f.input; report = f.report }) was.files.now) (map (λ f. record { input = f.input; report = f.report }) now.files.now) status (λ left. left ≡ g) was.out.now now.out.now was.err.now now.err.now };

    fn run(&mut self, alloc: Global, archive: A) -> (A, u8) {
        let mut archive = archive;
        let status = load_files(
            alloc,
            &mut archive,
            self.asked,
            self.files,
            self.out,
            self.err,
        );
        (archive, status)
    }
}

/// Loads the files as they are asked for into the archive on both disks, and writes out what is buffered. The exit status is that of the load,
/// and 1 if not all lines could be written. Disks that read as an archive are refused only if a device fails or memory runs out.
pub fn load_on<E: EraseDisk + Drop, O: OnceDisk + Drop, R: Read, W: Write, X: Write>(
    alloc: Global,
    disks: Disks<E, O>,
    asked: &Loading<'_>,
    files: &mut [FileLoad<R>],
    out: &mut Output<W>,
    err: &mut Output<X>,
) -> Ended<E, O, OpenError>
    // The load is one into the history which the disks read as, and they keep the one that it left.
    ensures loaded { IfOk result.outcome (λ status. (h : History) (r : Represent E.EraseDisk O.OnceDisk disks h) → AreFilesLoaded asked.now (limit_for r.site.settings) h (map (λ f. record { input = f.input; report = f.report }) files.old) (map (λ f. record { input = f.input; report = f.report }) files.new) status (Leave E.EraseDisk O.OnceDisk result.disks result.is_read) out.old out.new err.old err.new) }
    ensures sound { result.outcome ≡ Ok 0 → map (λ f. f.input.failed) files.new ≡ map (λ f. f.input.failed) files.old }
    ensures unopened { IfErr result.outcome (λ why. (h : History) (r : Represent E.EraseDisk O.OnceDisk disks h) → home_place r.site.homes ≤ E.octet_count disks.erase → IsFaultOrMemory why) }
    ensures idle { IfErr result.outcome (λ why. (files.new ≡ files.old) × (out.new ≡ out.old) × (err.new ≡ err.old)) }
    ensures kept { IfErr result.outcome (λ why. (h : History) → Keep E.EraseDisk O.OnceDisk disks h → Keep E.EraseDisk O.OnceDisk result.disks h) }
{
    let mut command = LoadFiles {
        asked,
        files,
        out,
        err,
    };
    run_on(alloc, disks, NoReasons, &mut command)
}
