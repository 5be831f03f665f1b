//! An archive is created, loaded and asked.

ghost use Rattle.std.specs.Prelude.{IfSome, map, string_bytes};
ghost use Rattle.route_meaning.specs.History.{History};
ghost use Rattle.archive_pages.specs.Places.{AreSettings};
ghost use Rattle.disk_calls.specs.Represented.{limit_for};
ghost use Rattle.disk_commands.specs.Disks.{FollowModels, Represent, settings_for};
ghost use Rattle.service.specs.Running.{IsLineAsked};
ghost use Rattle.command_tests.specs.Plays.{IsFilled, IsPlayed};

use crate::played::{Filled, Played};
use disk_commands::{Disks, ask_on, create_on, load_on};
use disk_files::{FileErase, FileOnce};
use disk_memory::{MemErase, MemOnce};
use disk_models::{EraseDisk, OnceDisk};
use memory_files::MemFile;
use service::{Creation, FileLoad, Loading, Output, Question};
use std::alloc::Global;
use std::io::{Read, Write};
use std::sync::Arc;

// Asks a line.
fn answer<E: EraseDisk + Drop, O: OnceDisk + Drop, W: Write, X: Write>(
    alloc: Global,
    disks: Disks<E, O>,
    asked: &Question<'_>,
    out: &mut Output<W>,
    err: &mut Output<X>,
) -> Option<u8>
    ensures answered { (h : History) → Represent E.EraseDisk O.OnceDisk disks h → IfSome result (λ code. IsLineAsked (string_bytes asked.now.line) h code out.old out.new err.old err.new) }
{
    let ended = ask_on(alloc, disks, asked, out, err);
    match ended.outcome {
        Ok(code) => Some(code),
        Err(_) => None,
    }
}

// Loads files, and asks a line. None where the disks don't read as what the load left.
fn fill<E: EraseDisk + Drop, O: OnceDisk + Drop, R: Read, W: Write, X: Write>(
    alloc: Global,
    disks: Disks<E, O>,
    how: &Loading<'_>,
    files: &mut [FileLoad<R>],
    asked: &Question<'_>,
    out: &mut Output<W>,
    err: &mut Output<X>,
) -> Option<Filled>
    ensures filled { (h : History) (r : Represent E.EraseDisk O.OnceDisk disks h) → IfSome result (λ filled. IsFilled how.now (limit_for r.site.settings) (string_bytes asked.now.line) h (map (λ f. record { input = f.input; report = f.report }) files.old) (map (λ f. record { input = f.input; report = f.report }) files.new) filled out.old out.new err.old err.new) }
{
    let ended = load_on(alloc, disks, how, files, out, err);
    match ended.outcome {
        Ok(loaded) => {
            if !ended.is_read {
                return None;
            }
            match answer(alloc, ended.disks, asked, out, err) {
                Some(answered) => Some(Filled { loaded, answered }),
                None => None,
            }
        }
        Err(_) => None,
    }
}

/// Creates an archive on both disks, loads files into it, and asks it a line. None where one of these isn't done, or a disk failed.
pub fn play_on<E: EraseDisk + Drop, O: OnceDisk + Drop, R: Read, W: Write, X: Write>(
    alloc: Global,
    disks: Disks<E, O>,
    made: &Creation<'_>,
    how: &Loading<'_>,
    files: &mut [FileLoad<R>],
    asked: &Question<'_>,
    out: &mut Output<W>,
    err: &mut Output<X>,
) -> Option<Played>
    requires settings { AreSettings (settings_for made.now) }
    ensures played { FollowModels E.EraseDisk O.OnceDisk disks → IfSome result (λ played. IsPlayed made.now how.now (string_bytes asked.now.line) (map (λ f. record { input = f.input; report = f.report }) files.old) (map (λ f. record { input = f.input; report = f.report }) files.new) played out.old out.new err.old err.new) }
{
    let ended = create_on(alloc, disks, made, out, err);
    match ended.outcome {
        Ok(created) => match fill(alloc, ended.disks, how, files, asked, out, err) {
            Some(filled) => Some(Played { created, filled }),
            None => None,
        },
        Err(_) => None,
    }
}

/// The same on new disks in memory. None also where there is no memory for them.
pub fn play<R: Read, W: Write, X: Write>(
    alloc: Global,
    octets: u64,
    made: &Creation<'_>,
    how: &Loading<'_>,
    files: &mut [FileLoad<R>],
    asked: &Question<'_>,
    out: &mut Output<W>,
    err: &mut Output<X>,
) -> Option<Played>
    requires settings { AreSettings (settings_for made.now) }
    ensures played { IfSome result (λ played. IsPlayed made.now how.now (string_bytes asked.now.line) (map (λ f. record { input = f.input; report = f.report }) files.old) (map (λ f. record { input = f.input; report = f.report }) files.new) played out.old out.new err.old err.new) }
{
    let erase = MemErase::new(alloc, octets);
    let (once, pen) = MemOnce::new(alloc, made.blocks);
    match Arc::new(alloc, once) {
        Ok(once) => play_on(
            alloc,
            Disks { erase, once, pen },
            made,
            how,
            files,
            asked,
            out,
            err,
        ),
        Err(_) => None,
    }
}

/// The same on disks over new files in memory, which do as their models say. None also where no disks have such sizes.
pub fn play_in_files<R: Read, W: Write, X: Write>(
    alloc: Global,
    octets: u64,
    made: &Creation<'_>,
    how: &Loading<'_>,
    files: &mut [FileLoad<R>],
    asked: &Question<'_>,
    out: &mut Output<W>,
    err: &mut Output<X>,
) -> Option<Played>
    requires settings { AreSettings (settings_for made.now) }
    ensures played { IfSome result (λ played. IsPlayed made.now how.now (string_bytes asked.now.line) (map (λ f. record { input = f.input; report = f.report }) files.old) (map (λ f. record { input = f.input; report = f.report }) files.new) played out.old out.new err.old err.new) }
{
    let Ok(erase) = FileErase::create_on(MemFile::new(alloc), octets) else {
        return None;
    };
    let (map, blocks) = (MemFile::new(alloc), MemFile::new(alloc));
    let Ok((once, pen)) = FileOnce::create_on(alloc, map, blocks, made.blocks) else {
        return None;
    };
    match Arc::new(alloc, once) {
        Ok(once) => play_on(
            alloc,
            Disks { erase, once, pen },
            made,
            how,
            files,
            asked,
            out,
            err,
        ),
        Err(_) => None,
    }
}
