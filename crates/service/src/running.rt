//! What the program does for a command, once its archive is created or open.

ghost use Rattle.std.specs.Prelude.{◌≡◌, true, false, [], map, string_bytes};
ghost use Rattle.route_meaning.specs.History.{History};
ghost use Rattle.service.specs.Outputs.{Reports};
ghost use Rattle.service.specs.Refusals.{ReportsFailure};
ghost use Rattle.service.specs.Running.{rule_where, created_line, settings_of, IsWrittenOut, AreFilesLoaded, IsLineAsked, IsArchiveChecked, IsCreationReported};

use crate::asking::ask;
use crate::checking::check;
use crate::invocation::{Creation, Loading, Question};
use crate::loading::load;
use crate::output::Output;
use crate::report::FileLoad;
use crate::reporting::report_unwritten;
use crate::settings::{FeedSettings, LoadSettings};
use crate::status::Status;
use archive_calls::RouteArchive;
use resolve::WithoutHop;
use std::alloc::Global;
use std::io::{Read, Write};

/// Flushes what is buffered: `Failed` if that fails, which `err` shows if nothing failed before.
fn write_out<W: Write, E: Write>(alloc: Global, out: &mut Output<W>, err: &mut Output<E>) -> Status
    ensures flushed { Reports out.old out.new [] }
    ensures done { out.new.failed ≡ false → result ≡ Status.Done }
    ensures failed { out.new.failed ≡ true → result ≡ Status.Failed }
    ensures quiet { out.old.failed ≡ true → err.new ≡ err.old }
    ensures reported { out.old.failed ≡ false → ReportsFailure out.new.failed err.old err.new }
{
    if out.has_failed() {
        return Status::Failed;
    }
    out.flush();
    if out.has_failed() {
        report_unwritten(alloc, out, err);
        return Status::Failed;
    }
    Status::Done
}

/// The exit status of the program whose command ended so: what is buffered is written out first, and if not all could
/// be written, it is 1.
pub fn finish<W: Write, E: Write>(
    alloc: Global,
    ended: Status,
    out: &mut Output<W>,
    err: &mut Output<E>,
) -> u8
    ensures written { IsWrittenOut ended result out.old out.new err.old err.new }
{
    let written = write_out(alloc, out, err);
    ended.code().max(written.code())
}

/// What becomes of entries without a next hop, by whether the command line has them left out.
fn rule_where(is_lost: bool) -> WithoutHop
    ensures rule { result ≡ rule_where is_lost }
{
    if is_lost {
        WithoutHop::LeftOut
    } else {
        WithoutHop::Refused
    }
}

/// How files are loaded as the command line asks.
fn settings_of(asked: &Loading<'_>) -> LoadSettings
    ensures settings { result ≡ settings_of asked.now }
{
    LoadSettings {
        feed: FeedSettings {
            collector: asked.collector,
            limit: asked.batch,
            rule: rule_where(asked.lose_entries),
        },
        mark: asked.mark,
        resume: asked.resume,
        strict: asked.strict,
    }
}

/// Loads the files as the command line asks, and writes out what is buffered. The exit status of the program is that of
/// the load, and 1 if not all lines could be written. Each file has a report of what became of it.
pub fn load_files<A: RouteArchive, R: Read, W: Write, E: Write>(
    alloc: Global,
    archive: &mut A,
    asked: &Loading<'_>,
    files: &mut [FileLoad<R>],
    out: &mut Output<W>,
    err: &mut Output<E>,
) -> u8
    ensures ended { (h : History) → A.represents archive.old h → AreFilesLoaded asked.now (A.most archive.old) h (map (λ f. record { input = f.input; report = f.report }) files.old) (map (λ f. record { input = f.input; report = f.report }) files.new) result (A.represents archive.new) out.old out.new err.old err.new }
    ensures sound { result ≡ 0 → map (λ f. f.input.failed) files.new ≡ map (λ f. f.input.failed) files.old }
{
    let loaded = load(alloc, archive, settings_of(asked), files, out, err);
    finish(alloc, loaded, out, err)
}

/// Answers the line that the command line asks, and writes out what is buffered. The exit status of the program is that
/// of the answer, and 1 if not all lines could be written.
pub fn ask_line<A: RouteArchive, W: Write, E: Write>(
    alloc: Global,
    archive: &mut A,
    asked: &Question<'_>,
    out: &mut Output<W>,
    err: &mut Output<E>,
) -> u8
    ensures ended { (h : History) → A.represents archive.old h → IsLineAsked (string_bytes asked.now.line) h result out.old out.new err.old err.new }
    ensures kept { (h : History) → A.represents archive.old h → A.represents archive.new h }
{
    let answered = ask(alloc, archive, asked.line.as_str(), out, err);
    finish(alloc, answered, out, err)
}

/// Checks the archive, and writes out what is buffered. The exit status of the program is that of the check, and 1 if
/// not all could be written.
pub fn check_archive<A: RouteArchive, W: Write, E: Write>(
    alloc: Global,
    archive: &mut A,
    out: &mut Output<W>,
    err: &mut Output<E>,
) -> u8
    ensures ended { (h : History) → A.represents archive.old h → IsArchiveChecked h result out.old out.new err.old err.new }
    ensures kept { (h : History) → A.represents archive.old h → A.represents archive.new h }
{
    let checked = check(alloc, archive, out, err);
    finish(alloc, checked, out, err)
}

/// Writes an archive's settings.
fn write_created<W: Write>(out: &mut Output<W>, made: &Creation<'_>)
    ensures line { Reports out.old out.new (created_line made.now) }
{
    out.text("created ");
    out.number(u64::from(made.collectors));
    out.text(" ");
    out.number(u64::from(made.ring));
    out.text(" ");
    out.number(made.pages);
    out.text(" ");
    out.number(made.blocks);
    out.text("\n");
}

/// Prints that an archive is created, `created COLLECTORS RING PAGES BLOCKS`, and flushes what is buffered. The exit status
/// of the program is 0, and 1 if not all could be written, which `err` shows.
pub fn report_created<W: Write, E: Write>(
    alloc: Global,
    made: &Creation<'_>,
    out: &mut Output<W>,
    err: &mut Output<E>,
) -> u8
    ensures reported { IsCreationReported made.now result out.old out.new err.old err.new }
{
    write_created(out, made);
    out.flush();
    if out.has_failed() {
        report_unwritten(alloc, out, err);
        return 1;
    }
    0
}
