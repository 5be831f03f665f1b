//! Loads files: feeds them, sets the mark, and applies.

ghost use Rattle.std.specs.Prelude.{◌≡◌, ℕ, true, false, List, Option, None, OnOk, OnErr, IfErr, map};
ghost use Rattle.route_meaning.specs.History.{History};
ghost use Rattle.service.specs.Feeds.{MayGive};
ghost use Rattle.service.specs.FeedTexts.{intake_in};
ghost use Rattle.service.specs.FileLoads.{AreLoaded, IsFileEnd, mark_unless, refused_if};
ghost use Rattle.service.specs.Loads.{IsSettled, marked_if};
ghost use Rattle.service.specs.inner.Loading.{HasNotSettled, first_of, mark_after, status_after};

use crate::doubts::is_held;
use crate::faults::{FeedStop, LoadStop};
use crate::feed_lines::write_settled;
use crate::intake::{End, feed};
use crate::making_room::apply_all;
use crate::output::{Input, Output};
use crate::refusal::{Refusal, write_error};
use crate::report::{FileLoad, LoadReport};
use crate::reporting::report_trouble;
use crate::resuming::dropped_where;
use crate::settings::LoadSettings;
use crate::status::{Status, reported};
use archive_calls::{Flush, MarkError, RouteArchive, Trouble};
use route_model::Mark;
use std::alloc::Global;
use std::io::{Read, Write};

/// Sets the mark of a collector, if there is one to set.
fn set_mark<A: RouteArchive>(
    archive: &mut A,
    collector: u8,
    mark: Option<Mark>,
) -> Result<(), LoadStop>
    ensures marked { (h : History) → A.represents archive.old h → OnOk result (A.represents archive.new (marked_if collector mark h)) }
    ensures unmarked { (h : History) → A.represents archive.old h → IfErr result (HasNotSettled collector mark h (A.represents archive.new)) }
    ensures most { A.most archive.new ≡ A.most archive.old }
{
    let Some(mark) = mark else {
        return Ok(());
    };
    match archive.mark(collector, mark) {
        Ok(()) => Ok(()),
        Err(MarkError::NoCollector) => Err(LoadStop::NoCollector),
        Err(MarkError::MarkBack) => Err(LoadStop::MarkBack),
        Err(MarkError::Trouble(trouble)) => Err(LoadStop::Trouble(trouble)),
    }
}

/// Flushes until no page waits to go home.
fn flush_all<A: RouteArchive>(archive: &mut A) -> Result<(), Trouble>
    ensures same { (h : History) → A.represents archive.old h → A.represents archive.new h }
    ensures most { A.most archive.new ≡ A.most archive.old }
{
    for _ in 0..u64::MAX {
        match archive.flush_step() {
            Ok(Flush::Flushed) => {}
            Ok(Flush::Clean) => return Ok(()),
            Err(trouble) => return Err(trouble),
        }
    }
    Err(Trouble::OutOfMemory)
}

/// Sets the mark, applies what may be applied, and flushes.
fn settle<A: RouteArchive>(
    archive: &mut A,
    collector: u8,
    mark: Option<Mark>,
) -> Result<(), LoadStop>
    ensures settled { (h : History) → A.represents archive.old h → OnOk result (IsSettled (marked_if collector mark h).intakes (A.represents archive.new)) }
    ensures unsettled { (h : History) → A.represents archive.old h → IfErr result (HasNotSettled collector mark h (A.represents archive.new)) }
    ensures most { A.most archive.new ≡ A.most archive.old }
{
    set_mark(archive, collector, mark)?;
    apply_all(archive)?;
    flush_all(archive)?;
    Ok(())
}

/// The mark to set once a feed has ended so.
fn mark_after(end: End, mark: Option<Mark>) -> Option<Mark>
    ensures mark { result ≡ mark_after end mark }
{
    match end {
        End::Well => mark,
        End::Cut | End::Refused(_) => None,
    }
}

/// The status of a load whose feed has ended so.
fn status_after(end: End) -> Status
    ensures status { result ≡ status_after end }
{
    match end {
        End::Well => Status::Done,
        End::Cut | End::Refused(_) => Status::Refused,
    }
}

/// The refusal that a load ends with outside its feed: that the archive must be opened again isn't reported in place of what failed in
/// the feed before.
fn first_of(end: End, why: LoadStop) -> LoadStop
    ensures first { result ≡ first_of end why }
{
    match (end, why) {
        (End::Refused(FeedStop::Trouble(trouble)), LoadStop::Trouble(Trouble::NeedsRecovery)) =>
            LoadStop::Trouble(trouble),
        _ => why,
    }
}

/// Why a feed was given up, if it was.
fn refusal_of(end: End) -> Option<Refusal> {
    match end {
        End::Refused(why) => Some(Refusal::from(why)),
        End::Well | End::Cut => None,
    }
}

/// The mark of a collector, in microseconds: 0 if there is no such collector.
fn present_mark<A: RouteArchive>(archive: &A, collector: u8) -> u64
    ensures present { (h : History) → A.represents archive.now h → result ≡ (intake_in h.intakes collector).mark }
{
    match archive.resume(collector) {
        Some(place) => place.mark.number(),
        None => 0,
    }
}

/// The collector's mark after a feed that ended so, as a report has it.
fn present_after(end: End, present: u64) -> Option<u64> {
    (end == End::Well).then_some(present)
}

/// The mark that a load sets, unless it is held back.
fn mark_unless(is_held: bool, mark: Option<Mark>) -> Option<Mark>
    ensures mark { result ≡ mark_unless is_held mark }
{
    if is_held { None } else { mark }
}

/// The status of a load: one that is held back isn't done.
fn refused_if(is_held: bool, status: Status) -> Status
    ensures status { result ≡ refused_if is_held status }
{
    match status {
        Status::Done if is_held => Status::Refused,
        status => status,
    }
}

/// Loads a file: takes it as a feed, sets the mark if the feed ended well and the load isn't held back, applies what may be applied,
/// flushes, and writes the settled watermark. A refusal outside the feed is written to `err` and ends the load.
fn load_one<A: RouteArchive, R: Read, W: Write, E: Write>(
    alloc: Global,
    archive: &mut A,
    how: LoadSettings,
    dropping: &mut u64,
    reader: &mut Input<R>,
    report: &mut LoadReport,
    out: &mut Output<W>,
    err: &mut Output<E>,
) -> Status
    ensures ended { (h : History) → A.represents archive.old h → (bytes : List ℕ) × MayGive reader.old.left bytes × IsFileEnd how (A.most archive.old) dropping.old dropping.new h bytes reader.old.failed reader.new.failed result report.new (A.represents archive.new) out.old out.new err.old err.new }
    ensures most { A.most archive.new ≡ A.most archive.old }
    ensures sound { result ≡ Status.Done → reader.new.failed ≡ reader.old.failed }
{
    let collector = how.feed.collector;
    *report = LoadReport::new(true);
    if collector >= archive.collectors() {
        report.refusal = Some(Refusal::NoCollector);
        write_error(err, &Refusal::from(LoadStop::NoCollector));
        return reported(alloc, Status::Refused, out, err);
    }
    report.before = archive.resume(collector).map(|it| it.mark);
    let to_drop = *dropping;
    let end = feed(
        alloc,
        archive,
        how.feed,
        dropping,
        reader,
        out,
        &mut report.counts,
        &mut report.left_out,
    );
    report.refusal = refusal_of(end);
    let dropped = to_drop.saturating_sub(*dropping);
    report.dropped = dropped;
    let present = present_mark(archive, collector);
    report.present = present_after(end, present);
    let held = is_held(how.strict, how.mark, &report.counts, dropped, present);
    report.is_held = held;
    let mark = mark_unless(held, how.mark);
    match settle(archive, collector, mark_after(end, mark)) {
        Ok(()) => {
            write_settled(out, archive.settled());
            refused_if(held, reported(alloc, status_after(end), out, err))
        }
        Err(why) => {
            let refusal = Refusal::from(first_of(end, why));
            report.refusal = Some(refusal);
            report_trouble(alloc, archive, &refusal, err);
            refused_if(held, reported(alloc, Status::Refused, out, err))
        }
    }
}

/// The same of the next of several files, with its report.
fn load_next<A: RouteArchive, R: Read, W: Write, E: Write>(
    alloc: Global,
    archive: &mut A,
    how: LoadSettings,
    dropping: &mut u64,
    file: &mut FileLoad<R>,
    out: &mut Output<W>,
    err: &mut Output<E>,
) -> Status
    ensures ended { (h : History) → A.represents archive.old h → (bytes : List ℕ) × MayGive file.old.input.left bytes × IsFileEnd how (A.most archive.old) dropping.old dropping.new h bytes file.old.input.failed file.new.input.failed result file.new.report (A.represents archive.new) out.old out.new err.old err.new }
    ensures most { A.most archive.new ≡ A.most archive.old }
    ensures sound { result ≡ Status.Done → file.new.input.failed ≡ file.old.input.failed }
{
    load_one(
        alloc,
        archive,
        how,
        dropping,
        &mut file.input,
        &mut file.report,
        out,
        err,
    )
}

/// Whether a load goes on after one of its files, whose load ended so.
fn goes_on(is_last: bool, status: Status) -> bool
    ensures on { result ≡ true → (is_last ≡ false) × (status ≡ Status.Done) }
    ensures ends { result ≡ false → status ≡ Status.Done → is_last ≡ true }
{
    match status {
        Status::Done => !is_last,
        Status::Refused | Status::Failed => false,
    }
}

/// How one of several files is loaded: the mark is set with the last one alone.
fn with_mark_if(is_last: bool, how: &LoadSettings) -> LoadSettings
    ensures last { is_last ≡ true → result ≡ how.now }
    ensures other { is_last ≡ false → result ≡ record how.now { mark = None } }
{
    LoadSettings {
        feed: how.feed,
        mark: if is_last { how.mark } else { None },
        resume: how.resume,
        strict: how.strict,
    }
}

/// Loads files one after another, each as a feed of its own with its own lines: its records are admitted, what may be applied is applied, and the
/// settled watermark is written. The mark is set once the last feed has ended well. The first file whose load isn't done ends the load: its
/// feed was cut or given up, or the load is strict and in doubt, or something was refused outside the feed, which is
/// written to `err`. Those after it aren't read. Each file has a report of what became of it.
pub fn load<A: RouteArchive, R: Read, W: Write, E: Write>(
    alloc: Global,
    archive: &mut A,
    how: LoadSettings,
    files: &mut [FileLoad<R>],
    out: &mut Output<W>,
    err: &mut Output<E>,
) -> Status
    ensures ended { (h : History) → A.represents archive.old h → AreLoaded how (A.most archive.old) h (map (λ f. record { input = f.input; report = f.report }) files.old) (map (λ f. record { input = f.input; report = f.report }) files.new) result (A.represents archive.new) out.old out.new err.old err.new }
    ensures sound { result ≡ Status.Done → map (λ f. f.input.failed) files.new ≡ map (λ f. f.input.failed) files.old }
{
    let mut dropping = dropped_where(archive, how.feed.collector, how.resume);
    let count = files.len();
    for (place, file) in files.iter_mut().enumerate() {
        let is_last = place + 1 == count;
        let status = load_next(
            alloc,
            archive,
            with_mark_if(is_last, &how),
            &mut dropping,
            file,
            out,
            err,
        );
        if !goes_on(is_last, status) {
            return status;
        }
    }
    Status::Done
}
