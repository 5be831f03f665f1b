//! A connection, served to its end.

ghost use Rattle.std.specs.Prelude.{◌≡◌, ◌++◌, ℕ, List, Option, IsSome};
ghost use Rattle.std.specs.Io.KnownBytes.{Consumes, prepend_known};
ghost use Rattle.board.specs.Past.{Among};
ghost use Rattle.query_threads.specs.Seeing.{Since};
ghost use Rattle.service.specs.Feeds.{MayGive};
ghost use Rattle.service.specs.declared.intake.End.{End};
ghost use Rattle.shared_feed.specs.SharedFeeds.{IsEnd, limits_of};
ghost use Rattle.serving.specs.Clients.{IsServed, closing_after, closing_for, done_unless};

use board::{Named, Pass};
use line_reader::LineReader;
use query_threads::{Gate, OnDisk, Reader, Shared, Store};
use server::{Ending, Meters, Port, serve_lines};
use service::{End, FeedStop, Output};
use shared_feed::feed;
use std::alloc::Global;
use std::io::{Read, Write};
use std::sync::Wait;
use std::time::Clock;

/// How a connection ended.
#[derive(Clone, Copy, Debug, PartialEq, Eq)]
pub enum Closing {
    /// As its lines ask, or where its client ended it.
    Done,
    /// The server is to end.
    Stop,
    /// Its socket failed.
    Failed,
}

/// How a connection ended whose work is done.
fn done_unless(failed: bool) -> Closing
    ensures closing { result ≡ done_unless failed }
{
    if failed {
        Closing::Failed
    } else {
        Closing::Done
    }
}

/// How a connection ended whose feed was given up for this.
fn closing_for(why: FeedStop, failed: bool) -> Closing
    ensures closing { result ≡ closing_for why failed }
{
    match why {
        FeedStop::Outside => Closing::Failed,
        FeedStop::NoCollector
        | FeedStop::CounterFull
        | FeedStop::IntakeFull
        | FeedStop::Trouble(_) => done_unless(failed),
    }
}

/// How a connection ended whose feed ended so.
fn closing_after(end: End, failed: bool) -> Closing
    ensures closing { result ≡ closing_after end failed }
{
    match end {
        End::Well | End::Cut => done_unless(failed),
        End::Refused(why) => closing_for(why, failed),
    }
}

/// Takes in what follows the line of a feed.
fn take_feed<A: Store, N: Named + OnDisk<A::Disk>, G: Gate + Drop, R: Read, W: Write>(
    rt: &impl Wait,
    alloc: Global,
    shared: &Shared<A, N, G>,
    pass: &mut Pass<N>,
    collector: u8,
    limit: u16,
    lines: &mut LineReader<R>,
    out: &mut Output<W>,
) -> Closing
    ensures fed { (bytes : List ℕ) × MayGive (prepend_known lines.old.beyond (R.remaining lines.old.reader)) bytes × (end : End) × IsEnd (IsSome N.disk) shared.now.collectors collector (limits_of limit shared.now.ring) bytes end pass.old out.old pass.new out.new × (result ≡ closing_after end out.new.failed) }
    ensures since { Since pass.old pass.new }
{
    let end = feed(rt, alloc, shared, pass, collector, limit, lines, out);
    closing_after(end, out.has_failed())
}

/// Serves a connection to a port to its end: its lines, one after another, and the feed that one of them announces, which ends it.
pub fn serve_client<A: Store, N: Named + OnDisk<A::Disk>, G: Gate + Drop, R: Read, W: Write>(
    rt: &(impl Wait + Clock),
    alloc: Global,
    shared: &Shared<A, N, G>,
    port: Port,
    pass: &mut Pass<N>,
    reader: &mut Reader<A, N>,
    meters: &Meters,
    lines: &mut LineReader<R>,
    out: &mut Output<W>,
) -> Closing
    requires reader { IsSome N.disk → Among reader.old pass.old.past.blocks }
    ensures reader { IsSome N.disk → Among reader.new pass.new.past.blocks }
    ensures served { (gave : List ℕ) × (left : Option (List ℕ)) × Consumes (R.remaining lines.old.reader) left gave × IsServed (IsSome N.disk) port shared.now.collectors shared.now.ring result (lines.old.beyond ++ gave) left pass.old out.old pass.new out.new }
{
    match serve_lines(rt, alloc, shared, port, pass, reader, meters, lines, out) {
        Ending::Done => done_unless(out.has_failed()),
        Ending::Feed(collector, limit) => {
            take_feed(rt, alloc, shared, pass, collector, limit, lines, out)
        }
        Ending::Stop => Closing::Stop,
        Ending::Failed => Closing::Failed,
    }
}
