//! An archive on disks in memory, and what is given to it and asked of it.

use crate::chance::Chance;
use crate::logs::Log;
use archive_pages::Settings;
use disk_archive::Archive;
use disk_memory::{MemErase, MemOnce};
use disk_models::OnceDisk;
use interleaving_core::Query;
use query_threads::{Step, Store};
use route_meaning::{EventsQuestion, RowsQuestion, Select};
use route_model::{Address, Admission, Change, Mark, Moment, Peer, Prefix, Route, SharedRoute};
use shared_archive::{MemStore, NoRenewal};
use std::alloc::Global;
use std::sync::Arc;

/// How many collectors each archive has.
pub(crate) const COLLECTORS: u8 = 2;

/// How many pages each ring has.
pub(crate) const RING: u16 = 60;

/// As many steps of applying as a test may need.
pub(crate) const STEPS: u32 = 1_000_000;

/// The moment from which a loaded archive has records.
pub(crate) const FIRST: u64 = 1_000;

/// The moment up to which a loaded archive has records, and from which more are given to it.
pub(crate) const SECOND: u64 = 1_060;

/// How many records are given of one prefix, one each second: with this many routes of 800 octets a leaf overflows three times.
pub(crate) const RECORDS: u8 = 60;

/// The octets of an erasable disk: 265 pages before the home pages; the head, the rings, and 400 pages of the tree.
pub(crate) const OCTETS: u64 = (265 + 1 + COLLECTORS as u64 * RING as u64 + 400) * 16_384;

/// The blocks of a write-once disk.
pub(crate) const BLOCKS: u64 = 20_000;

/// The encoding of a route, as docs/FORMATS.md has it, up to the count of its attributes: the path 65001 65002 by IGP, and the next hop
/// 192.0.2.1.
const ROUTE: [u8; 19] = [
    0, 0, 1, 2, 2, 0, 0, 0xFD, 0xE9, 0, 0, 0xFD, 0xEA, 4, 0xC0, 0, 2, 1, 0,
];

/// An archive to which nothing was given, with its blocks on this disk.
pub(crate) fn empty_archive<O: OnceDisk + Drop>(
    alloc: Global,
    once: O,
    pen: O::Pen,
) -> Option<Archive<MemErase, O>> {
    let settings = Settings {
        collectors: COLLECTORS,
        ring: RING,
    };
    let erase = MemErase::new(alloc, OCTETS);
    Archive::create(alloc, erase, Arc::new(alloc, once).ok()?, pen, settings).ok()
}

/// A store to which nothing was given.
pub(crate) fn empty_store(alloc: Global) -> Option<MemStore> {
    let (once, pen) = MemOnce::new(alloc, BLOCKS);
    let archive = empty_archive(alloc, once, pen)?;
    Some(MemStore::new(archive, NoRenewal))
}

/// Applies what may be applied. None where that failed.
fn apply_all<S: Store>(store: &mut S) -> Option<()> {
    for _ in 0..STEPS {
        if store.apply_step().ok()? == Step::Idle {
            return Some(());
        }
    }
    None
}

/// Gives the first records, one of each moment from `FIRST` to below `SECOND`, and applies them. None where that failed.
pub(crate) fn load<S: Store>(alloc: Global, store: &mut S, log: &mut Log) -> Option<()> {
    let records = announcements(alloc, FIRST, RECORDS)?;
    let reply = store.admit(0, &records).ok()?;
    log.keep(&reply, records)?;
    store.mark(0, mark_of(SECOND)).ok()?;
    store.mark(1, mark_of(SECOND)).ok()?;
    apply_all(store)
}

/// A store that the first records were given to.
pub(crate) fn loaded_store(alloc: Global, log: &mut Log) -> Option<MemStore> {
    let mut store = empty_store(alloc)?;
    load(alloc, &mut store, log)?;
    Some(store)
}

/// How many blocks were burnt.
pub(crate) fn burnt_by(store: MemStore) -> usize {
    match store.archive.into_disks() {
        Some(disks) => disks.pen.settled().len(),
        None => 0,
    }
}

/// A mark at these seconds, or that of the last second.
pub(crate) fn mark_of(seconds: u64) -> Mark {
    Mark::new(seconds.saturating_mul(Moment::SECOND)).unwrap_or(Mark::at(Moment::from(u32::MAX)))
}

/// The moment at these seconds, or the last second.
pub(crate) fn moment_of(seconds: u64) -> Moment {
    Moment::new(seconds.saturating_mul(Moment::SECOND)).unwrap_or(Moment::from(u32::MAX))
}

/// A peer of a collector.
pub(crate) fn peer_of(collector: u8, number: u8) -> Peer {
    Peer {
        collector,
        address: Address::V4([192, 0, 2, number]),
        as_number: 65001,
    }
}

// One of two peers of the collector.
fn draw_peer(chance: &mut Chance, collector: u8) -> Peer {
    peer_of(collector, chance.below(2).saturating_add(1))
}

/// One of the prefixes 10.0.0.0/16, 10.1.0.0/16 and so on.
pub(crate) fn prefix_of(number: u8) -> Prefix {
    Prefix::containing(Address::V4([10, number, 0, 0]), 16)
}

/// A route of some 800 octets: a leaf has room for some twenty of them.
pub(crate) fn route_of(alloc: Global, number: u8) -> Option<SharedRoute> {
    let mut octets = Vec::new(alloc);
    octets.extend_from_slice(&ROUTE).ok()?;
    octets[12] = number;
    // An attribute of type 99, with 770 octets.
    octets.extend_from_slice(&[0, 1, 99, 0xC0, 3, 2]).ok()?;
    octets.resize(795, number).ok()?;
    let route = Route::decode(alloc, &octets).ok()??;
    SharedRoute::new(alloc, route).ok()
}

fn draw_change(alloc: Global, chance: &mut Chance, collector: u8) -> Option<Change> {
    let peer = draw_peer(chance, collector);
    let prefix = prefix_of(chance.below(4));
    Some(match chance.below(8) {
        0 => Change::Down(peer),
        1 => Change::Withdraw(peer, prefix),
        number => Change::Announce(peer, prefix, route_of(alloc, number)?),
    })
}

// A record of one or two changes at this time.
fn draw_record(
    alloc: Global,
    chance: &mut Chance,
    collector: u8,
    seconds: u64,
) -> Option<Admission> {
    let mut changes = Vec::new(alloc);
    for _ in 0..=chance.below(2) {
        changes.push(draw_change(alloc, chance, collector)?).ok()?;
    }
    Admission::new(moment_of(seconds), changes).ok()
}

/// One to three records from this time on, of which a later one may be earlier, and then is late.
pub(crate) fn draw_batch(
    alloc: Global,
    chance: &mut Chance,
    collector: u8,
    from: u64,
) -> Option<Vec<Admission>> {
    let mut batch = Vec::new(alloc);
    for _ in 0..=chance.below(3) {
        let time = from.saturating_add(u64::from(chance.below(3)));
        batch
            .push(draw_record(alloc, chance, collector, time)?)
            .ok()?;
    }
    Some(batch)
}

/// `count` announcements of 10.0.0.0/16 by one peer of the first collector, each a second later than the one before.
pub(crate) fn announcements(alloc: Global, from: u64, count: u8) -> Option<Vec<Admission>> {
    let mut batch = Vec::new(alloc);
    for number in 0..count {
        let change = Change::Announce(peer_of(0, 1), prefix_of(0), route_of(alloc, number)?);
        let mut changes = Vec::new(alloc);
        changes.push(change).ok()?;
        let time = moment_of(from.saturating_add(u64::from(number)));
        batch.push(Admission::new(time, changes).ok()?).ok()?;
    }
    Some(batch)
}

/// What that peer announced of 10.0.0.0/16 from one moment to another.
pub(crate) fn history_of(from: u64, to: u64) -> Query {
    Query::Events(EventsQuestion {
        from: moment_of(from),
        to: moment_of(to),
        peer: peer_of(0, 1),
        prefix: prefix_of(0),
        skip: 0,
    })
}

/// A record of the second collector: a peer of it announces 10.0.0.0/16, and withdraws it.
pub(crate) fn withdrawal(alloc: Global, time: u64) -> Option<Vec<Admission>> {
    let announced = Change::Announce(peer_of(1, 1), prefix_of(0), route_of(alloc, 1)?);
    let mut changes = Vec::new(alloc);
    changes.push(announced).ok()?;
    changes
        .push(Change::Withdraw(peer_of(1, 1), prefix_of(0)))
        .ok()?;
    let mut batch = Vec::new(alloc);
    batch
        .push(Admission::new(moment_of(time), changes).ok()?)
        .ok()?;
    Some(batch)
}

/// All routes of a moment.
pub(crate) fn routes_at(seconds: u64) -> Query {
    Query::Rows(RowsQuestion {
        moment: moment_of(seconds),
        select: Select::All,
        after: None,
    })
}

fn draw_select(chance: &mut Chance) -> Select {
    let collector = chance.below(COLLECTORS);
    let peer = draw_peer(chance, collector);
    let number = chance.below(4);
    match chance.below(5) {
        0 => Select::Route(peer, prefix_of(number)),
        1 => Select::ByPrefix(prefix_of(number)),
        2 => Select::Covering(Address::V4([10, number, 0, 1])),
        3 => Select::PeerTable(peer),
        _ => Select::All,
    }
}

/// A question of which this is the last moment.
pub(crate) fn draw_query(chance: &mut Chance, moment: u64) -> Query {
    let collector = chance.below(COLLECTORS);
    if chance.below(3) == 0 {
        return Query::Events(EventsQuestion {
            from: moment_of(moment.saturating_sub(u64::from(chance.below(200)))),
            to: moment_of(moment),
            peer: draw_peer(chance, collector),
            prefix: prefix_of(chance.below(4)),
            skip: u64::from(chance.below(3)),
        });
    }
    Query::Rows(RowsQuestion {
        moment: moment_of(moment),
        select: draw_select(chance),
        after: None,
    })
}
