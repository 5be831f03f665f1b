//! How far an archive has come, and how much of it is used.
//!
//! The settled watermark and the counts of records are the board's, which wait for nobody. The rest is asked of the archive under its
//! lock, and is missing while the archive isn't open.

ghost use Rattle.std.specs.Prelude.{◌≡◌};

use board::{Named, Pass};
use dates::{Seconds, Utc};
use interleaving_core::Resume;
use query_threads::{Gate, Lane as UsedLane, OnDisk, Room as UsedRoom, Shared, Store, Usage};
use serde::Serialize;
use std::alloc::{AllocError, Global};
use std::sync::Wait;

/// How much of something is used, and how much there is.
#[derive(Clone, Copy, Debug, Serialize)]
pub(crate) struct Room {
    pub(crate) used: u64,
    pub(crate) of: u64,
}

/// What is known of a collector. Its ring is in octets.
#[derive(Clone, Copy, Debug, Serialize)]
pub(crate) struct Lane {
    pub(crate) collector: u8,
    pub(crate) mark: Option<Seconds>,
    pub(crate) offered: Option<u64>,
    pub(crate) admitted: u64,
    pub(crate) ring: Option<Room>,
}

/// How far an archive has come: how many changes are applied, the time of the last of them, and how much is used.
#[derive(Debug, Drop, Serialize)]
pub(crate) struct Standing {
    /// The settled watermark, and its date.
    pub(crate) settled: Seconds,
    pub(crate) date: String,
    pub(crate) changes: Option<u64>,
    pub(crate) last: Option<Seconds>,
    pub(crate) pages: Option<Room>,
    pub(crate) blocks: Option<Room>,
    pub(crate) collectors: Vec<Lane>,
}

fn room_of(room: UsedRoom) -> Room {
    Room {
        used: room.used,
        of: room.of,
    }
}

/// What is known of a collector, of which this many records are admitted.
fn lane_of(collector: u8, admitted: u64, known: Option<UsedLane>) -> Lane {
    let Some(UsedLane { resume, ring }) = known else {
        return Lane {
            collector,
            mark: None,
            offered: None,
            admitted,
            ring: None,
        };
    };
    let Resume { offered, mark, .. } = resume;
    Lane {
        collector,
        mark: Some(Seconds {
            micros: mark.number(),
        }),
        offered: Some(offered),
        admitted,
        ring: Some(room_of(ring)),
    }
}

/// What the archive reported of a collector.
fn known_of(usage: &Option<Usage>, collector: u8) -> Option<UsedLane> {
    let Some(usage) = usage else {
        return None;
    };
    usage.lanes.get(usize::from(collector)).copied()
}

/// The same with what the archive reported of itself.
fn standing_with(
    settled: Seconds,
    date: String,
    usage: Option<Usage>,
    collectors: Vec<Lane>,
) -> Standing {
    match usage {
        Some(usage) => Standing {
            settled,
            date,
            changes: Some(usage.changes),
            last: Some(Seconds {
                micros: usage.last.number(),
            }),
            pages: Some(room_of(usage.pages)),
            blocks: Some(room_of(usage.blocks)),
            collectors,
        },
        None => Standing {
            settled,
            date,
            changes: None,
            last: None,
            pages: None,
            blocks: None,
            collectors,
        },
    }
}

/// How far the archive has come. All is asked with another pass of the same view, so this one stays.
pub(crate) fn standing_of<A: Store, N: Named + OnDisk<A::Disk>, G: Gate + Drop>(
    rt: &impl Wait,
    alloc: Global,
    shared: &Shared<A, N, G>,
    pass: &mut Pass<N>,
) -> Result<Standing, AllocError>
    ensures same { pass.new ≡ pass.old }
{
    let mut own = shared.split(pass);
    let usage = shared.usage(rt, &mut own, alloc);
    let micros = shared.watermark(&mut own);
    let date = format!(in alloc; "{}", Utc { micros })?;
    let settled = Seconds { micros };
    let mut collectors = Vec::new(alloc);
    let count = shared.collectors();
    for collector in 0..count {
        let admitted = shared.durable(&mut own, collector);
        let known = known_of(&usage, collector);
        collectors.push(lane_of(collector, admitted, known))?;
    }
    Ok(standing_with(settled, date, usage, collectors))
}

impl Standing {
    /// It as an object of JSON. Memory alone refuses it.
    pub(crate) fn json(&self, alloc: Global) -> Option<String> {
        serde_json::to_string(alloc, self).ok()
    }
}
