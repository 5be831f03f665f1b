//! How far an archive has come, and how much room it has left.

ghost use Rattle.std.specs.Prelude.{◌≡◌, IfOk};
ghost use Rattle.archive_facts.specs.Facts.{AreFacts, shown_at, shown_from};

use crate::identity::Sizes;
use crate::slots::{PAGE, SLOTS};
use archive_head::{Head, Lane as HeadLane};
use dates::{Seconds, seconds_of};
use route_model::Mark;
use serde::Serialize;
use std::alloc::{AllocError, Global};

/// How much is used, and how much there is.
#[derive(Clone, Copy, Debug, PartialEq, Eq, Serialize)]
pub struct Use {
    pub used: u64,
    pub of: u64,
}

/// What is known of a collector.
#[derive(Clone, Copy, Debug, PartialEq, Eq, Serialize)]
pub struct Lane {
    pub collector: u64,
    pub mark: Seconds,
    pub offered: u64,
    pub admitted: u64,
    /// Octets of its ring.
    pub ring: Use,
}

/// How far an archive has come, and how much room it has left.
#[derive(Debug, Drop, Serialize)]
pub struct Facts {
    pub version: &'static str,
    pub settled: Seconds,
    /// How many changes are applied, and the times of the first and the last of them.
    pub changes: u64,
    pub first: Option<Seconds>,
    pub last: Seconds,
    pub pages: Use,
    pub blocks: Use,
    /// Those that were open before the archive was opened.
    pub slots: Use,
    pub collectors: Vec<Lane>,
}

/// What is shown of the collector of this number, whose ring has this many octets.
fn lane_of(collector: u64, ring: u64, kept: &HeadLane) -> Lane
    ensures lane { result ≡ shown_at ring collector kept.now }
{
    Lane {
        collector,
        mark: Seconds {
            micros: kept.mark.number(),
        },
        offered: kept.offered,
        admitted: kept.admitted,
        ring: Use {
            used: kept.used,
            of: ring,
        },
    }
}

/// What is shown of all collectors, whose rings have this many octets each.
fn lanes_of(alloc: Global, ring: u64, lanes: &[HeadLane]) -> Result<Vec<Lane>, AllocError>
    ensures lanes { IfOk result (λ shown. shown.items ≡ shown_from ring 0 lanes.now) }
{
    let mut shown = Vec::with_capacity(alloc, lanes.len())?;
    for (place, kept) in lanes.iter().enumerate() {
        shown.push(lane_of(place as u64, ring, kept))?;
    }
    Ok(shown)
}

impl Facts {
    /// The facts as one line of JSON. Memory alone refuses it.
    pub fn json(&self, alloc: Global) -> Option<String> {
        let mut text = serde_json::to_string(alloc, self).ok()?;
        text.push('\n').ok()?;
        Some(text)
    }

    /// The facts about an archive of these sizes with this head; what is settled, the time of the first change, if there is one, and how
    /// many slots were open are as given. Memory alone refuses them.
    pub fn of(
        alloc: Global,
        version: &'static str,
        sizes: Sizes,
        head: &Head,
        settled: Mark,
        first: Option<u64>,
        opened: u64,
    ) -> Result<Facts, AllocError>
        ensures facts { IfOk result (λ facts. AreFacts version.now sizes head.now settled first opened facts) }
    {
        let ring = u64::from(sizes.ring) * PAGE;
        let collectors = lanes_of(alloc, ring, &head.lanes)?;
        Ok(Facts {
            version,
            settled: Seconds {
                micros: settled.number(),
            },
            changes: head.applied,
            first: seconds_of(first),
            last: Seconds {
                micros: head.last.number(),
            },
            pages: Use {
                used: head.fresh,
                of: sizes.pages,
            },
            blocks: Use {
                used: head.block,
                of: sizes.blocks,
            },
            slots: Use {
                used: opened,
                of: SLOTS,
            },
            collectors,
        })
    }
}
