//! How much of an archive on disks is used.

ghost use Rattle.std.specs.Prelude.{IfOk, IfSome};
ghost use Rattle.board.specs.Past.{Past};
ghost use Rattle.query_threads.specs.Usages.{AreLanes};
ghost use Rattle.shared_archive.specs.Represented.{RepresentsPast};

use disk_archive::Archive;
use disk_models::{EraseDisk, OnceDisk, PAGE_SIZE};
use query_threads::{Lane, Room, Usage};
use std::alloc::{AllocError, Global};

// What is known of each collector.
fn lanes_of<E: EraseDisk + Drop, O: OnceDisk + Drop>(
    alloc: Global,
    archive: &Archive<E, O>,
) -> Result<Vec<Lane>, AllocError>
    ensures lanes { (p : Past) → RepresentsPast archive.now p → IfOk result (λ lanes. AreLanes lanes.items p.history) }
{
    let of = u64::from(archive.ring()) * PAGE_SIZE as u64;
    let mut lanes = Vec::new(alloc);
    for collector in 0..archive.collectors() {
        let used = archive.head().lanes[usize::from(collector)].used;
        lanes.push(Lane {
            resume: archive.resume(collector),
            ring: Room { used, of },
        })?;
    }
    Ok(lanes)
}

/// How much of an archive is used, if memory is left for the report.
pub(crate) fn usage_of<E: EraseDisk + Drop, O: OnceDisk + Drop>(
    alloc: Global,
    archive: &Archive<E, O>,
) -> Option<Usage>
    ensures lanes { (p : Past) → RepresentsPast archive.now p → IfSome result (λ usage. AreLanes usage.lanes.items p.history) }
{
    let Ok(lanes) = lanes_of(alloc, archive) else {
        return None;
    };
    let head = archive.head();
    Some(Usage {
        changes: head.applied,
        last: head.last,
        pages: Room {
            used: head.fresh,
            of: archive.pages(),
        },
        blocks: Room {
            used: head.block,
            of: archive.blocks(),
        },
        lanes,
    })
}
