//! Answers that lie in blocks.

use crate::asking::ask;
use crate::be;
use crate::made::{Made, Reader, made, reader_of};
use crate::said::{moment_of, peer_of, prefix_of, route_of};
use disk_archive::Step;
use route_model::{Admission, Change, Mark};
use std::alloc::Global;

// How many seconds the history has. At each of them a route takes the place of the one before.
const SECONDS: u32 = 60;

// Applies all that may be applied. None where that failed.
fn apply_all(archive: &mut Made) -> Option<()> {
    for _ in 0..1_000u32 {
        if archive.apply_step().ok()? == Step::Idle {
            return Some(());
        }
    }
    None
}

// A record of one peer, which announces 10.1.0.0/16. A route has its second as its MED.
fn announcement(alloc: Global, second: u32) -> Option<Admission> {
    let route = route_of(alloc, second)?;
    let change = Change::Announce(peer_of(0, 65001), prefix_of(1, 0, 16), route);
    let mut changes = Vec::new(alloc);
    changes.push(change).ok()?;
    Admission::new(moment_of(second), changes).ok()
}

// Gives and applies the record of a second. None where that failed.
fn announce(alloc: Global, archive: &mut Made, second: u32) -> Option<()> {
    let admission = announcement(alloc, second)?;
    archive.admit(0, &[admission]).ok()?;
    archive
        .mark(0, Mark::at(moment_of(second.saturating_add(1))))
        .ok()?;
    apply_all(archive)
}

// An archive to which the record of each second was given.
fn announced(alloc: Global) -> Option<Made> {
    let mut archive = made(alloc, 1)?;
    for second in 0..SECONDS {
        announce(alloc, &mut archive, second)?;
    }
    Some(archive)
}

// Whether the field of this number of each line, with a space after each, is this text.
fn has_fields(alloc: Global, lines: &str, number: usize, expected: &str) -> Option<bool> {
    let mut fields = String::new(alloc);
    for line in lines.lines() {
        fields
            .push_str(line.split('|').nth(number).unwrap_or("-"))
            .ok()?;
        fields.push(' ').ok()?;
    }
    Some(fields.as_str() == expected)
}

// Whether the route that is answered at a second has the MED of the one that was announced at it.
fn is_reported(
    alloc: Global,
    archive: &mut Made,
    reader: &mut Reader,
    second: u32,
) -> Option<bool> {
    let line = format!(in alloc; "at {second} route 0 192.0.2.1 65001 10.1.0.0/16").ok()?;
    let reported = ask(alloc, archive, reader, &line)?;
    let expected = format!(in alloc; "{second} - ").ok()?;
    has_fields(alloc, &reported, 8, &expected)
}

// Backwards, so that a reader of one block has another one than it is asked for.
fn are_reported(alloc: Global, archive: &mut Made, reader: &mut Reader) -> bool {
    for back in 0..SECONDS {
        if is_reported(alloc, archive, reader, SECONDS - 1 - back) != Some(true) {
            return false;
        }
    }
    true
}

// Whether the history is returned from a second on, up to a second.
fn is_history_reported(alloc: Global, archive: &mut Made, reader: &mut Reader) -> Option<bool> {
    let line = "history 3 58 0 192.0.2.1 65001 10.1.0.0/16 skip 54";
    let reported = ask(alloc, archive, reader, line)?;
    Some(
        has_fields(alloc, &reported, 1, "57 58 2 ")?
            && has_fields(alloc, &reported, 5, "57 58 - ")?,
    )
}

// Whether all is answered through a reader that keeps `capacity` blocks. Of the 60 routes a leaf has room for 15 or 16.
fn is_read_by(alloc: Global, archive: &mut Made, capacity: usize) -> Option<bool> {
    let mut reader = reader_of(archive, capacity)?;
    let are_reported = are_reported(alloc, archive, &mut reader);
    let has_kept = reader.kept() >= capacity.min(2);
    Some(are_reported && has_kept && is_history_reported(alloc, archive, &mut reader)?)
}

#[test]
fn what_was_said_long_ago_is_read_in_blocks(rt: HostRuntime) {
    let mut archive = announced(rt.alloc()).expect(&rt, "an archive");
    let by_one = is_read_by(rt.alloc(), &mut archive, 1);
    be(&rt, by_one == Some(true), "a reader of one block");
    let by_many = is_read_by(rt.alloc(), &mut archive, 1_024);
    be(&rt, by_many == Some(true), "a reader of 1,024 blocks");
}
