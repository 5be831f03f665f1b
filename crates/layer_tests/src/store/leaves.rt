//! A small set of versions, split in all ways: each look beside a plain scan of the table.

ghost use Rattle.std.specs.Prelude.{◌≤◌, ◌*◌, IfOk, length};
ghost use Rattle.version_model.specs.Entries.{version_of};
ghost use Rattle.version_model.specs.Sizes.{entry_octets, octets};

use crate::{be, be_at};
use route_model::Key;
use std::alloc::{AllocError, Global};
use version_model::{Entry, Leaf, Stamp};

/// A version: the last octet of its key, its number among stamps, and a value of one octet or an end.
type Row = (u8, u64, Option<u8>);

/// Keys 2, 4 and 6. Key 2 ends and begins again; key 4 is overtaken; key 6 ends twice.
const TABLE: [Row; 9] = [
    (2, 1, Some(10)),
    (4, 2, Some(20)),
    (2, 3, None),
    (6, 4, Some(30)),
    (2, 5, Some(11)),
    (4, 6, Some(21)),
    (6, 7, None),
    (6, 8, None),
    (2, 9, Some(12)),
];

/// Above all keys, and above all stamps, of the table.
const KEYS: u8 = 8;

const STAMPS: u64 = 11;

fn key_of(last: u8) -> Key {
    let mut octets = [0u8; 40];
    octets[39] = last;
    Key::from_octets(&octets)
}

/// Two stamps to a second, so that both words count.
fn stamp_of(number: u64) -> Stamp {
    Stamp::new(number / 2, number % 2)
}

/// A value of one octet, or an end.
fn entry_of(alloc: Global, row: Row) -> Result<Entry, AllocError>
    ensures { IfOk result (λ entry. entry_octets (version_of entry) ≤ 60) }
{
    let value = match row.2 {
        Some(octet) => {
            let mut value = Vec::new(alloc);
            value.push(octet)?;
            Some(value)
        }
        None => None,
    };
    Ok(Entry {
        key: key_of(row.0),
        stamp: stamp_of(row.1),
        value,
    })
}

/// The leaf of these rows, whose stamps have to rise.
fn leaf_of(alloc: Global, rows: &[Row]) -> Result<Leaf, AllocError>
    ensures { IfOk result (λ leaf. octets leaf ≤ 60 * length rows.now) }
{
    let mut leaf = Leaf::new(alloc);
    for row in rows {
        let entry = entry_of(alloc, *row)?;
        if !leaf.is_before(entry.stamp) {
            return Err(AllocError);
        }
        leaf.insert(entry)?;
    }
    Ok(leaf)
}

/// The leaf of the table.
fn table(alloc: Global) -> Option<Leaf> {
    leaf_of(alloc, &TABLE).ok()
}

/// What the table's key has at the stamp: the last row that is not after it, where that is a value.
fn scan(key: u8, stamp: u64) -> Option<(Stamp, u8)> {
    let mut last = None;
    for row in &TABLE {
        if row.0 == key && row.1 <= stamp {
            last = row.2.map(|octet| (stamp_of(row.1), octet));
        }
    }
    last
}

/// What the leaf's key has at the stamp.
fn looked_up(leaf: &Leaf, key: u8, stamp: u64) -> Option<(Stamp, u8)> {
    match leaf.find(key_of(key), stamp_of(stamp)) {
        Some((since, value)) => Some((since, value.first().copied().unwrap_or(0))),
        None => None,
    }
}

/// Whether the leaf has what a scan finds of the key at each of these stamps.
fn is_found(leaf: &Leaf, key: u8, from: u64, to: u64) -> bool {
    for stamp in from..to {
        if looked_up(leaf, key, stamp) != scan(key, stamp) {
            return false;
        }
    }
    true
}

/// Whether both sides of a key split have it, from a stamp on.
fn is_found_by_key(alloc: Global, leaf: &Leaf, at: u8, from: u64) -> Option<bool> {
    let (left, right) = leaf.split_key(alloc, key_of(at)).ok()?;
    for key in 0..KEYS {
        let is_right = if key < at {
            is_found(&left, key, from, STAMPS)
        } else {
            is_found(&right, key, from, STAMPS)
        };
        if !is_right {
            return Some(false);
        }
    }
    Some(left.len().checked_add(right.len()) == Some(leaf.len()))
}

/// Copies of the versions before the stamp.
fn before(alloc: Global, leaf: &Leaf, at: u64) -> Option<Vec<Entry>> {
    let mut before = Vec::new(alloc);
    for entry in leaf.entries() {
        if entry.stamp < stamp_of(at) {
            before.push(entry.copy().ok()?).ok()?;
        }
    }
    Some(before)
}

/// The older side of a time split: the versions before the stamp.
fn older_side(alloc: Global, leaf: &Leaf, at: u64) -> Option<Leaf> {
    Leaf::of(before(alloc, leaf, at)?, 540)
}

/// The newer side.
fn newer_side(alloc: Global, leaf: &Leaf, at: u64) -> Option<Leaf> {
    leaf.since(alloc, stamp_of(at)).ok()
}

/// Whether both sides of a time split have it, the newer one split by each key.
fn is_found_by_time(alloc: Global, leaf: &Leaf, at: u64) -> Option<bool> {
    let older = older_side(alloc, leaf, at)?;
    let newer = newer_side(alloc, leaf, at)?;
    for key in 0..KEYS {
        let sides = is_found(leaf, key, 0, at)
            && is_found(&older, key, 0, at)
            && is_found(&newer, key, at, STAMPS);
        if !sides || !is_found_by_key(alloc, &newer, key, at)? {
            return Some(false);
        }
    }
    Some(true)
}

#[test]
fn each_look_up_after_each_split(rt: HostRuntime) {
    let leaf = table(rt.alloc()).expect(&rt, "a leaf");
    for at in 0..STAMPS {
        be_at(
            &rt,
            is_found_by_time(rt.alloc(), &leaf, at) == Some(true),
            "a time split",
            at,
        );
    }
}

/// The least key from `from` on that a scan finds at the stamp.
fn next_by_scan(from: u8, stamp: u64) -> Option<Key> {
    let key = (from..KEYS).find(|key| scan(*key, stamp).is_some())?;
    Some(key_of(key))
}

/// Whether each next key at the stamp is found, of the leaf and of what goes on after a split at that stamp.
fn are_next_keys(alloc: Global, leaf: &Leaf, stamp: u64) -> Option<bool> {
    let newer = newer_side(alloc, leaf, stamp)?;
    for from in 0..KEYS {
        let expected = next_by_scan(from, stamp);
        if leaf.least_live(key_of(from), stamp_of(stamp)) != expected
            || newer.least_live(key_of(from), stamp_of(stamp)) != expected
        {
            return Some(false);
        }
    }
    Some(true)
}

#[test]
fn each_next_key(rt: HostRuntime) {
    let leaf = table(rt.alloc()).expect(&rt, "a leaf");
    for stamp in 0..STAMPS {
        be_at(
            &rt,
            are_next_keys(rt.alloc(), &leaf, stamp) == Some(true),
            "next keys",
            stamp,
        );
    }
}

/// A key, from when on and before when its versions are asked for, and their stamps.
const PARTS: [(u8, u64, Option<u64>, &[u64]); 6] = [
    (2, 0, None, &[1, 3, 5, 9]),
    (2, 3, Some(9), &[3, 5]),
    (2, 10, None, &[]),
    (6, 4, Some(8), &[4, 7]),
    (6, 5, None, &[7, 8]),
    (3, 0, None, &[]),
];

/// Whether these are the stamps of entries.
fn are_stamps(entries: &[Entry], stamps: &[u64]) -> bool {
    entries.len() == stamps.len()
        && entries
            .iter()
            .zip(stamps.iter())
            .all(|(entry, stamp)| entry.stamp == stamp_of(*stamp))
}

/// Whether a key has versions of these stamps.
fn is_part(
    alloc: Global,
    leaf: &Leaf,
    key: u8,
    from: u64,
    end: Option<u64>,
    stamps: &[u64],
) -> bool {
    match leaf.part(alloc, key_of(key), stamp_of(from), end.map(stamp_of)) {
        Ok(part) => are_stamps(&part, stamps),
        Err(_) => false,
    }
}

#[test]
fn parts_of_a_key(rt: HostRuntime) {
    let leaf = table(rt.alloc()).expect(&rt, "a leaf");
    for (key, from, end, stamps) in &PARTS {
        let is_part = is_part(rt.alloc(), &leaf, *key, *from, *end, *stamps);
        be_at(&rt, is_part, "a part of a key", *from);
    }
}

/// How many octets have to be on the lower side at least, and the key of the split. Below key 4 are three values and an
/// end, below key 6 two values more.
const SPLITS: [(u64, Option<u8>); 5] = [
    (0, Some(2)),
    (239, Some(4)),
    (240, Some(6)),
    (359, Some(6)),
    (360, None),
];

/// The octets of the table's leaf.
fn octets_of_table(alloc: Global) -> Option<u64> {
    let Ok(leaf) = leaf_of(alloc, TABLE.as_slice()) else {
        return None;
    };
    Some(leaf.octets())
}

/// Whether the table's leaf is split at this key for `least` octets.
fn is_split_at(alloc: Global, least: u64, key: Option<u8>) -> bool {
    let Ok(leaf) = leaf_of(alloc, TABLE.as_slice()) else {
        return false;
    };
    leaf.split_point(least) == key.map(key_of)
}

// Worked out by hand: an entry has 40 octets of key, 16 of stamp, 1 that marks it as a value or an end, 2 of length,
// and its value.
#[test]
fn sizes(rt: HostRuntime) {
    let octets = octets_of_table(rt.alloc());
    be(&rt, octets == Some(6 * 60 + 3 * 59), "all octets");
    for (least, key) in &SPLITS {
        be_at(
            &rt,
            is_split_at(rt.alloc(), *least, *key),
            "a split",
            *least,
        );
    }
}

/// A stamp, how many versions stay before a time split there, and how many go on after it, worked out by hand: those from the stamp on,
/// and each value as of it.
const SIDES: [(u64, usize, usize); 11] = [
    (0, 0, 9),
    (1, 0, 9),
    (2, 1, 9),
    (3, 2, 8),
    (4, 3, 7),
    (5, 4, 7),
    (6, 5, 6),
    (7, 6, 5),
    (8, 7, 4),
    (9, 8, 2),
    (10, 9, 2),
];

/// Whether a time split puts `before` versions on the older side and `count` on the newer one.
fn are_sides(alloc: Global, leaf: &Leaf, at: u64, before: usize, count: usize) -> Option<bool> {
    let older = older_side(alloc, leaf, at)?;
    let newer = newer_side(alloc, leaf, at)?;
    Some(older.len() == before && newer.len() == count && newer.entries().len() == count)
}

#[test]
fn what_goes_on_after_a_time_split(rt: HostRuntime) {
    let alloc = rt.alloc();
    let leaf = table(alloc).expect(&rt, "a leaf");
    for (at, before, count) in &SIDES {
        let are_sides = are_sides(alloc, &leaf, *at, *before, *count) == Some(true);
        be_at(&rt, are_sides, "a time split", *at);
    }
    be(&rt, Leaf::new(alloc).is_empty(), "a leaf without versions");
    let copy = leaf.copy(alloc).expect(&rt, "a copy");
    be(&rt, copy.len() == 9, "a copy");
}

/// Rows, how many octets there is room for, and how many versions their leaf has; none where they make no leaf, since a
/// leaf has rising stamps, and no more octets than there is room for: a value of one octet takes 60, an end 59.
const LEAVES: [(&[Row], u64, Option<usize>); 6] = [
    (&[], 0, Some(0)),
    (&[(2, 1, Some(10)), (2, 2, None)], 119, Some(2)),
    (&[(2, 1, Some(10)), (2, 2, None)], 118, None),
    (&[(2, 1, None), (4, 1, None)], 500, None),
    (&[(2, 3, None), (4, 2, None)], 500, None),
    (&[(2, 1, None), (4, 3, None), (6, 2, None)], 500, None),
];

/// The entries of these rows.
fn entries_of(alloc: Global, rows: &[Row]) -> Option<Vec<Entry>> {
    let mut entries = Vec::new(alloc);
    for row in rows {
        entries.push(entry_of(alloc, *row).ok()?).ok()?;
    }
    Some(entries)
}

/// Whether the leaf of these rows has `count` versions.
fn is_leaf(alloc: Global, rows: &[Row], room: u64, count: Option<usize>) -> Option<bool> {
    Some(match Leaf::of(entries_of(alloc, rows)?, room) {
        Some(leaf) => Some(leaf.len()) == count,
        None => count == None,
    })
}

#[test]
fn leaves_of_entries(rt: HostRuntime) {
    for (n, (rows, room, count)) in LEAVES.iter().enumerate() {
        let is_leaf = is_leaf(rt.alloc(), *rows, *room, *count) == Some(true);
        be_at(&rt, is_leaf, "a leaf", n as u64);
    }
}
