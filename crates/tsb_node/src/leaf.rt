//! Leaves.

ghost use Rattle.std.specs.Prelude.{None, []};
ghost use Rattle.tsb_node.specs.Nodes.{AreInOrder};
ghost use Rattle.tsb_node.specs.Children.{IsKeyWithin};
ghost use Rattle.version_model.specs.Versions.{IsAbove};
ghost use Rattle.tsb_node.specs.Pushing.{version, PushedTo, StaysUnlessPushed};
ghost use Rattle.std.specs.Prelude.{◌≡◌, ◌≤◌, ◌+◌, length, option_map, IfSome, IfNone, IfOk, IfErr};
ghost use Rattle.tsb_node.specs.Leaves.{LeafNode, BeginsAsLeaf, BeginsAsWrittenLeaf, IsLeafPage, value_encoded};
ghost use Rattle.tsb_node.specs.inner.Fresh.{IsFreshLeafPage};
ghost use Rattle.tsb_node.specs.Finding.{Finds};
ghost use Rattle.std.specs.Result.{MatchResult};
ghost use Rattle.tsb_node.specs.inner.Scanning.{IsLast, IsBroken, IsWholeVersion};
ghost use Rattle.tsb_node.specs.inner.Reading.{value_size, version_in, versions_in};

use crate::leaf_splitting::copy_whole;
use crate::moments::{floor_stamp, is_now, moments_of, stamp_in_moments};
use crate::numbers::{key_at, key_fits, number2, stamp_at, stamp_fits};
use crate::writing::{bounds_fit, octets_in, put_entry, put_header, two_octets};
use disk_models::{PAGE_SIZE, Page, Sheet};
use route_model::Key;
use std::marker::Model;
use version_model::{Bounds, Stamp};

/// The octets of a value, borrowed from those of a node.
#[derive(Debug, Drop)]
pub struct Value<'a> {
    octets: &'a [u8],
}

impl<'a> Model for Value<'a> {
    ghost use Rattle.std.specs.Prelude.{ℕ, List};

    ghost Value = { List ℕ };

    ghost view = { λ v. v.octets.now };
}

impl<'a> Value<'a> {
    ghost use Rattle.std.specs.Prelude.{◌≡◌};

    /// These octets.
    pub fn new(octets: &'a [u8]) -> Value<'a>
        ensures octets { result ≡ octets.now }
    {
        Value { octets }
    }

    /// The octets.
    pub fn as_slice(&self) -> &'a [u8]
        ensures octets { result.now ≡ self.now }
    {
        self.octets
    }
}

/// The octets aren't a node of the expected kind.
#[derive(Clone, Copy, Debug, PartialEq, Eq)]
pub struct NotANode;

/// What a key has at a stamp: the value, or none if it has ended, and the stamp from which on that is so.
#[derive(Debug, Drop)]
pub struct FoundVersion<'a> {
    pub stamp: Stamp,
    pub value: Option<Value<'a>>,
}

/// Where the entries of a node begin.
pub const FIRST: usize = 120;

/// Where the room for the entries of a node ends.
pub const LAST: usize = 16_352;

/// How many octets the entry at the front takes, if it's whole.
pub fn entry_size(bytes: &[u8]) -> Option<usize>
    ensures found { IfSome result (λ n. (n ≡ 59 + value_size bytes.now) × IsWholeVersion bytes.now) }
    ensures none { IfNone result (IsWholeVersion bytes.now → ⊥) }
{
    if bytes.len() < 59 {
        return None;
    }
    let size = 59 + number2(bytes, 57) as usize;
    if bytes.len() < size {
        return None;
    }
    Some(size)
}

/// The last of `count` entries that is of the key and not after the stamp, with all that follows it.
fn last_of<'a>(
    area: &'a [u8],
    count: u16,
    key: Key,
    stamp: Stamp,
) -> Result<Option<Value<'a>>, NotANode>
    ensures last { IfOk result (IsLast (versions_in count area.now) area.now key stamp count) }
    ensures broken { IfErr result (λ e. IsBroken area.now count) }
{
    let mut rest = area;
    let mut best: Option<Value<'a>> = None;
    for _ in 0..count {
        let Some(size) = entry_size(rest) else {
            return Err(NotANode);
        };
        if key_at(rest, 0) == key && stamp_at(rest, 40) <= stamp {
            best = Some(Value::new(rest));
        }
        rest = rest.split_at(size).1;
    }
    Ok(best)
}

/// What the entry at the front represents.
fn found_at<'a>(bytes: &'a [u8]) -> FoundVersion<'a>
    requires { IsWholeVersion bytes.now }
    ensures stamp { result.stamp ≡ (version_in bytes.now).stamp }
    ensures value { result.value ≡ (version_in bytes.now).value }
{
    let size = number2(bytes, 57) as usize;
    let value = if bytes[56] == 0 {
        None
    } else {
        Some(Value::new(bytes.split_at(59).1.split_at(size).0))
    };
    FoundVersion {
        stamp: stamp_at(bytes, 40),
        value,
    }
}

/// What the leaf that begins these octets has for a key at a stamp, all stamps in the leaf's unit.
pub fn find_written<'a>(
    octets: &'a [u8],
    key: Key,
    stamp: Stamp,
) -> Result<Option<FoundVersion<'a>>, NotANode>
    requires size { length octets.now ≡ 16384 }
    ensures found { (leaf : LeafNode) → BeginsAsWrittenLeaf leaf octets.now → MatchResult result (Finds leaf.versions key stamp) (λ e. ⊥) }
{
    let count = number2(octets, 4);
    let area = octets.split_at(LAST).0.split_at(FIRST).1;
    match last_of(area, count, key, stamp)? {
        Some(rest) => Ok(Some(found_at(rest.as_slice()))),
        None => Ok(None),
    }
}

/// What the leaf that begins these octets, a page's or a block's, has for a key at a stamp.
/// Fails only if they aren't a leaf, but not in every such case.
pub fn find<'a>(
    octets: &'a [u8],
    key: Key,
    stamp: Stamp,
) -> Result<Option<FoundVersion<'a>>, NotANode>
    requires size { length octets.now ≡ 16384 }
    ensures found { (leaf : LeafNode) → BeginsAsLeaf leaf octets.now → MatchResult result (Finds leaf.versions key stamp) (λ e. ⊥) }
{
    let k = moments_of(octets[1]);
    let Some(found) = find_written(octets, key, floor_stamp(stamp, k))? else {
        return Ok(None);
    };
    Ok(Some(FoundVersion {
        stamp: stamp_in_moments(found.stamp, k),
        value: found.value,
    }))
}

/// How many octets the entries of a leaf may fill.
pub const ROOM: usize = 16_232;

/// Appends a version as [`push`] does, to a leaf in the unit in which nodes are written.
fn push_written(
    page: &mut Page,
    key: Key,
    stamp: Stamp,
    value: Option<&[u8]>,
) -> Result<bool, NotANode>
    requires short { length (value_encoded (option_map (λ x. x.now) value)) ≤ 3072 }
    ensures pushed { (leaf : LeafNode) → IsFreshLeafPage leaf page.old → IsKeyWithin leaf.bounds key → IsAbove leaf.versions stamp
        → PushedTo leaf (version key stamp (option_map (λ x. x.now) value.entry)) page.new result }
    ensures stays { StaysUnlessPushed page.old page.new result }
{
    key_fits(key);
    stamp_fits(stamp);
    let count = number2(page.octets(), 4);
    let used = number2(page.octets(), 6) as usize;
    let size = 59 + octets_in(value).len();
    if ROOM < used + size {
        return Ok(false);
    }
    if count == u16::MAX {
        return Err(NotANode);
    }
    put_entry(page, FIRST + used, key, stamp, value);
    page.put(4, &two_octets(count + 1));
    page.put(6, &two_octets((used + size) as u16));
    Ok(true)
}

// Appends a version as `push` does, to a leaf whose octets these are, of another unit: the page is written anew in this one.
fn push_anew(
    page: &mut Page,
    octets: &[u8],
    key: Key,
    stamp: Stamp,
    value: Option<&[u8]>,
) -> Result<bool, NotANode>
    requires size { length octets.now ≡ 16384 }
    requires short { length (value_encoded (option_map (λ x. x.now) value)) ≤ 3072 }
    ensures pushed { (leaf : LeafNode) → BeginsAsLeaf leaf octets.now → leaf.bounds.end ≡ None → IsKeyWithin leaf.bounds key → IsAbove leaf.versions stamp
        → PushedTo leaf (version key stamp (option_map (λ x. x.now) value.entry)) page.new result }
{
    copy_whole(octets, page)?;
    push_written(page, key, stamp, value)
}

// Writes all octets of a page.
fn put_back(page: &mut Page, octets: &[u8])
    requires size { length octets.now ≡ 16384 }
    ensures { page.new ≡ octets.now }
{
    let _old = page.octets();
    page.put(0, octets);
}

// Appends a version as `push` does, to a leaf of another unit.
fn push_other(
    page: &mut Page,
    key: Key,
    stamp: Stamp,
    value: Option<&[u8]>,
) -> Result<bool, NotANode>
    requires short { length (value_encoded (option_map (λ x. x.now) value)) ≤ 3072 }
    ensures pushed { (leaf : LeafNode) → IsLeafPage leaf page.old → IsKeyWithin leaf.bounds key → IsAbove leaf.versions stamp
        → PushedTo leaf (version key stamp (option_map (λ x. x.now) value.entry)) page.new result }
    ensures stays { StaysUnlessPushed page.old page.new result }
{
    let mut octets = [0u8; PAGE_SIZE];
    octets.copy_from_slice(page.octets());
    match push_anew(page, &octets, key, stamp, value) {
        Ok(true) => Ok(true),
        Ok(false) => {
            put_back(page, &octets);
            Ok(false)
        }
        Err(NotANode) => {
            put_back(page, &octets);
            Err(NotANode)
        }
    }
}

/// Appends a version of a key of the leaf in this page, later than all of its versions, if there is room for it, and returns whether
/// there was. Fails only if the page isn't a leaf, but not in every such case. If nothing was written the page is as it was. A leaf of
/// another unit is written anew in the one in which nodes are written.
pub fn push(page: &mut Page, key: Key, stamp: Stamp, value: Option<&[u8]>) -> Result<bool, NotANode>
    requires short { length (value_encoded (option_map (λ x. x.now) value)) ≤ 3072 }
    ensures pushed { (leaf : LeafNode) → IsLeafPage leaf page.old → IsKeyWithin leaf.bounds key → IsAbove leaf.versions stamp
        → PushedTo leaf (version key stamp (option_map (λ x. x.now) value.entry)) page.new result }
    ensures stays { StaysUnlessPushed page.old page.new result }
{
    if is_now(page.octets()[1]) {
        return push_written(page, key, stamp, value);
    }
    push_other(page, key, stamp, value)
}

/// Writes a leaf without versions over a page, or over a block that gets its end later.
pub fn start<K>(sheet: &mut Sheet<K>, bounds: &Bounds)
    requires valid { AreInOrder bounds.now }
    requires current { bounds.now.end ≡ None }
    ensures { IsFreshLeafPage (record { bounds = bounds.now; versions = [] }) sheet.new }
{
    bounds_fit(bounds);
    sheet.clear();
    put_header(sheet, 1, 0, 0, 0, bounds);
}

/// Writes a leaf without versions over a page.
pub fn start_leaf(page: &mut Page, bounds: &Bounds)
    requires valid { AreInOrder bounds.now }
    requires current { bounds.now.end ≡ None }
    ensures { IsLeafPage (record { bounds = bounds.now; versions = [] }) page.new }
{
    start(page, bounds);
}
