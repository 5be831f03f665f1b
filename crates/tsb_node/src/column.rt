//! Columns: the parts of a past, and in a page the current leaf.

ghost use Rattle.std.specs.Prelude.{◌≡◌, ◌≤◌, ◌<◌, ◌+◌, length, IfSome, IfOk, Some};
ghost use Rattle.std.specs.Prelude.{ℕ, List, slice_index, drop, ◌++◌, Ok};
ghost use Rattle.version_model.specs.declared.part.PartKind.{PartKind as PartKindValue};
ghost use Rattle.version_model.specs.declared.part.Part.{Part as PartValue};
ghost use Rattle.tsb_node.specs.Columns.{ColumnInPage, ColumnInBlock, IsPartEntry, part_kind, part_octets};
ghost use Rattle.tsb_node.specs.Parts.{BeginsAsColumn, BeginsAsOldColumn, BeginsAsWrittenColumn, BeginsAsWrittenOldColumn, IsSpot, IsPartAt};
ghost use Rattle.tsb_node.specs.inner.Spots.{SpotFits, PartFits, scaled_spot, scaled_part_at};
ghost use Rattle.std.specs.Result.{MatchResult};
ghost use Rattle.tsb_node.specs.inner.PartReading.{IsPlaceBefore};

use crate::header::is_stamp_below;
use crate::leaf::{FIRST, LAST, NotANode};
use crate::moments::{floor_stamp, moments_of, part_in_moments, stamp_in_moments};
use crate::numbers::{number2, number8, stamp_at};
use version_model::{Part, PartKind, Stamp};

/// The page of a column's current leaf, and from which stamp on it is.
#[derive(Clone, Copy, Debug)]
pub struct Current {
    pub start: Stamp,
    pub page: u64,
}

/// A part of a column's past, and where it ends.
#[derive(Clone, Copy, Debug)]
pub struct PartAt {
    pub part: Part,
    pub end: Stamp,
}

/// Where a column has its versions at a stamp.
#[derive(Clone, Copy, Debug)]
pub enum Spot {
    InPage(Current),
    InBlock(PartAt),
}

/// How many entries a column may have.
const PLACES: u16 = 649;

/// The kind in the part at a place, or none if there is none of its kind.
fn kind_at(area: &[u8], at: usize) -> Result<PartKind, NotANode>
    requires { at + 25 ≤ length area.now }
    ensures octet { IfOk result (λ kind. slice_index area.now (at + 16) ≡ part_kind kind) }
    ensures kind { (kind : PartKindValue) → slice_index area.now (at + 16) ≡ part_kind kind → result ≡ Ok kind }
{
    match area[at + 16] {
        1 => Ok(PartKind::LeafBlock),
        2 => Ok(PartKind::ColumnBlock),
        _ => Err(NotANode),
    }
}

/// The part at a place.
pub fn part_in(area: &[u8], at: usize) -> Result<Part, NotANode>
    requires { at + 25 ≤ length area.now }
    ensures encoded { IfOk result (λ p. IsPartEntry p × (drop at area.now ≡ part_octets p ++ drop (at + 25) area.now)) }
    ensures part { (p : PartValue) (rest : List ℕ) → IsPartEntry p → drop at area.now ≡ part_octets p ++ rest → result ≡ Ok p }
{
    let Ok(kind) = kind_at(area, at) else {
        return Err(NotANode);
    };
    Ok(Part {
        start: stamp_at(area, at),
        kind,
        block: number8(area, at + 17),
    })
}

/// Of the entries in these octets, the place of the last one that doesn't start after the stamp, or of the first if all do.
fn place_before(area: &[u8], count: u16, stamp: Stamp) -> usize
    requires some { 0 < count }
    requires few { count ≤ 649 }
    requires size { length area.now ≡ 16232 }
    ensures within { result ≤ 16200 }
    ensures place { IsPlaceBefore count area.now stamp result }
{
    let mut first = 0;
    let mut end = count as usize;
    while first + 1 < end {
        let middle = first + (end - first) / 2;
        if is_stamp_below(stamp, stamp_at(area, 25 * middle)) {
            end = middle;
        } else {
            first = middle;
        }
    }
    25 * first
}

// Where the column that begins these octets of a page has its versions at a stamp, all stamps in the column's unit.
fn spot_written(octets: &[u8], stamp: Stamp) -> Result<Spot, NotANode>
    requires size { length octets.now ≡ 16384 }
    ensures spot { (column : ColumnInPage) → BeginsAsWrittenColumn column octets.now → MatchResult result (IsSpot column stamp) (λ e. ⊥) }
{
    let count = number2(octets, 4);
    if count == 0 {
        return Err(NotANode);
    }
    if count > PLACES {
        return Err(NotANode);
    }
    let area = octets.split_at(LAST).0.split_at(FIRST).1;
    let at = place_before(area, count, stamp);
    if at + 25 == 25 * count as usize {
        return Ok(Spot::InPage(Current {
            start: stamp_at(area, at),
            page: number8(area, at + 17),
        }));
    }
    let Ok(part) = part_in(area, at) else {
        return Err(NotANode);
    };
    Ok(Spot::InBlock(PartAt {
        part,
        end: stamp_at(area, at + 25),
    }))
}

// A spot in moments, in a column whose times are k moments each.
fn spot_in_moments(spot: Spot, k: u64) -> Spot
    ensures { SpotFits k spot → result ≡ scaled_spot k spot }
{
    match spot {
        Spot::InPage(current) => Spot::InPage(Current {
            start: stamp_in_moments(current.start, k),
            page: current.page,
        }),
        Spot::InBlock(found) => Spot::InBlock(found_in_moments(found, k)),
    }
}

// A part with its end in moments, in a column whose times are k moments each.
fn found_in_moments(found: PartAt, k: u64) -> PartAt
    ensures { PartFits k found → result ≡ scaled_part_at k found }
{
    PartAt {
        part: part_in_moments(found.part, k),
        end: stamp_in_moments(found.end, k),
    }
}

/// Where the column that begins these octets of a page has its versions at a stamp.
/// Fails only if they aren't a column, but not in every such case.
pub fn spot_for(octets: &[u8], stamp: Stamp) -> Result<Spot, NotANode>
    requires size { length octets.now ≡ 16384 }
    ensures spot { (column : ColumnInPage) → BeginsAsColumn column octets.now → MatchResult result (IsSpot column stamp) (λ e. ⊥) }
{
    let k = moments_of(octets[1]);
    match spot_written(octets, floor_stamp(stamp, k)) {
        Ok(spot) => Ok(spot_in_moments(spot, k)),
        Err(NotANode) => Err(NotANode),
    }
}

// The part of a past in which a stamp lies, as `part_for` returns it, all stamps in the column's unit.
fn part_written(octets: &[u8], end: Stamp, stamp: Stamp) -> Result<PartAt, NotANode>
    requires size { length octets.now ≡ 16384 }
    ensures part { (column : ColumnInBlock) → BeginsAsWrittenOldColumn column octets.now → column.bounds.end ≡ Some end → column.bounds.start ≤ stamp → stamp < end → MatchResult result (IsPartAt column.parts end stamp) (λ e. ⊥) }
{
    let count = number2(octets, 4);
    if count == 0 {
        return Err(NotANode);
    }
    if count > PLACES {
        return Err(NotANode);
    }
    let area = octets.split_at(LAST).0.split_at(FIRST).1;
    let at = place_before(area, count, stamp);
    let Ok(part) = part_in(area, at) else {
        return Err(NotANode);
    };
    if at + 25 == 25 * count as usize {
        return Ok(PartAt { part, end });
    }
    Ok(PartAt {
        part,
        end: stamp_at(area, at + 25),
    })
}

/// The part of a past in which a stamp lies, of the column of a block that ends at a stamp.
/// Fails only if the octets aren't such a column, but not in every such case.
pub fn part_for(octets: &[u8], end: Stamp, stamp: Stamp) -> Result<PartAt, NotANode>
    requires size { length octets.now ≡ 16384 }
    requires before { stamp < end }
    ensures part { (column : ColumnInBlock) → BeginsAsOldColumn column octets.now → column.bounds.end ≡ Some end → column.bounds.start ≤ stamp → MatchResult result (IsPartAt column.parts end stamp) (λ e. ⊥) }
{
    let k = moments_of(octets[1]);
    match part_written(octets, floor_stamp(end, k), floor_stamp(stamp, k)) {
        Ok(found) => Ok(found_in_moments(found, k)),
        Err(NotANode) => Err(NotANode),
    }
}
