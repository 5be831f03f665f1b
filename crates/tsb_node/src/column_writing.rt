//! Writes columns, whole: they change only if a leaf is split, or if their parts move into a block.

ghost use Rattle.std.specs.Prelude.{List, ℕ, ◌≡◌, ◌≤◌, ◌<◌, ◌+◌, ◌*◌, ◌^◌, [], length, None, IsSome};
ghost use Rattle.std.specs.List.{flat_map, AllByRecursion};
ghost use Rattle.tsb_node.specs.Columns.{CanBeColumn, CanBeOldColumn, IsPartEntry, IsColumnPage, IsColumnBlock, part_kind, part_octets, place_octets};
ghost use Rattle.tsb_node.specs.inner.Laying.{laid, IsFilling};

use crate::column::Current;
use crate::leaf::FIRST;
use crate::numbers::stamp_fits;
use crate::writing::{bounds_fit, eight_octets, put_header, stamp_octets};
use disk_models::{Block, Page, Sheet};
use once_store::seal;
use version_model::{Bounds, Part, PartKind, Stamp};

/// Writes a place of a column into a page or a block: a start, a kind, and a number.
fn put_place<K>(sheet: &mut Sheet<K>, at: usize, start: Stamp, kind: u8, number: u64)
    requires room { at + 25 ≤ 16384 }
    ensures laid { sheet.new ≡ laid at (place_octets start kind number) sheet.old }
    ensures fits { (start < 256 ^ 16) × (number < 256 ^ 8) }
{
    stamp_fits(start);
    let _octets = sheet.octets();
    sheet.put(at, &stamp_octets(start));
    sheet.put(at + 16, &[kind]);
    sheet.put(at + 17, &eight_octets(number));
}

/// 1 for a leaf block, 2 for a column block.
fn octet_of_kind(kind: PartKind) -> u8
    ensures { result ≡ part_kind kind }
{
    match kind {
        PartKind::LeafBlock => 1,
        PartKind::ColumnBlock => 2,
    }
}

/// Writes a part into a page or a block.
fn put_part<K>(sheet: &mut Sheet<K>, at: usize, part: &Part)
    requires room { at + 25 ≤ 16384 }
    ensures laid { sheet.new ≡ laid at (part_octets part.now) sheet.old }
    ensures fits { IsPartEntry part.now }
{
    put_place(sheet, at, part.start, octet_of_kind(part.kind), part.block);
}

/// Writes parts one after another, after the header of a node without entries.
fn put_parts<K>(sheet: &mut Sheet<K>, parts: &[Part])
    requires room { 25 * length parts.now ≤ 16232 }
    ensures fits { AllByRecursion IsPartEntry parts.now }
    ensures filling { (header : List ℕ) → IsFilling header [] sheet.old → IsFilling header (flat_map part_octets parts.now) sheet.new }
{
    let mut at = FIRST;
    for part in parts {
        put_part(sheet, at, part);
        at += 25;
    }
}

/// Writes a column over a page.
pub fn write_column(page: &mut Page, bounds: &Bounds, parts: &[Part], current: Current)
    requires in_page { bounds.now.end ≡ None }
    requires valid { CanBeColumn (record { bounds = bounds.now; parts = parts.now; current = current }) }
    ensures written { IsColumnPage (record { bounds = bounds.now; parts = parts.now; current = current }) page.new }
{
    bounds_fit(bounds);
    let count = parts.len();
    page.clear();
    put_header(
        page,
        2,
        1,
        count as u16 + 1,
        25 * (count as u16 + 1),
        bounds,
    );
    put_parts(page, parts);
    put_place(page, FIRST + 25 * count, current.start, 0, current.page);
}

/// Writes a column whose past is at its end over a block.
pub fn write_old_column(block: &mut Block, bounds: &Bounds, parts: &[Part])
    requires in_block { IsSome bounds.now.end }
    requires valid { CanBeOldColumn (record { bounds = bounds.now; parts = parts.now }) }
    ensures written { IsColumnBlock (record { bounds = bounds.now; parts = parts.now }) block.new }
{
    bounds_fit(bounds);
    let count = parts.len();
    block.clear();
    put_header(block, 2, 1, count as u16, 25 * count as u16, bounds);
    put_parts(block, parts);
    seal(block);
}
