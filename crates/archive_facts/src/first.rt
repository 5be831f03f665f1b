//! The first change of an archive.
//!
//! No page has its time: the head has that of the last change alone. But changes are numbered from 0 on, a version keeps the number of
//! its change, and a leaf has its versions in the order of these numbers. So the leaves that have the first change begin with it, and
//! the first octets of each leaf show whether it is one.

ghost use Rattle.std.specs.Prelude.{ℕ, IfSome, IfNone};
ghost use Rattle.archive_facts.specs.First.{IsFirstTime};

use route_model::octets::{u16_at, u64_at};
use route_model::{Moment, Unit};

/// How many octets of a node show it: its header, and the key and the stamp of its first entry (docs/FORMATS.md).
pub const FIRST_LEN: usize = 176;

/// The time of an archive's first change, if these are the first octets of a leaf that begins with it; in microseconds since 1970.
pub fn first_change(octets: &[u8; FIRST_LEN]) -> Option<u64>
    ensures first { IfSome result (IsFirstTime octets.now) }
    ensures none { IfNone result ((time : ℕ) → IsFirstTime octets.now time → ⊥) }
{
    if octets[0] != 1 || u16_at(octets, 4) == 0 || u64_at(octets, 168) != 0 {
        return None;
    }
    let unit = Unit::of(octets[1])?;
    let time = u64_at(octets, 160).checked_mul(unit.moments())?;
    Some(Moment::new(time)?.number())
}
