//! What is at the front of octets of a stream: a record, a part of one, or a Length above the limit.

ghost use Rattle.std.specs.Prelude.{◌≡◌, ◌↔◌, IsTrue};
ghost use Rattle.mrt_records.specs.Records.{Over};
ghost use Rattle.mrt_records.specs.inner.Front.{IsFront};

use route_model::octets::u32_at;

/// How many octets the header of a record has (RFC 6396 section 2).
pub(crate) const HEADER: usize = 12;

/// The greatest Length of a record.
pub(crate) const LIMIT: u32 = 131_072;

/// What is at the front of octets.
#[derive(Clone, Copy)]
pub(crate) enum Front {
    /// Too few octets for a record.
    Part,
    /// A record of this many octets.
    Whole(usize),
    /// A header whose Length is above the limit.
    Over,
}

/// What is at the front of these octets. A record has (RFC 6396 section 2):
///
/// 1. The timestamp, four octets.
/// 2. The type and the subtype, two octets each.
/// 3. The length of the rest, four octets: at most the limit.
/// 4. As many octets.
pub(crate) fn front_of(bytes: &[u8]) -> Front
    ensures { IsFront bytes.now result }
{
    if bytes.len() < HEADER {
        return Front::Part;
    }
    let len = u32_at(bytes, 8);
    if len > LIMIT {
        return Front::Over;
    }
    let whole = HEADER + len as usize;
    if bytes.len() < whole {
        Front::Part
    } else {
        Front::Whole(whole)
    }
}

/// Whether a header whose Length is above the limit is at the front.
pub(crate) fn is_over(bytes: &[u8]) -> bool
    ensures { IsTrue result ↔ Over bytes.now }
{
    bytes.len() >= HEADER && u32_at(bytes, 8) > LIMIT
}
