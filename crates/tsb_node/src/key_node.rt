//! Key nodes: children by their lowest keys.

ghost use Rattle.std.specs.Prelude.{◌≡◌, ◌≤◌, ◌<◌, length};
ghost use Rattle.tsb_node.specs.KeyNodes.{KeyNodeInPage};
ghost use Rattle.tsb_node.specs.Children.{BeginsAsKeyNode, IsKeyWithin, IsUnder};
ghost use Rattle.tsb_node.specs.inner.ChildReading.{IsChildBefore};
ghost use Rattle.std.specs.Result.{MatchResult};

use crate::header::{high_at, is_key_below};
use crate::leaf::{FIRST, LAST, NotANode};
use crate::numbers::{key_at, number2, number8};
use route_model::Key;

/// A child of a key node, with the keys that it has: from low on and below high.
#[derive(Clone, Copy, Debug)]
pub struct Under {
    pub low: Key,
    pub high: Option<Key>,
    pub page: u64,
}

/// How many children a key node may have.
const CHILDREN: u16 = 338;

/// Of the children in these octets, the place of the last one whose keys begin at or below the key, or of the first if none do.
fn child_before(area: &[u8], count: u16, key: Key) -> usize
    requires some { 0 < count }
    requires few { count ≤ 338 }
    requires size { length area.now ≡ 16232 }
    ensures before { IsChildBefore count area.now key result }
{
    let mut first = 0;
    let mut end = count as usize;
    while first + 1 < end {
        let middle = first + (end - first) / 2;
        if is_key_below(key, key_at(area, 48 * middle)) {
            end = middle;
        } else {
            first = middle;
        }
    }
    first
}

/// The child under which a key lies, of the key node that begins these octets: found by binary search.
/// Fails only if they aren't a key node, but not in every such case.
pub fn child_for(octets: &[u8], key: Key) -> Result<Under, NotANode>
    requires size { length octets.now ≡ 16384 }
    ensures under { (node : KeyNodeInPage) → BeginsAsKeyNode node octets.now → IsKeyWithin node.bounds key → MatchResult result (IsUnder node key) (λ e. ⊥) }
{
    let count = number2(octets, 4);
    if count == 0 {
        return Err(NotANode);
    }
    if count > CHILDREN {
        return Err(NotANode);
    }
    let area = octets.split_at(LAST).0.split_at(FIRST).1;
    let at = child_before(area, count, key);
    let low = key_at(area, 48 * at);
    let page = number8(area, 48 * at + 40);
    if at + 1 == count as usize {
        let high = high_at(octets, 48);
        return Ok(Under { low, high, page });
    }
    let high = Some(key_at(area, 48 * at + 48));
    Ok(Under { low, high, page })
}
