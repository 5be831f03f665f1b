//! Writes key nodes, whole: they change only if a child becomes two.

ghost use Rattle.std.specs.Prelude.{◌≡◌, None};
ghost use Rattle.tsb_node.specs.KeyNodes.{CanBeKeyNode, IsKeyNodePage};

use crate::leaf::FIRST;
use crate::numbers::key_fits;
use crate::writing::{bounds_fit, eight_octets, key_octets, put_header};
use disk_models::Page;
use version_model::{Bounds, Child};

/// Writes a key node over a page.
pub fn write_key_node(page: &mut Page, level: u8, bounds: &Bounds, children: &[Child])
    requires current { bounds.now.end ≡ None }
    requires valid { CanBeKeyNode (record { level = level; bounds = bounds.now; children = children.now }) }
    ensures { IsKeyNodePage (record { level = level; bounds = bounds.now; children = children.now }) page.new }
{
    bounds_fit(bounds);
    let count = children.len();
    page.clear();
    put_header(page, 3, level, count as u16, 48 * count as u16, bounds);
    let mut at = FIRST;
    for child in children {
        key_fits(child.low);
        page.put(at, &key_octets(child.low));
        page.put(at + 40, &eight_octets(child.page));
        at += 48;
    }
}
