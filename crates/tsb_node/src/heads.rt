//! Reads the headers of nodes alone. A walk through a tree goes on by the header, and doesn't read the entries that it doesn't
//! need: if octets are a node, its header is returned, in moments; of other octets nothing is promised but that their unit is known.

ghost use Rattle.std.specs.Prelude.{◌≡◌, ◌≤◌, length, slice_index, IfOk, IsErr, Ok};
ghost use Rattle.tsb_node.specs.Leaves.{LeafNode, BeginsAsLeaf};
ghost use Rattle.tsb_node.specs.Columns.{ColumnInPage, ColumnInBlock};
ghost use Rattle.tsb_node.specs.Parts.{BeginsAsColumn, BeginsAsOldColumn};
ghost use Rattle.tsb_node.specs.KeyNodes.{KeyNodeInPage};
ghost use Rattle.tsb_node.specs.Children.{BeginsAsKeyNode};
ghost use Rattle.route_model.specs.Units.{moments_in};
ghost use Rattle.tsb_node.specs.Nodes.{IsBounds, AreInOrder};
ghost use Rattle.tsb_node.specs.Scaling.{scaled_bounds, IsKnownUnit};
ghost use Rattle.tsb_node.specs.Headers.{HasHeader};
ghost use Rattle.tsb_node.specs.declared.header.Header.{Header as HeaderValue};

use crate::decoded_key_node::is_of_key_nodes;
use crate::header::{is_of_kind, read_header};
use crate::leaf::NotANode;
use crate::moments::{bounds_in_moments, is_known, moments_of};
use version_model::Bounds;

/// What a key node has before its children: its level, 2 to 7, and its bounds.
#[derive(Clone, Copy, Debug)]
pub struct KeyNodeHead {
    pub level: u8,
    pub bounds: Bounds,
}

/// The level and the bounds of the key node that begins these octets. Fails if they are a column; else only if they aren't a key
/// node, but not in every such case.
pub fn key_node_head(octets: &[u8]) -> Result<KeyNodeHead, NotANode>
    requires size { length octets.now ≡ 16384 }
    ensures head { (node : KeyNodeInPage) → BeginsAsKeyNode node octets.now → result ≡ Ok (record { level = node.level; bounds = node.bounds }) }
    ensures column { (column : ColumnInPage) → BeginsAsColumn column octets.now → IsErr result }
    ensures level { IfOk result (λ head. (2 ≤ head.level) × (head.level ≤ 7)) }
    ensures known { IfOk result (λ head. IsKnownUnit (slice_index octets.now 1)) }
{
    let Some(header) = read_header(octets) else {
        return Err(NotANode);
    };
    if !is_known(header.unit) {
        return Err(NotANode);
    }
    if !is_of_key_nodes(&header) {
        return Err(NotANode);
    }
    Ok(KeyNodeHead {
        level: header.level,
        bounds: header.bounds,
    })
}

/// The bounds of the column that begins these octets, a page's or a block's. Fails only if they aren't a column, but not in every such
/// case.
pub fn column_head(octets: &[u8]) -> Result<Bounds, NotANode>
    requires size { length octets.now ≡ 16384 }
    ensures column { (column : ColumnInPage) → BeginsAsColumn column octets.now → result ≡ Ok column.bounds }
    ensures old_column { (column : ColumnInBlock) → BeginsAsOldColumn column octets.now → result ≡ Ok column.bounds }
    ensures known { IfOk result (λ bounds. IsKnownUnit (slice_index octets.now 1)) }
{
    bounds_of(octets, 2, 1)
}

/// The bounds of the leaf that begins these octets, a page's or a block's. Fails only if they aren't a leaf, but not in every such
/// case.
pub fn leaf_head(octets: &[u8]) -> Result<Bounds, NotANode>
    requires size { length octets.now ≡ 16384 }
    ensures leaf { (leaf : LeafNode) → BeginsAsLeaf leaf octets.now → result ≡ Ok leaf.bounds }
    ensures known { IfOk result (λ bounds. IsKnownUnit (slice_index octets.now 1)) }
    ensures order { IfOk result AreInOrder }
{
    bounds_of(octets, 1, 0)
}

// The bounds in a header of this kind and level, in moments.
fn bounds_of(octets: &[u8], kind: u8, level: u8) -> Result<Bounds, NotANode>
    requires size { length octets.now ≡ 16384 }
    ensures bounds { (header : HeaderValue) (known : IsKnownUnit header.unit) → HasHeader header octets.now → header.kind ≡ kind → header.level ≡ level
        → IsBounds (scaled_bounds (moments_in known.unit) header.bounds) → result ≡ Ok (scaled_bounds (moments_in known.unit) header.bounds) }
    ensures order { IfOk result AreInOrder }
    ensures known { IfOk result (λ bounds. IsKnownUnit (slice_index octets.now 1)) }
{
    let Some(header) = read_header(octets) else {
        return Err(NotANode);
    };
    if !is_known(header.unit) {
        return Err(NotANode);
    }
    if !is_of_kind(&header, kind, level) {
        return Err(NotANode);
    }
    let k = moments_of(header.unit);
    let Some(bounds) = bounds_in_moments(&header.bounds, k) else {
        return Err(NotANode);
    };
    Ok(bounds)
}
