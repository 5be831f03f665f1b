//! Laws of the definitions, each the contract of a function that does nothing.

ghost use Rattle.std.specs.Prelude.{List, ℕ, ◌≡◌, ◌↔◌, ◌⊎◌, ◌<◌, ◌+◌, [], length, slice_get, Some, IsSome};
ghost use Rattle.once_store.specs.Digests.{IsWhole};
ghost use Rattle.version_model.specs.declared.bounds.Bounds.{Bounds};
ghost use Rattle.version_model.specs.declared.part.Part.{Part};
ghost use Rattle.version_model.specs.Versions.{Version};
ghost use Rattle.version_model.specs.Ranges.{high_or, range_of};
ghost use Rattle.version_model.specs.Sizes.{octets};
ghost use Rattle.version_model.specs.LeafVersions.{IsBelow, IsFromKey};
ghost use Rattle.version_model.specs.Blocks.{BlockNode, AreParts, IsPartOf};
ghost use Rattle.version_model.specs.Pages.{PageNode, AreChildren, IsChildOf, past_range};
ghost use Rattle.tsb_node.specs.declared.key_node.Under.{Under};
ghost use Rattle.tsb_node.specs.declared.column.PartAt.{PartAt};
ghost use Rattle.tsb_node.specs.declared.column.Spot.TheVariants.{InBlock};
ghost use Rattle.tsb_node.specs.Leaves.{LeafNode, IsLeaf, IsLeafBlock, BeginsAsLeaf, entries};
ghost use Rattle.tsb_node.specs.Columns.{ColumnInPage, ColumnInBlock, IsColumn, IsOldColumn, IsColumnBlock};
ghost use Rattle.tsb_node.specs.KeyNodes.{KeyNodeInPage, IsKeyNode};
ghost use Rattle.tsb_node.specs.Children.{IsUnder, BeginsAsKeyNode};
ghost use Rattle.tsb_node.specs.Parts.{BeginsAsColumn, BeginsAsOldColumn, IsSpot, IsPartAt};
ghost use Rattle.tsb_node.specs.Splitting.{IsSide};
ghost use Rattle.tsb_node.specs.Views.{keys_between, PageRepresents, BlockRepresents};

/// Octets are the page, or the block, of one column at most, and of one key node; a page represents one node at most, and so does a block.
pub fn nodes_are_one()
    ensures columns { (a b : ColumnInPage) (octets : List ℕ) → BeginsAsColumn a octets → BeginsAsColumn b octets → a ≡ b }
    ensures old_columns { (a b : ColumnInBlock) (octets : List ℕ) → BeginsAsOldColumn a octets → BeginsAsOldColumn b octets → a ≡ b }
    ensures key_nodes { (a b : KeyNodeInPage) (octets : List ℕ) → BeginsAsKeyNode a octets → BeginsAsKeyNode b octets → a ≡ b }
    ensures pages { (a b : PageNode) (octets : List ℕ) → PageRepresents octets a → PageRepresents octets b → a ≡ b }
    ensures blocks { (a b : BlockNode) (octets : List ℕ) → BlockRepresents octets a → BlockRepresents octets b → a ≡ b }
{}

/// Octets are the block of a node exactly if they begin as it does, the node has an end, and they end in their digest.
pub fn blocks_begin_as_their_nodes()
    ensures leaves { (leaf : LeafNode) (octets : List ℕ) → IsLeafBlock leaf octets ↔ (BeginsAsLeaf leaf octets × IsSome leaf.bounds.end × IsWhole octets) }
    ensures columns { (column : ColumnInBlock) (octets : List ℕ) → IsColumnBlock column octets ↔ (BeginsAsOldColumn column octets × IsSome column.bounds.end × IsWhole octets) }
{}

/// The entries of a leaf take the octets that version_model counts.
pub fn entries_have_their_octets()
    ensures sizes { (versions : List Version) → length (entries versions) ≡ octets versions }
{}

/// Each half of a leaf that is split by key has its versions of the keys below the key, or of those from it on.
pub fn sides_are_key_splits()
    ensures below { (leaf : LeafNode) (side : List Version) (b : Bounds) (key : ℕ) → b.low ≡ leaf.bounds.low → b.high ≡ Some key → IsLeaf leaf → IsSide b leaf.versions side
        → IsBelow leaf.versions key side }
    ensures from_key { (leaf : LeafNode) (side : List Version) (b : Bounds) (key : ℕ) → b.low ≡ key → b.high ≡ leaf.bounds.high → IsLeaf leaf → IsSide b leaf.versions side
        → IsFromKey leaf.versions key side }
{}

/// The children of a key node follow one another over its keys; and the parts of a column over the stamps of its past, each in a block of
/// a lower number, if the tree ensures that. A lookup returns one of them, with its own keys or stamps.
pub fn nodes_say_what_the_tree_asks()
    ensures children { (node : KeyNodeInPage) → IsKeyNode node → AreChildren (keys_between node.bounds) node.children }
    ensures child { (node : KeyNodeInPage) (key : ℕ) (under : Under) → IsUnder node key under
        → IsChildOf (keys_between node.bounds) node.children (record { low = under.low; high = high_or under.high }) (record { low = under.low; page = under.page }) }
    ensures parts { (column : ColumnInPage) (next : ℕ) → IsColumn column → ((i : ℕ) (part : Part) → slice_get column.parts i ≡ Some part → part.block < next)
        → ((column.parts ≡ []) × (column.current.start ≡ 0)) ⊎ AreParts (past_range (keys_between column.bounds) column.current.start) column.parts next }
    ensures part { (column : ColumnInPage) (stamp : ℕ) (found : PartAt) → IsSpot column stamp (InBlock found)
        → IsPartOf (past_range (keys_between column.bounds) column.current.start) column.parts
        (record { low = column.bounds.low; high = high_or column.bounds.high; start = found.part.start; end = found.end }) found.part }
    ensures old_parts { (column : ColumnInBlock) (end block : ℕ) → IsOldColumn column → column.bounds.end ≡ Some end
        → ((i : ℕ) (part : Part) → slice_get column.parts i ≡ Some part → part.block < block) → AreParts (range_of column.bounds) column.parts block }
    ensures old_part { (column : ColumnInBlock) (end stamp : ℕ) (found : PartAt) → column.bounds.end ≡ Some end → IsPartAt column.parts end stamp found
        → IsPartOf (range_of column.bounds) column.parts
        (record { low = column.bounds.low; high = high_or column.bounds.high; start = found.part.start; end = found.end }) found.part }
{}
