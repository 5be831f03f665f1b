//! Laws of the definitions, each the contract of a function that does nothing.

ghost use Rattle.std.specs.Prelude.{◌≡◌, ◌<◌, ◌≤◌, ◌+◌, ◌-◌, ◌++◌, ℕ, suc, List, [], ◌∷◌, Option, Some, None, IsSome, length, filter, slice_get, nat_eq};
ghost use Rattle.std.specs.List.{insert};
ghost use Rattle.version_model.specs.declared.part.Part.{Part};
ghost use Rattle.version_model.specs.declared.part.PartKind.TheVariants.{LeafBlock, ColumnBlock};
ghost use Rattle.version_model.specs.declared.child.Child.{Child};
ghost use Rattle.version_model.specs.Versions.{Version, Has, AsOf, Found, Answers, IsRising, IsAbove, Adds, AddsLater};
ghost use Rattle.version_model.specs.Ranges.{Range, IsKeyOf, IsPoint, until, since, below, from_key, StartsBefore, end_or, stamp_end};
ghost use Rattle.version_model.specs.LeafVersions.{LeafRepresents, IsBefore, IsFrom, IsBelow, IsFromKey};
ghost use Rattle.version_model.specs.Looks.{NoneWithin, Reached, IsReached, reached_to, is_of, IsPart};
ghost use Rattle.version_model.specs.Blocks.{BlockNode, OldLeaf, OldColumn, PartRepresents, Grows};
ghost use Rattle.version_model.specs.Pages.{Keys, KeyNode, PageNode, PartsRepresent, NodeRepresents, Store, NodeRepresentsIn, TreeRepresents, all_keys, past_range, current_range};
ghost use Rattle.version_model.specs.Inserts.{KeepsUnder, Splits, Writes};
ghost use Rattle.version_model.specs.Sizes.{octets, octets_below, IsSplitPoint, IsSingle, AreSmall};
ghost use Rattle.version_model.specs.Counts.{PartCounts, NodeCounts, count_in};

/// A leaf answers as all versions do: a lookup at a point of its range, that no key has a value, the next key within its
/// keys, and the versions of a key up to a stamp within its stamps.
pub fn leaves_answer_as_all_do()
    ensures look_up { (all leaf : List Version) (r : Range) (key s : ℕ) (answer : Option Found) → LeafRepresents all r leaf → IsPoint r key s
        → Answers leaf key s answer → Answers all key s answer }
    ensures none { (all leaf : List Version) (r : Range) (s from to : ℕ) → LeafRepresents all r leaf → r.low ≤ from → to ≤ r.high → r.start ≤ s → s < r.end
        → NoneWithin leaf s from to → NoneWithin all s from to }
    ensures part { (all leaf : List Version) (r : Range) (key from : ℕ) → LeafRepresents all r leaf → IsRising all → IsRising leaf → IsPoint r key from
        → filter (is_of key from r.end) leaf ≡ filter (is_of key from r.end) all }
    ensures next { (all leaf : List Version) (r : Range) (s from : ℕ) (reached : Reached) → LeafRepresents all r leaf → IsPoint r from s → reached_to reached ≤ r.high
        → IsReached leaf s from reached → IsReached all s from reached }
    ensures reported { (all leaf : List Version) (r : Range) (key from : ℕ) (reported : Option ℕ) → LeafRepresents all r leaf → IsRising all → IsRising leaf → IsPoint r key from
        → from < end_or reported → end_or reported ≤ r.end → IsPart all key from (filter (is_of key from (end_or reported)) leaf) reported }
{}

/// What a leaf shows is shown by both sides of a time split, by both sides of a key split, and of fewer keys and an
/// earlier end by the leaf itself. So a copy of each value that spans a time split is enough.
pub fn splits_keep_what_is_shown()
    ensures older { (all leaf side : List Version) (r : Range) (at : ℕ) → r.start ≤ at → at ≤ r.end → IsBefore leaf at side → LeafRepresents all r leaf → LeafRepresents all (until r at) side }
    ensures newer { (all leaf side : List Version) (r : Range) (at : ℕ) → r.start ≤ at → at < r.end → IsFrom leaf at side → LeafRepresents all r leaf → LeafRepresents all (since r at) side }
    ensures left { (all leaf side : List Version) (r : Range) (key : ℕ) → key ≤ r.high → IsBelow leaf key side → LeafRepresents all r leaf → LeafRepresents all (below r key) side }
    ensures right { (all leaf side : List Version) (r : Range) (key : ℕ) → r.low ≤ key → IsFromKey leaf key side → LeafRepresents all r leaf → LeafRepresents all (from_key r key) side }
    ensures cut { (all leaf : List Version) (r s : Range) → r.low ≤ s.low → s.high ≤ r.high → s.start ≡ r.start → s.end ≤ r.end → LeafRepresents all r leaf → LeafRepresents all s leaf }
{}

/// A copy of each value that spans a time split is needed: a leaf that answers from the split on as all versions do has it.
pub fn copies_are_needed()
    ensures needed { (all leaf : List Version) (r : Range) (at : ℕ) (v : Version) → IsRising all → IsRising leaf → at < r.end
        → ((key s : ℕ) (answer : Option Found) → IsPoint (since r at) key s → Answers leaf key s answer → Answers all key s answer)
        → IsKeyOf r v.key → AsOf all v.key at v → IsSome v.value → Has leaf v }
{}

/// A later version is shown by the leaf that takes it, and changes nothing for a leaf of other keys or of earlier stamps.
pub fn later_versions_are_shown()
    ensures taken { (all new leaf more : List Version) (r : Range) (v : Version) → Adds all v new → Adds leaf v more → StartsBefore r v.stamp → LeafRepresents all r leaf → LeafRepresents new r more }
    ensures elsewhere { (all new leaf : List Version) (r : Range) (v : Version) → Adds all v new → StartsBefore r v.stamp → (IsKeyOf r v.key → r.end ≤ v.stamp) → LeafRepresents all r leaf → LeafRepresents new r leaf }
{}

/// What was answered as of a stamp stays the answer when only later versions come.
pub fn answers_stay()
    ensures look_up { (all new : List Version) (s key at : ℕ) (answer : Option Found) → AddsLater all s new → at ≤ s → Answers all key at answer → Answers new key at answer }
    ensures none { (all new : List Version) (s at from to : ℕ) → AddsLater all s new → at ≤ s → NoneWithin all at from to → NoneWithin new at from to }
    ensures one { (all new : List Version) (s : ℕ) (v : Version) → Adds all v new → s < v.stamp → AddsLater all s new }
    ensures next { (all new : List Version) (s at from : ℕ) (reached : Reached) → AddsLater all s new → at ≤ s → IsReached all at from reached → IsReached new at from reached }
    ensures part { (all new versions : List Version) (s key from : ℕ) (reported : Option ℕ) → AddsLater all s new → IsRising all → IsRising new → end_or reported ≤ s + 1
        → IsPart all key from versions reported → IsPart new key from versions reported }
{}

/// The versions of a key from a stamp on up to a second one, and those from there on, are together those from the first stamp on.
/// So parts that follow one another from the first stamp to the end of all stamps are all versions of the key.
pub fn parts_follow_one_another()
    ensures joined { (all : List Version) (key from to end : ℕ) → IsRising all → from ≤ to → to ≤ end
        → filter (is_of key from to) all ++ filter (is_of key to end) all ≡ filter (is_of key from end) all }
    ensures next { (all versions more : List Version) (key from to : ℕ) (reported : Option ℕ) → IsRising all → IsPart all key from versions (Some to) → IsPart all key to more reported
        → IsPart all key from (versions ++ more) reported }
    ensures whole { (all versions : List Version) (key : ℕ) → ((v : Version) → Has all v → v.stamp < stamp_end) → IsPart all key 0 versions None
        → versions ≡ filter (λ v. nat_eq v.key key) all }
{}

/// Two lists whose stamps rise, and which have the same versions, are one list.
pub fn rising_lists_are_one()
    ensures one { (vs ws : List Version) → IsRising vs → IsRising ws → ((x : Version) → Has vs x → Has ws x) → ((x : Version) → Has ws x → Has vs x) → vs ≡ ws }
{}

/// A part that represents versions goes on representing them with more settled blocks, when a version comes that isn't before its end, and for
/// fewer keys.
pub fn parts_represent_on()
    ensures grows { (old new : ℕ → Option BlockNode) (all : List Version) (r : Range) (part : Part) → Grows old new → PartRepresents old all r part → PartRepresents new all r part }
    ensures later { (blocks : ℕ → Option BlockNode) (all new : List Version) (v : Version) (r : Range) (part : Part) → Adds all v new → r.start < r.end → r.end ≤ v.stamp
        → PartRepresents blocks all r part → PartRepresents blocks new r part }
    ensures cut { (blocks : ℕ → Option BlockNode) (all : List Version) (r s : Range) (part : Part) → r.low ≤ s.low → s.high ≤ r.high → s.start ≡ r.start → s.end ≡ r.end
        → PartRepresents blocks all r part → PartRepresents blocks all s part }
{}

/// The past of a column goes on standing when a burnt leaf becomes its last part, when its parts move into one block,
/// and for fewer keys.
pub fn pasts_represent_on()
    ensures pushed { (old new : ℕ → Option BlockNode) (next further : ℕ) (all : List Version) (keys : Keys) (start at block : ℕ) (parts : List Part) (versions : List Version)
        → Grows old new → start < at → next ≤ block → block < further
        → new block ≡ Some (OldLeaf (until (current_range keys start) at) versions) → LeafRepresents all (until (current_range keys start) at) versions
        → PartsRepresent old next all keys start parts → PartsRepresent new further all keys at (parts ++ record { start = start; kind = LeafBlock; block = block } ∷ []) }
    ensures moved { (old new : ℕ → Option BlockNode) (next further : ℕ) (all : List Version) (keys : Keys) (start block : ℕ) (parts : List Part)
        → Grows old new → 0 < start → next ≤ block → block < further → new block ≡ Some (OldColumn (past_range keys start) parts)
        → PartsRepresent old next all keys start parts → PartsRepresent new further all keys start (record { start = 0; kind = ColumnBlock; block = block } ∷ []) }
    ensures cut { (blocks : ℕ → Option BlockNode) (next : ℕ) (all : List Version) (keys side : Keys) (start : ℕ) (parts : List Part) → keys.low ≤ side.low → side.high ≤ keys.high
        → PartsRepresent blocks next all keys start parts → PartsRepresent blocks next all side start parts }
{}

/// A page that represents versions goes on representing them with more settled blocks, and when a version of other keys comes, whatever pages
/// that don't lie under it represent then.
pub fn nodes_represent_on()
    ensures grows { (nodes : ℕ → Option PageNode) (limit : ℕ) (old new : ℕ → Option BlockNode) (next further : ℕ) (all : List Version) (level : ℕ) (keys : Keys) (page : ℕ)
        → Grows old new → next ≤ further → NodeRepresents nodes limit old next all level keys page → NodeRepresents nodes limit new further all level keys page }
    ensures elsewhere { (s t : Store) (all new : List Version) (v : Version) (level : ℕ) (keys : Keys) (page : ℕ)
        → Adds all v new → IsAbove all v.stamp → Grows s.blocks t.blocks → s.next ≤ t.next → s.limit ≤ t.limit
        → keys.low < keys.high → (IsKeyOf (current_range keys 0) v.key → ⊥) → KeepsUnder s.nodes t.nodes s.limit level keys
        → NodeRepresentsIn s all level keys page → NodeRepresentsIn t new level keys page }
{}

/// A key node takes a version as its child of the version's key does: if the child stays one, and if it becomes two and
/// the new one is written after it.
pub fn key_nodes_take_as_their_children_do()
    ensures one { (s t : Store) (v : Version) (level page : ℕ) (keys : Keys) (children : List Child) (i : ℕ) (child : Child)
        → s.nodes page ≡ Some (KeyNode (suc level) keys children) → slice_get children i ≡ Some child → child.low ≤ v.key
        → ((c : Child) → slice_get children (suc i) ≡ Some c → v.key < c.low)
        → Splits s t v level child.page None → Splits s t v (suc level) page None }
    ensures two { (s t u : Store) (v : Version) (level page : ℕ) (keys : Keys) (children : List Child) (i : ℕ) (child new : Child)
        → s.nodes page ≡ Some (KeyNode (suc level) keys children) → slice_get children i ≡ Some child → child.low ≤ v.key
        → ((c : Child) → slice_get children (suc i) ≡ Some c → v.key < c.low)
        → Splits s t v level child.page (Some new) → Writes t u page (KeyNode (suc level) keys (insert children (suc i) new))
        → Splits s u v (suc level) page None }
{}

/// If a leaf that has one version of each key is split by key at the least key with `least` octets below it, both sides fit
/// a room, and neither is empty; and a leaf that doesn't fit has such a key.
pub fn key_splits_fit()
    ensures there { (vs : List Version) (room most least high : ℕ) → IsSingle vs → AreSmall vs most → 0 < least → least + most ≤ room + 1
        → ((v : Version) → Has vs v → v.key < high) → room < octets vs → IsSplitPoint vs least None → ⊥ }
    ensures fit { (vs : List Version) (room most least key : ℕ) → IsSingle vs → AreSmall vs most → 0 < least → least + most ≤ room + 1
        → octets vs ≤ room + least → IsSplitPoint vs least (Some key) → (octets_below key vs ≤ room) × (octets vs - octets_below key vs ≤ room) }
    ensures left { (vs : List Version) (least key : ℕ) → 0 < least → IsSplitPoint vs least (Some key) → (v : Version) × Has vs v × (v.key < key) }
    ensures right { (vs : List Version) (least key : ℕ) → IsSplitPoint vs least (Some key) → (v : Version) × Has vs v × (v.key ≡ key) }
    ensures single { (leaf newer : List Version) (at : ℕ) → IsFrom leaf at newer → IsRising newer → ((v : Version) → Has leaf v → v.stamp ≤ at) → IsSingle newer }
{}

/// What is counted in a part that represents versions is how many versions its range has; what is counted under the root of a tree, how many
/// versions the tree represents. So copies count once.
pub fn versions_are_counted_once()
    ensures parts { (blocks : ℕ → Option BlockNode) (all : List Version) (r : Range) (part : Part) (n : ℕ) → IsRising all
        → PartCounts blocks r part n → PartRepresents blocks all r part → n ≡ count_in all r }
    ensures trees { (s : Store) (all : List Version) (root level n : ℕ) → NodeCounts s.nodes s.limit s.blocks s.next level all_keys root n → TreeRepresents s all root level → n ≡ length all }
{}
