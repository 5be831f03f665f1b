//! Laws of what octets represent.

ghost use Rattle.std.specs.Prelude.{◌≡◌, ◌≤◌, ℕ, List, filter, map, IsTrue};
ghost use Rattle.std.specs.List.Sorted.{IsPermutation};
ghost use Rattle.route_model.specs.Encoding.{is_ascending};
ghost use Rattle.route_model.specs.declared.path.Segment.{Segment};
ghost use Rattle.route_model.specs.declared.wire.AsWidth.{AsWidth};
ghost use Rattle.bgp_update.specs.declared.attribute.PathAttribute.{PathAttribute};
ghost use Rattle.bgp_update.specs.declared.reading.PathAttributes.{PathAttributes};
ghost use Rattle.bgp_update.specs.AttributeFields.{NoneTwice};
ghost use Rattle.bgp_update.specs.Values.{is_kept, kept, others_of};
ghost use Rattle.bgp_update.specs.Joining.{Joined, NoneEmpty, count, joined_path};
ghost use Rattle.bgp_update.specs.Readings.{AreAttributes};
ghost use Rattle.bgp_update.specs.Messages.{Reported, IsMessage};

/// AS4_PATH that counts no more can be merged with AS_PATH in one way, which `joined_path` computes.
pub fn joined_paths_are_one()
    ensures is { (own longer : List Segment) → NoneEmpty own → count longer ≤ count own → Joined own longer (joined_path own longer) }
    ensures one { (own longer path : List Segment) → NoneEmpty own → Joined own longer path → path ≡ joined_path own longer }
{}

/// The attributes of a list that are kept unread are exactly those whose types aren't read, by ascending type.
pub fn others_are_kept()
    ensures kept { (list : List PathAttribute) → IsPermutation (map kept (filter is_kept list)) (others_of list) }
    ensures ascending { (list : List PathAttribute) → NoneTwice list → IsTrue (is_ascending (others_of list)) }
{}

/// Octets are at most one list of attributes, which represents one value.
pub fn attributes_are_one()
    ensures one { (width : AsWidth) (bytes : List ℕ) (x y : PathAttributes) → AreAttributes width bytes x → AreAttributes width bytes y → x ≡ y }
{}

/// Octets are at most one message.
pub fn messages_are_one()
    ensures one { (width : AsWidth) (bytes : List ℕ) (x y : Reported) → IsMessage width bytes x → IsMessage width bytes y → x ≡ y }
{}
