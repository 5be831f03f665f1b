//! Laws of encodings and of orders.

ghost use Rattle.std.specs.Prelude.{◌≡◌, ℕ, List};
ghost use Rattle.route_model.specs.declared.peer.Peer.{Peer};
ghost use Rattle.route_model.specs.declared.route.Route.{Route};
ghost use Rattle.route_model.specs.declared.address.Address.{Address};
ghost use Rattle.route_model.specs.contracts.address.AddressOrd.TheImpl as address_ord;
ghost use Rattle.route_model.specs.contracts.peer.PeerOrd.TheImpl as peer_ord;
ghost use Rattle.route_model.specs.contracts.prefix.PrefixOrd.TheImpl as prefix_ord;
ghost use Rattle.route_model.specs.Keys.{address_order, peer_order, prefix_order};
ghost use Rattle.route_model.specs.Prefix.{IpPrefix, EncodesPrefix};
ghost use Rattle.route_model.specs.Encoding.{EncodesPeer, EncodesRoute};
ghost use Rattle.route_model.specs.Admission.{Admitted, EncodesAdmission};

/// Octets encode at most one value of each type.
pub fn encodings_are_one()
    ensures peers { (p q : Peer) (octets : List ℕ) → EncodesPeer p octets → EncodesPeer q octets → p ≡ q }
    ensures prefixes { (x y : IpPrefix) (octets : List ℕ) → EncodesPrefix x octets → EncodesPrefix y octets → x ≡ y }
    ensures routes { (r s : Route) (octets : List ℕ) → EncodesRoute r octets → EncodesRoute s octets → r ≡ s }
    ensures admissions { (a b : Admitted) (octets : List ℕ) → EncodesAdmission a octets → EncodesAdmission b octets → a ≡ b }
{}

/// `Ord` orders addresses by family, then by octets; peers by collector, address and AS number;
/// prefixes by address, then by length: the order of the rows of an answer, and of keys.
pub fn orders_agree()
    ensures addresses { (a b : Address) → (address_ord.cmp-value).it a b ≡ address_order a b }
    ensures peers { (p q : Peer) → (peer_ord.cmp-value).it p q ≡ peer_order p q }
    ensures prefixes { (x y : IpPrefix) → (prefix_ord.cmp-value).it x y ≡ prefix_order x y }
{}
