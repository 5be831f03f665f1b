//! Laws of rings.

ghost use Rattle.std.specs.Prelude.{◌≡◌, ◌<◌, ◌≤◌, ◌+◌, ◌%◌, ◌⊎◌, ◌↔◌, ℕ, List, length, slice_index, sum_by};
ghost use Rattle.route_model.specs.Admission.{Admitted};
ghost use Rattle.intake.specs.declared.ring.Ring.{Ring};
ghost use Rattle.intake.specs.Ring.{page_at, entry_octets, octets_for, size_of, wrapped, ring_octet, HasOctets, ChangesOnly, RingRepresents, IsRing};

use route_model::encodings_are_one;

/// What a ring holds stays where its pages stay, as they do while only pages of another ring, before or after it, are
/// changed.
pub fn rings_keep_what_they_hold()
    ensures pages { (homes : ℕ) (ring : Ring) (old new : List (List ℕ)) (waits : List Admitted) → IsRing homes ring → ((n : ℕ) → ring.low ≤ n → n < ring.low + ring.count → page_at new n ≡ page_at old n) → RingRepresents old ring waits → RingRepresents new ring waits }
    ensures apart { (homes : ℕ) (one other : Ring) (old new : List (List ℕ)) (waits : List Admitted) → IsRing homes other → (other.low + other.count ≤ one.low) ⊎ (one.low + one.count ≤ other.low) → ChangesOnly one old new → RingRepresents old other waits → RingRepresents new other waits }
{}

/// A ring holds one list at most, and what a list takes there is the sum of what its admissions take.
pub fn rings_hold_one_list()
    ensures one { (ring : Ring) (pages : List (List ℕ)) (one other : List Admitted) → RingRepresents pages ring one → RingRepresents pages ring other → one ≡ other }
    ensures octets { (batch : List Admitted) → octets_for batch ≡ sum_by entry_octets batch }
{
    encodings_are_one();
}

/// Places go round: the place of an octet is the remainder by the ring's size. So octets stand in a ring exactly if it has each of
/// them at the place that the remainder gives.
pub fn rings_go_round()
    ensures place { (size at : ℕ) → at < size + size → wrapped size at ≡ at % size }
    ensures represents_all { (homes : ℕ) (pages : List (List ℕ)) (ring : Ring) (octets : List ℕ) → IsRing homes ring → length octets ≤ size_of ring
        → HasOctets pages ring octets ↔ ((k : ℕ) → k < length octets → ring_octet pages ring.low ((ring.first + k) % size_of ring) ≡ slice_index octets k) }
{}
