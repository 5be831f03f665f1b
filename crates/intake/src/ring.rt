//! A ring: where it lies, and what of it is used.
ghost use Rattle.std.specs.Prelude.{◌≡◌, ◌<◌, ◌≤◌, ◌+◌, ◌↔◌, IsTrue};
ghost use Rattle.intake.specs.Ring.{wrapped};

use route_model::Admission;

/// The octets of a page.
pub const PAGE: u64 = 16_384;

// A place of less than twice the size, in a ring of this size.
pub fn wrap(size: u64, at: u64) -> u64
    ensures { result ≡ wrapped size at }
{
    if at < size { at } else { at - size }
}

/// Where a ring lies, and what of it is used. All octets of its pages are data: the entries of the admissions that wait,
/// the first one from the first used octet on, and from the last octet of the last page to the first of the first again.
/// The caller keeps it.
#[derive(Clone, Copy, Debug, PartialEq, Eq)]
pub struct Ring {
    /// Its first page.
    pub low: u64,
    /// How many pages it has, at most 65,535.
    pub count: u64,
    /// The place of the first octet that is used, counted from the first page's first octet.
    pub first: u64,
    /// How many octets are used.
    pub used: u64,
}

impl Ring {
    ghost use Rattle.std.specs.Prelude.{◌≡◌, ◌<◌, ◌≤◌, ◌+◌, ◌-◌, ◌*◌, ◌^◌, ◌↔◌, ℕ, List, [], ◌∷◌, length, IsTrue};
    ghost use Rattle.route_model.specs.Admission.{Admitted};
    ghost use Rattle.intake.specs.Ring.{wrapped, entry, size_of, IsRing, RingRepresents};

    /// A ring of `count` pages from `low` on, in which nothing waits.
    pub fn empty(low: u64, count: u64) -> Ring
        ensures place { result ≡ record { low = low; count = count; first = 0; used = 0 } }
        ensures holds { (pages : List (List ℕ)) → RingRepresents pages result [] }
    {
        Ring {
            low,
            count,
            first: 0,
            used: 0,
        }
    }

    /// Whether it is a ring among `homes` home pages.
    pub fn is_within(&self, homes: u64) -> bool
        ensures within { IsTrue result ↔ IsRing homes self.now }
    {
        self.count <= 65_535
            && self.low <= homes
            && self.count <= homes - self.low
            && self.first < PAGE * self.count
            && self.used <= PAGE * self.count
    }

    /// How many octets are free.
    pub fn free(&self) -> u64
        requires few { self.now.count ≤ 65535 }
        requires used { self.now.used ≤ size_of self.now }
        ensures free { result ≡ size_of self.now - self.now.used }
    {
        PAGE * self.count - self.used
    }

    /// Whether so large an admission can be taken out.
    pub fn can_pop(&self, admission: &Admission) -> bool
        ensures fits { IsTrue result ↔ (length (entry admission.now) ≤ self.now.used) }
    {
        4 + admission.encoded_len() as u64 <= self.used
    }

    /// Takes out the first admission, which is this one.
    pub fn pop(&mut self, admission: &Admission)
        requires few { self.old.count ≤ 65535 }
        requires start { self.old.first < size_of self.old }
        requires used { self.old.used ≤ size_of self.old }
        requires fits { length (entry admission.now) ≤ self.old.used }
        ensures popped { (pages : List (List ℕ)) (rest : List Admitted) → RingRepresents pages self.old (admission.now ∷ rest) → RingRepresents pages self.new rest }
        ensures place { self.new ≡ record self.old { first = wrapped (size_of self.old) (self.old.first + length (entry admission.now)); used = self.old.used - length (entry admission.now) } }
        ensures ring { (homes : ℕ) → IsRing homes self.old → IsRing homes self.new }
    {
        let len = 4 + admission.encoded_len() as u64;
        self.first = wrap(PAGE * self.count, self.first + len);
        self.used -= len;
    }
}
