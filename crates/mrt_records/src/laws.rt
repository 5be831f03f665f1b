//! Laws of the definitions, on which the contracts of this crate rest.

ghost use Rattle.std.specs.Prelude.{◌≡◌, ℕ, List};
ghost use Rattle.mrt_records.specs.Records.{Frames};
ghost use Rattle.mrt_records.specs.Values.{Reported};
ghost use Rattle.mrt_records.specs.Bodies.{Body};

/// The octets of a stream are one list of records and one rest, and no other.
pub fn frames_law()
    ensures one { (bytes : List ℕ) (rs ss : List (List ℕ)) (x y : List ℕ) → Frames bytes rs x → Frames bytes ss y → (rs ≡ ss) × (x ≡ y) }
{}

/// Each record is reported as an item, and as no other.
pub fn body_law()
    ensures some { (bytes : List ℕ) → (reported : Reported) × Body bytes reported }
    ensures one { (bytes : List ℕ) (a b : Reported) → Body bytes a → Body bytes b → a ≡ b }
{}
