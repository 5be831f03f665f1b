//! What is true of questions in progress: each the contract of a function that does nothing.

ghost use Rattle.std.specs.Prelude.{◌≡◌, ℕ, List, Option, Some};
ghost use Rattle.route_meaning.specs.History.{History, Begins};
ghost use Rattle.disk_archive.specs.declared.cursor.Cursor.{Cursor};
ghost use Rattle.disk_archive.specs.declared.errand.Errand.{Errand};
ghost use Rattle.disk_archive.specs.Cursors.{IsGathered};
ghost use Rattle.disk_archive.specs.Descents.{Located};

/// What a question has gathered over a history is right over each later one.
pub fn gathered_stays()
    ensures { (c : Cursor) (h g : History) → Begins h g → IsGathered c h → IsGathered c g }
{}

/// An errand that lies in settled blocks lies in them if more are settled.
pub fn errands_stay()
    ensures { (count : ℕ) (few many : ℕ → Option (List ℕ)) (errand : Errand) (c : Cursor) (h : History) → ((n : ℕ) (octets : List ℕ) → few n ≡ Some octets → many n ≡ Some octets) → Located count few errand c h → Located count many errand c h }
{}
