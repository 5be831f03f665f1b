//! Laws of what an archive represents, each the contract of a function that does nothing.

ghost use Rattle.std.specs.Prelude.{◌≡◌};
ghost use Rattle.route_meaning.specs.History.{History};
ghost use Rattle.board.specs.Past.{Past};
ghost use Rattle.disk_archive.specs.Archives.{GoesOn};
ghost use Rattle.shared_archive.specs.Represented.{RepresentsPast};

use disk_archive::Archive;
use disk_models::{EraseDisk, OnceDisk};

/// An archive that goes on with a history represents a past with it: the one of exactly the blocks that are settled on its disk.
pub fn past_is_represented<E: EraseDisk + Drop, O: OnceDisk + Drop>(archive: &Archive<E, O>)
    ensures represented { (h : History) → GoesOn archive.now h → (p : Past) × RepresentsPast archive.now p × (p.history ≡ h) }
{}
