//! What is true of disks that keep a history, as the contract of a function that does nothing.

ghost use Rattle.route_meaning.specs.History.{Begins, History};
ghost use Rattle.disk_commands.specs.declared.disks.Disks.{Disks};
ghost use Rattle.disk_commands.specs.Disks.{Keep, Represent};

use disk_models::{EraseDisk, OnceDisk};

/// Disks that keep a history read as one that it begins.
pub fn kept_is_read<E: EraseDisk + Drop, O: OnceDisk + Drop>()
    ensures read { (disks : Disks E O O.Pen O.Seen) (h : History) → Keep E.EraseDisk O.OnceDisk disks h → (g : History) × Begins h g × Represent E.EraseDisk O.OnceDisk disks g }
{}
