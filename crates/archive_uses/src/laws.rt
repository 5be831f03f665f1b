//! What is true of any uses of an archive on two disks, as the contract of a function that does nothing.

ghost use Rattle.std.specs.Prelude.{◌≡◌, ℕ, List, false};
ghost use Rattle.std.specs.List.{AllByRecursion};
ghost use Rattle.disk_models.specs.Left.{Left};
ghost use Rattle.page_journal.specs.Identity.{HasNoJournal};
ghost use Rattle.route_meaning.specs.History.{Begins, History};
ghost use Rattle.archive_pages.specs.declared.settings.Settings.{Settings};
ghost use Rattle.disk_archive.specs.declared.archive.Archive.{Archive};
ghost use Rattle.disk_archive.specs.Archives.{Represents, is_down};
ghost use Rattle.archive_uses.specs.Use.{Use, IsUse};
ghost use Rattle.archive_uses.specs.Use.Use.{found, opened};
ghost use Rattle.archive_uses.specs.Uses.{Asked, Leads, Scene, Uses};
ghost use Rattle.archive_uses.specs.Uses.Stage.{gone, off, on};
ghost use Rattle.archive_uses.specs.Lives.{Lives};
ghost use Rattle.archive_uses.specs.Runs.{EndsInRun, EndsWith};
ghost use Rattle.archive_uses.specs.Promises.{IsPromised};
ghost use Rattle.archive_uses.specs.Settling.{IsSettledAt};

use disk_models::{EraseDisk, OnceDisk};

/// Whatever is made of an archive and its disks, from its creation on, with crashes and failures inside any call and any opening, is a run of
/// the pure machine, and the archive has the settings that it was created with. So at the end each answer is that of the history, each
/// receipt's batch is recorded in it, and nothing else is in it; what an archive represented at any time, while it needn't be opened again, begins it;
/// and a block that is settled once stays so, with the same octets. What a crash left that holds no journal isn't opened.
pub fn uses_are_runs<E: EraseDisk + Drop, O: OnceDisk + Drop>()
    ensures runs { (made : Settings) (us : List Use) (last : Scene E O O.Pen O.Seen E.EraseDisk O.OnceDisk) → Lives made us last → EndsInRun made us last.stage }
    ensures promised { (made : Settings) (us : List Use) (last : Scene E O O.Pen O.Seen E.EraseDisk O.OnceDisk) → Lives made us last → EndsWith made (λ down. IsPromised us) last.stage }
    ensures begins { (made : Settings) (before us : List Use) (between : Archive E O O.Pen O.Seen E.EraseDisk O.OnceDisk) (hand : List Asked) (last : Scene E O O.Pen O.Seen E.EraseDisk O.OnceDisk) → Lives made before (record { stage = on between; hand = hand }) → is_down between ≡ false
        → AllByRecursion IsUse us → Uses (record { stage = on between; hand = hand }) us last → (h : History) × Represents between h × EndsWith made (λ down. Begins h) last.stage }
    ensures settled { (made : Settings) (before us : List Use) (then last : Scene E O O.Pen O.Seen E.EraseDisk O.OnceDisk) → Lives made before then → AllByRecursion IsUse us → Uses then us last
        → (n : ℕ) (block : List ℕ) → IsSettledAt then.stage n block → IsSettledAt last.stage n block }
    ensures none { (blocks : ℕ) (left : Left) (e : E) (o : O) (pen : O.Pen) (a : Archive E O O.Pen O.Seen E.EraseDisk O.OnceDisk) → HasNoJournal left.erase
        → Leads {Seen = O.Seen} {erase = E.EraseDisk} {once = O.OnceDisk} found (gone blocks left) (off e o pen) → Leads opened (off e o pen) (on a) → ⊥ }
{}
