//! What is done with an archive that is open.

ghost use Rattle.std.specs.Prelude.{ℕ};
ghost use Rattle.route_meaning.specs.History.{History};

use archive_calls::RouteArchive;
use std::alloc::Global;

/// A command over an open archive: what it reads and where it writes to are its own, and the archive is given to it.
///
/// The disk commands of this crate are such, and so is what a program does besides: it may count the calls of the archive, say why a device
/// failed, or write lines in a form of its own.
pub trait Command<A: RouteArchive> {
    /// What is so of the command before and after, and of the exit status, even if the archive represents no history. A command that
    /// holds a `&mut` says here that it is the same one.
    ghost always: { Self → Self → ℕ → Type 0 } = { λ _ _ _. Unit {0} };

    /// What the command does: of itself before and after, the most octets of a batch, the history before and after, and the exit status.
    ghost does: { Self → Self → ℕ → History → History → ℕ → Type 0 };

    /// Runs the command. Returns the archive, and the exit status of the program.
    fn run(&mut self, alloc: Global, archive: A) -> (A, u8)
        ensures always { always self.old self.new result.1 }
        ensures done { (h : History) → A.represents archive h → (g : History) × A.represents result.0 g × does self.old self.new (A.most archive) h g result.1 };
}
