//! An archive, as feeds use it.

ghost use Rattle.std.specs.Prelude.{◌≡◌, ◌≤◌, ℕ, length, map, slice_get};
ghost use Rattle.route_meaning.specs.History.{History};
ghost use Rattle.interleaving_core.specs.World.{resume_of};
ghost use Rattle.archive_calls.specs.Does.{DoesAdmit, DoesMark, DoesApply, DoesCheck};

use crate::refusal::{AdmitError, MarkError, Trouble};
use crate::reported::{Flush, Step};
use crate::source::RouteSource;
use interleaving_core::{BatchReply, Resume};
use route_model::{Admission, Mark};
use std::alloc::Global;

/// An archive with one owner: it takes batches and marks, applies them step by step, and answers questions.
pub trait RouteArchive: RouteSource {
    /// The most octets that a batch may have.
    ghost most: { Self → ℕ };

    /// How many collectors there are, 1 to 16. Their numbers begin with 0.
    fn collectors(&self) -> u8
        ensures count { (h : History) → Self.represents self.now h → result ≡ length h.intakes }
        ensures some { 1 ≤ result }
        ensures few { result ≤ 16 };

    /// The most octets that a batch may have: [`crate::MAX_BATCH_LEN`], or those of a ring if these are fewer. Each
    /// admission fits.
    fn batch_limit(&self) -> usize
        ensures most { result ≡ most self.now }
        ensures one { 131076 ≤ result }
        ensures few { result ≤ 262144 };

    /// Where the collector goes on, if there is one of this number.
    // No `requires` forbids another number: if an archive represents no history, no clause states how many there are.
    fn resume(&self, collector: u8) -> Option<Resume>
        ensures resume { (h : History) → Self.represents self.now h → result ≡ slice_get (map resume_of h.intakes) collector };

    /// Admits the records of a collector, in their order, but for those that come late: whose time is below the collector's
    /// mark or below an earlier time of the batch. Each late record is reported. The mark is raised to the greatest of these
    /// times.
    fn admit(&mut self, collector: u8, batch: &[Admission]) -> Result<BatchReply, AdmitError>
        ensures done { (h : History) → Self.represents self.old h → (g : History) × Self.represents self.new g × DoesAdmit collector batch.now result h g }
        ensures most { most self.new ≡ most self.old };

    /// Raises the mark of a collector: what it gives from now on isn't earlier. The present mark may be given again.
    fn mark(&mut self, collector: u8, mark: Mark) -> Result<(), MarkError>
        ensures done { (h : History) → Self.represents self.old h → (g : History) × Self.represents self.new g × DoesMark collector mark result h g }
        ensures most { most self.new ≡ most self.old };

    /// Applies what is next: the next change of the first admission that waits, if that is below every mark, and perhaps
    /// some more. An admission without changes is applied at once.
    fn apply_step(&mut self) -> Result<Step, Trouble>
        ensures done { (h : History) → Self.represents self.old h → (g : History) × Self.represents self.new g × DoesApply result h g }
        ensures most { most self.new ≡ most self.old };

    /// Writes a page home that waits.
    fn flush_step(&mut self) -> Result<Flush, Trouble>
        ensures done { (h : History) → Self.represents self.old h → Self.represents self.new h }
        ensures most { most self.new ≡ most self.old };

    /// Reads all that the archive keeps of what is applied, and returns how many changes that is. The first page or block
    /// whose content isn't valid at its place is reported; in an archive that represents a history none is.
    fn check(&mut self) -> Result<u64, Trouble>
        ensures done { (h : History) → Self.represents self.old h → DoesCheck result h }
        ensures represents { (h : History) → Self.represents self.old h → Self.represents self.new h }
        ensures most { most self.new ≡ most self.old };

    /// Which call on a device failed first, and why, in words for a person: of what they are no clause speaks. None if none failed,
    /// if it isn't known, or if there is no memory for the words.
    fn failure(&self, _alloc: Global) -> Option<String> {
        None
    }
}
