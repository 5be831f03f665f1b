//! Pages that are changed together.
ghost use Rattle.std.specs.Prelude.{◌≡◌, ◌<◌, ◌≤◌, ◌+◌, ◌⊎◌, ◌∷◌, [], ℕ, Bool, false, List, length, slice_set, OnOk, OnErr, IfOk, IfErr, IfSome, IsOk, IsSome, IsErrOf, Some, slice_get};
ghost use Rattle.page_journal.specs.Layout.{pages_of};
ghost use Rattle.page_journal.specs.Recovers.{laid, AreBelow, AreDistinct, IsListed};
ghost use Rattle.page_tx.specs.Start.{Start};
ghost use Rattle.page_tx.specs.Images.{joined};
ghost use Rattle.page_tx.specs.Refusals.{FetchRefusal, LayRefusal, SetRefusal};
ghost use Rattle.page_tx.specs.Device.{KeepsDevice};

use crate::error::PageError;
use disk_models::Page;

/// The committed pages with images laid over them, which are committed together.
///
/// Several owners of ranges of pages are each given it in turn. What is shown after the part of one, the next begins
/// with.
pub trait Pages {
    /// What was at the start, and the pages that are shown: those of the start with all images laid over them. It is true
    /// only of a device that follows its model.
    ghost shows: { Self → Start → List (List ℕ) → Type 0 };

    /// The page of this number is in memory.
    ghost resident: { Self → ℕ → Type 0 };

    /// How many pages there are.
    ghost homes: { Self → ℕ };

    /// The first page that was never used.
    ghost next: { Self → ℕ };

    /// The numbers of the pages that have images, each once.
    ghost named: { Self → List ℕ };

    /// An earlier write or sync failed, and the journal wasn't opened again since.
    ghost down: { Self → Bool };

    /// The device follows its model.
    ghost honest: { Self → Type 0 };

    /// How often the device has failed.
    ghost faults: { Self → ℕ };

    /// Brings a page into memory. One that is there needs no device and no further memory.
    fn fetch(&mut self, n: u64) -> Result<(), PageError>
        requires { n < homes self.old }
        ensures resident { OnOk result (resident self.new n) }
        ensures same { (start : Start) (shown : List (List ℕ)) → shows self.old start shown → shows self.new start shown }

        ensures there { down self.old ≡ false → resident self.old n → IsOk result }
        ensures held { IsListed n (named self.old) → IsOk result }
        ensures ok { OnOk result ((down self.old ≡ false) ⊎ IsListed n (named self.old)) }
        ensures refused { IfErr result (FetchRefusal (down self.old)) }

        ensures homes { homes self.new ≡ homes self.old }
        ensures next { next self.new ≡ next self.old }
        ensures named { named self.new ≡ named self.old }
        ensures down { down self.new ≡ down self.old }
        ensures device { KeepsDevice (honest self.old) (honest self.new) (faults self.old) (faults self.new) (IsErrOf result PageError.Fault) };

    /// A page as it is shown, lent without a copy, if it is in memory.
    fn page(&self, n: u64) -> Option<&Page>
        ensures there { resident self.now n → IsSome result }
        ensures shown { (start : Start) (shown : List (List ℕ)) → shows self.now start shown → n < homes self.now → IfSome result (λ page. slice_get shown n ≡ Some page.now) };

    /// Lays an image over a page, in place of an older one. After a refusal the same pages are shown.
    fn set(&mut self, n: u64, page: Page) -> Result<(), PageError>
        requires { n < homes self.old }
        ensures ok { OnOk result ((start : Start) (shown : List (List ℕ)) → shows self.old start shown → shows self.new start (slice_set shown n page)) }
        ensures err { OnErr result ((start : Start) (shown : List (List ℕ)) → shows self.old start shown → shows self.new start shown) }
        ensures named { OnOk result (named self.new ≡ joined (named self.old) (n ∷ [])) }
        ensures as_named { OnErr result (named self.new ≡ named self.old) }

        // An image that replaces another is never refused.
        ensures held { IsListed n (named self.old) → IsOk result }
        ensures few { OnOk result (length (joined (named self.old) (n ∷ [])) ≤ 31) }
        ensures refused { IfErr result (SetRefusal (length (joined (named self.old) (n ∷ [])))) }

        ensures resident { (m : ℕ) → resident self.old m → resident self.new m }
        ensures homes { homes self.new ≡ homes self.old }
        ensures next { next self.new ≡ next self.old }
        ensures down { down self.new ≡ down self.old }
        ensures device { KeepsDevice (honest self.old) (honest self.new) (faults self.old) (faults self.new) ⊥ };

    /// Lays images over pages, all of them or none, and moves the first page that was never used on to `unused`, which isn't
    /// before it.
    fn lay(&mut self, images: Vec<(u64, Page)>, unused: u64) -> Result<(), PageError>
        requires below { AreBelow (homes self.old) (pages_of images.items) }
        requires distinct { AreDistinct (pages_of images.items) }
        requires onward { next self.old ≤ unused }
        ensures ok { OnOk result ((start : Start) (shown : List (List ℕ)) → shows self.old start shown → shows self.new start (laid images.items shown)) }
        ensures err { OnErr result ((start : Start) (shown : List (List ℕ)) → shows self.old start shown → shows self.new start shown) }
        ensures named { OnOk result (named self.new ≡ joined (named self.old) (pages_of images.items)) }
        ensures as_named { OnErr result (named self.new ≡ named self.old) }
        ensures next { OnOk result (next self.new ≡ unused) }
        ensures as_next { OnErr result (next self.new ≡ next self.old) }

        ensures room { OnOk result (unused ≤ homes self.old) }
        ensures few { OnOk result (length (joined (named self.old) (pages_of images.items)) ≤ 31) }
        ensures refused { IfErr result (LayRefusal (homes self.old) unused (length (joined (named self.old) (pages_of images.items)))) }

        ensures resident { (m : ℕ) → resident self.old m → resident self.new m }
        ensures homes { homes self.new ≡ homes self.old }
        ensures down { down self.new ≡ down self.old }
        ensures device { KeepsDevice (honest self.old) (honest self.new) (faults self.old) (faults self.new) ⊥ };

    /// The next page that was never used. It has to be set before it is read.
    fn fresh(&mut self) -> Result<u64, PageError>
        ensures ok { IfOk result (λ n. (n ≡ next self.old) × (n < homes self.old) × (next self.new ≡ next self.old + 1)) }
        ensures full { OnErr result ((homes self.old ≤ next self.old) × (next self.new ≡ next self.old)) }
        ensures refused { IfErr result (λ e. e ≡ PageError.PagesFull) }
        ensures same { (start : Start) (shown : List (List ℕ)) → shows self.old start shown → shows self.new start shown }
        ensures resident { (m : ℕ) → resident self.old m → resident self.new m }
        ensures homes { homes self.new ≡ homes self.old }
        ensures named { named self.new ≡ named self.old }
        ensures down { down self.new ≡ down self.old }
        ensures device { KeepsDevice (honest self.old) (honest self.new) (faults self.old) (faults self.new) ⊥ };

    /// How many pages there are. They are numbered from 0.
    fn home_pages(&self) -> u64
        ensures { result ≡ homes self.now };

    /// How many pages have images: at most 31.
    fn images(&self) -> usize
        ensures { result ≡ length (named self.now) };

    /// The next page that was never used.
    fn next_page(&self) -> u64
        ensures { result ≡ next self.now };

    /// All pages are shown.
    ghost count: { (pages : Self) (start : Start) (shown : List (List ℕ)) → shows pages start shown → length shown ≡ homes pages };

    /// A page that has an image is in memory.
    ghost held: { (pages : Self) (n : ℕ) → IsListed n (named pages) → resident pages n };

    /// At most 31 pages have images.
    ghost few: { (pages : Self) → length (named pages) ≤ 31 };

    /// No page is named twice.
    ghost distinct: { (pages : Self) → AreDistinct (named pages) };

    /// Each page that is named exists.
    ghost below: { (pages : Self) → AreBelow (homes pages) (named pages) };

    /// The first page that was never used is one of them, or the one after the last.
    ghost last: { (pages : Self) → next pages ≤ homes pages };
}
