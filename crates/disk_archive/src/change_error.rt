//! Why a change isn't planned.

ghost use Rattle.std.specs.Prelude.{◌≡◌, ◌≢◌, ◌<◌, ◌+◌, ◌⊎◌, ◌↔◌, ℕ, Bool, true};
ghost use Rattle.once_store.specs.declared.error.AppendError.TheVariants as appends;
ghost use Rattle.page_tx.specs.declared.error.PageError.TheVariants as pages;
ghost use Rattle.disk_archive.specs.declared.apply_error.ApplyError.TheVariants as applies;
ghost use Rattle.disk_archive.specs.declared.change_error.ChangeError.TheVariants as changes;
ghost use Rattle.disk_archive.specs.inner.Applications.{ApplyRefusal, LimitRefusal, OfApply};

use crate::apply_error::ApplyError;
use once_store::AppendError;
use page_tx::PageError;
use std::alloc::AllocError;
use tsb_tree::TreeError;

/// Why a change isn't planned.
#[derive(Clone, Copy, Debug, PartialEq, Eq)]
pub(crate) enum ChangeError {
    /// The transaction has no room for the images that it needs. The first change of a transaction always has room.
    NoRoom,
    /// It isn't applied.
    Apply(ApplyError),
}

impl From<ApplyError> for ChangeError {
    ghost from_gives = { λ refusal e. e ≡ changes.Apply refusal };

    fn from(refusal: ApplyError) -> Self {
        ChangeError::Apply(refusal)
    }
}

impl From<AllocError> for ChangeError {
    ghost from_gives = { λ _ e. e ≡ changes.Apply applies.OutOfMemory };

    fn from(_: AllocError) -> Self {
        ChangeError::Apply(ApplyError::OutOfMemory)
    }
}

/// A refusal of the tree, where the stamp isn't below the least one.
pub(crate) fn of_tree(refusal: TreeError) -> ChangeError
    requires back { refusal ≢ TreeError.StampBack }
    requires damaged { (block : ℕ) → refusal ≢ TreeError.Damaged block }
    ensures room { result ≡ ChangeError.NoRoom → refusal ≡ TreeError.Pages pages.TooManyImages }
    ensures bad { (page : ℕ) → result ≡ ChangeError.Apply (ApplyError.BadNode page) → refusal ≡ TreeError.BadNode page }
    ensures once { result ≡ ChangeError.Apply ApplyError.OnceFull → refusal ≡ TreeError.Once appends.OnceFull }
    ensures high { result ≡ ChangeError.Apply ApplyError.TooHigh → refusal ≡ TreeError.TooHigh }
    ensures full { result ≡ ChangeError.Apply ApplyError.PagesFull → refusal ≡ TreeError.Pages pages.PagesFull }
    ensures fault { (result ≡ ChangeError.Apply ApplyError.Fault) ↔ ((refusal ≡ TreeError.Pages pages.Fault) ⊎ (refusal ≡ TreeError.Once appends.Fault)) }
    ensures limits { (homes next count : ℕ) → (refusal ≡ TreeError.Pages pages.PagesFull → homes < next + 9) → OfApply (LimitRefusal homes next count) result }
    ensures refused { (down : Bool) → (refusal ≡ TreeError.Pages pages.NeedsRecovery → down ≡ true) → OfApply (ApplyRefusal down) result }
{
    match refusal {
        TreeError::TooHigh => ChangeError::Apply(ApplyError::TooHigh),
        TreeError::BadNode(page) => ChangeError::Apply(ApplyError::BadNode(page)),
        TreeError::Pages(PageError::TooManyImages) => ChangeError::NoRoom,
        TreeError::Pages(PageError::Fault) => ChangeError::Apply(ApplyError::Fault),
        TreeError::Pages(PageError::NeedsRecovery) => ChangeError::Apply(ApplyError::NeedsRecovery),
        TreeError::Pages(PageError::PagesFull) => ChangeError::Apply(ApplyError::PagesFull),
        TreeError::Pages(PageError::OutOfMemory) => ChangeError::Apply(ApplyError::OutOfMemory),
        TreeError::Once(AppendError::Fault) => ChangeError::Apply(ApplyError::Fault),
        TreeError::Once(AppendError::OnceFull) => ChangeError::Apply(ApplyError::OnceFull),
        TreeError::OutOfMemory => ChangeError::Apply(ApplyError::OutOfMemory),
        TreeError::StampBack | TreeError::Damaged(_) => unreachable!(),
    }
}
