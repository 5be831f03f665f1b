//! Why no further change of a step is planned.

ghost use Rattle.std.specs.Prelude.{◌≡◌};

use crate::apply_error::ApplyError;
use crate::change_error::ChangeError;

/// Why no further change of a step is planned.
#[derive(Clone, Copy, Debug, PartialEq, Eq)]
pub(crate) enum Stop {
    /// None may be applied, the next one is refused, or its images have no room. What is planned can be committed.
    Enough,
    /// A device failed.
    Failed,
}

impl From<ApplyError> for Stop {
    ghost use Rattle.disk_archive.specs.inner.Applications.{stop_of};

    ghost from_gives = { λ refusal stop. stop ≡ stop_of refusal };

    fn from(refusal: ApplyError) -> Self {
        match refusal {
            ApplyError::Fault => Stop::Failed,
            ApplyError::NeedsRecovery
            | ApplyError::CounterFull
            | ApplyError::TooHigh
            | ApplyError::PagesFull
            | ApplyError::OnceFull
            | ApplyError::BadNode(_)
            | ApplyError::OutOfMemory => Stop::Enough,
        }
    }
}

impl From<ChangeError> for Stop {
    ghost use Rattle.disk_archive.specs.inner.Applications.{stop_of_change};

    ghost from_gives = { λ refusal stop. stop ≡ stop_of_change refusal };

    fn from(refusal: ChangeError) -> Self {
        match refusal {
            ChangeError::NoRoom => Stop::Enough,
            ChangeError::Apply(refusal) => Stop::from(refusal),
        }
    }
}
