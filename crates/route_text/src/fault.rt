//! Why a text could not be read.

ghost use Rattle.std.specs.Prelude.{◌≡◌};
ghost use Rattle.route_text.specs.declared.fault.TextError.TheVariants as faults;

use std::alloc::{AllocError, AllocFailed};
use thiserror::Error;

/// The text is none of those that were asked for.
#[derive(Clone, Copy, Debug, PartialEq, Eq, Error)]
#[error("not a text of the kind that was asked for")]
pub struct BadText;

/// Why a text whose value takes memory could not be read.
#[derive(Clone, Copy, Debug, PartialEq, Eq, Error)]
pub enum TextError {
    /// The text is none of those that were asked for.
    #[error("not a text of the kind that was asked for")]
    BadText,
    /// An allocation failed.
    #[error("out of memory")]
    OutOfMemory,
}

impl From<BadText> for TextError {
    ghost from_gives = { λ _ e. e ≡ faults.BadText };

    fn from(_e: BadText) -> TextError {
        TextError::BadText
    }
}

impl From<AllocError> for TextError {
    ghost from_gives = { λ _ e. e ≡ faults.OutOfMemory };

    fn from(_e: AllocError) -> TextError {
        TextError::OutOfMemory
    }
}

impl<T: Drop> From<AllocFailed<T>> for TextError {
    ghost from_gives = { λ _ e. e ≡ faults.OutOfMemory };

    fn from(_e: AllocFailed<T>) -> TextError {
        TextError::OutOfMemory
    }
}
