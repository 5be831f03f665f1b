//! What a pen may still be used for.

ghost use Rattle.std.specs.Prelude.{◌≡◌};
ghost use Rattle.disk_files.specs.Burnt.{is_broken_state};

/// What a pen may be used for, and what the call that stopped it may have lost.
#[derive(Clone, Copy, Debug, PartialEq, Eq)]
pub(crate) enum PenState {
    /// Nothing has failed since its files were opened or renewed.
    Usable,
    /// Each call fails, after a burn that wrote nothing, or a renewal that failed.
    Broken,
    /// Each call fails. The burn of this block failed, and may have left anything there.
    FailedBurn(u64),
    /// Each call fails. A settle failed: what wasn't settled may be lost.
    FailedSettle,
}

impl PenState {
    /// Whether each call fails.
    pub(crate) fn is_broken(self) -> bool
        ensures { result ≡ is_broken_state self }
    {
        !matches!(self, PenState::Usable)
    }
}
