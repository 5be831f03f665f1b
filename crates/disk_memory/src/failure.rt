//! Which calls fail.

ghost use Rattle.std.specs.Prelude.{◌≡◌, ◌==◌, ℕ, List, Bool, Option, option_copied};
ghost use Rattle.disk_memory.specs.Failure.{cut_failure, is_read_failure, is_sync_failure, write_failure_at};
ghost use Rattle.std.specs.List.{list_any};

use crate::torn::Torn;

/// A call that fails, by its kind and by its number among the calls of that kind, from 0.
#[derive(Drop)]
pub enum Failure {
    /// A read.
    Read(u64),
    /// A write, with what its range holds afterwards.
    Write(u64, Torn),
    /// A sync.
    Sync(u64),
}

impl Failure {
    /// Whether it is of this read.
    pub(crate) fn is_read(&self, number: u64) -> bool
        ensures { result ≡ is_read_failure number self.now }
    {
        match self {
            Failure::Read(n) => *n == number,
            _ => false,
        }
    }

    /// Whether it is of this sync.
    pub(crate) fn is_sync(&self, number: u64) -> bool
        ensures { result ≡ is_sync_failure number self.now }
    {
        match self {
            Failure::Sync(n) => *n == number,
            _ => false,
        }
    }
}

/// What this write leaves, if it is to fail.
pub(crate) fn write_failure(script: &[Failure], number: u64) -> Option<&Torn>
    ensures { option_copied result ≡ write_failure_at number script.now }
{
    for failure in script {
        if let Failure::Write(n, torn) = failure {
            if *n == number {
                return Some(torn);
            }
        }
    }
    None
}

/// What a write or a burn leaves, if it fails: all of it, if it is cut off, or else what the script has.
pub(crate) fn cut_or<'a>(cut: bool, whole: &'a Torn, scripted: Option<&'a Torn>) -> Option<&'a Torn>
    requires { whole.now ≡ Torn.New }
    ensures { option_copied result ≡ cut_failure cut (option_copied scripted.entry) }
{
    if cut { Some(whole) } else { scripted }
}

/// Whether the script has this read fail.
pub(crate) fn has_read(script: &[Failure], number: u64) -> bool
    ensures { result ≡ list_any (λ failure. is_read_failure number failure) script.now }
{
    script.iter().any(|failure| failure.is_read(number))
}

/// Whether the script has this sync fail.
pub(crate) fn has_sync(script: &[Failure], number: u64) -> bool
    ensures { result ≡ list_any (λ failure. is_sync_failure number failure) script.now }
{
    script.iter().any(|failure| failure.is_sync(number))
}
