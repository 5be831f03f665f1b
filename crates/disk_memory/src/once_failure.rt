//! Which calls of a write-once disk fail.

ghost use Rattle.std.specs.Prelude.{◌≡◌, ◌==◌, ℕ, List, Bool, Option, IfOk, option_copied};
ghost use Rattle.disk_memory.specs.OnceFailure.{burn_failure_at, is_blank_failure, is_look_failure, is_settle_failure, failing_reads_of};
ghost use Rattle.std.specs.List.{list_any};

use crate::torn::Torn;
use std::alloc::{AllocError, Global};

/// A call that fails, given by its kind and by its number among the calls of that kind, from 0.
#[derive(Drop)]
pub enum OnceFailure {
    /// A look whether a block is blank.
    Blank(u64),
    /// A burn, with what comes to stand at its block.
    Burn(u64, Torn),
    /// A settle, which settles nothing.
    Settle(u64),
    /// A look at what is settled.
    Look(u64),
    /// A read, of each `Seen` that is made from here on.
    Read(u64),
}

impl OnceFailure {
    /// Whether it is of this look for a blank block.
    pub(crate) fn is_blank(&self, number: u64) -> bool
        ensures { result ≡ is_blank_failure number self.now }
    {
        match self {
            OnceFailure::Blank(n) => *n == number,
            _ => false,
        }
    }

    /// Whether it is of this settle.
    pub(crate) fn is_settle(&self, number: u64) -> bool
        ensures { result ≡ is_settle_failure number self.now }
    {
        match self {
            OnceFailure::Settle(n) => *n == number,
            _ => false,
        }
    }

    /// Whether it is of this look.
    pub(crate) fn is_look(&self, number: u64) -> bool
        ensures { result ≡ is_look_failure number self.now }
    {
        match self {
            OnceFailure::Look(n) => *n == number,
            _ => false,
        }
    }
}

/// What this burn leaves, if it is to fail.
pub(crate) fn burn_failure(script: &[OnceFailure], number: u64) -> Option<&Torn>
    ensures { option_copied result ≡ burn_failure_at number script.now }
{
    for failure in script {
        if let OnceFailure::Burn(n, torn) = failure {
            if *n == number {
                return Some(torn);
            }
        }
    }
    None
}

/// The numbers of the reads that are to fail.
pub(crate) fn failing_reads(alloc: Global, script: &[OnceFailure]) -> Result<Vec<u64>, AllocError>
    ensures { IfOk result (λ numbers. numbers.items ≡ failing_reads_of script.now) }
{
    let mut numbers = Vec::new(alloc);
    for failure in script {
        if let OnceFailure::Read(n) = failure {
            numbers.push(*n)?;
        }
    }
    Ok(numbers)
}

/// Whether the script has this look for a blank block fail.
pub(crate) fn has_blank(script: &[OnceFailure], number: u64) -> bool
    ensures { result ≡ list_any (λ failure. is_blank_failure number failure) script.now }
{
    script.iter().any(|failure| failure.is_blank(number))
}

/// Whether the script has this settle fail.
pub(crate) fn has_settle(script: &[OnceFailure], number: u64) -> bool
    ensures { result ≡ list_any (λ failure. is_settle_failure number failure) script.now }
{
    script.iter().any(|failure| failure.is_settle(number))
}

/// Whether the script has this look fail.
pub(crate) fn has_look(script: &[OnceFailure], number: u64) -> bool
    ensures { result ≡ list_any (λ failure. is_look_failure number failure) script.now }
{
    script.iter().any(|failure| failure.is_look(number))
}
