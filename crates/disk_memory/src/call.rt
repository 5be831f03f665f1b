//! What an erasable disk in memory remembers of its calls.

ghost use Rattle.std.specs.Prelude.{◌≡◌, ℕ, List, length, IfOk, option_copied, Option};
ghost use Rattle.disk_memory.specs.Writing.{Writing};
ghost use Rattle.disk_memory.specs.Torn.{torn_octets};
ghost use Rattle.disk_memory.specs.inner.Failing.{octets_kept};

use crate::torn::Torn;
use std::alloc::{AllocError, Global};
use std::marker::Model;
use std::sync::Arc;

/// A write: its range, and the octets that came to stand from its start on. Contracts see them as a record.
#[derive(Drop)]
pub struct Written {
    at: u64,
    length: u64,
    octets: Arc<Vec<u8>>,
}

impl Model for Written {
    ghost use Rattle.std.specs.Arc.{arc_value};
    ghost use Rattle.disk_memory.specs.Writing.{Writing};

    ghost Value = { Writing };

    ghost view = { λ w. record { at = w.at; length = w.length; octets = (arc_value w.octets).items } };
}

/// A call that left something on the disk.
#[derive(Drop)]
pub enum Call {
    /// A write, whether it succeeded or not.
    Write(Written),
    /// A sync that succeeded.
    Sync,
}

impl Written {
    /// Where its range begins.
    pub fn at(&self) -> u64
        ensures { result ≡ self.now.at }
    {
        self.at
    }

    /// How many octets its range has.
    pub fn length(&self) -> u64
        ensures { result ≡ self.now.length }
    {
        self.length
    }

    /// The octets that came to stand there from the range's start on. A failed write may leave fewer than its range has.
    pub fn octets(&self) -> &[u8]
        ensures { result.now ≡ self.now.octets }
    {
        &self.octets
    }

    /// A write of these octets, or what a failure leaves of it.
    pub(crate) fn new(
        alloc: Global,
        at: u64,
        from: &[u8],
        failure: Option<&Torn>,
    ) -> Result<Written, AllocError>
        ensures { IfOk result (λ write. write ≡ record { at = at; length = length from.now; octets = octets_kept (option_copied failure.entry) from.now }) }
    {
        let octets = match failure {
            None => from.to_vec(alloc)?,
            Some(torn) => torn.octets(alloc, from)?,
        };
        Ok(Written {
            at,
            length: from.len() as u64,
            octets: Arc::new(alloc, octets)?,
        })
    }

    /// What a crash leaves of it.
    pub(crate) fn torn(&self, alloc: Global, torn: &Torn) -> Result<Written, AllocError>
        ensures { IfOk result (λ write. write ≡ record self.now { octets = torn_octets torn.now self.now.octets }) }
    {
        let octets = torn.octets(alloc, &self.octets)?;
        Ok(Written {
            at: self.at,
            length: self.length,
            octets: Arc::new(alloc, octets)?,
        })
    }
}

impl Clone for Written {
    ghost is_clone = { λ one other. other ≡ one };

    fn clone(&self) -> Result<Written, AllocError> {
        Ok(Written {
            at: self.at,
            length: self.length,
            octets: self.octets.clone()?,
        })
    }
}

impl Clone for Call {
    ghost is_clone = { λ one other. other ≡ one };

    fn clone(&self) -> Result<Call, AllocError> {
        match self {
            Call::Write(write) => Ok(Call::Write(write.clone()?)),
            Call::Sync => Ok(Call::Sync),
        }
    }
}
