//! What a range holds that a failure or a crash may have changed.

ghost use Rattle.std.specs.Prelude.{◌≡◌, ◌≤◌, ◌+◌, ◌-◌, ◌/◌, ◌++◌, ℕ, List, length, take, replicate, IfOk};
ghost use Rattle.disk_memory.specs.Torn.{torn_octets};

use std::alloc::{AllocError, Global};

/// What a range holds after a write that failed, or after a crash before it was synced. A crash tears what the write
/// left, even where that one failed.
#[derive(Drop)]
pub enum Torn {
    /// What it held before.
    Old,
    /// What was being written.
    New,
    /// The first half of what was being written, and FF in the rest.
    Half,
    /// A5 in every octet. A gate that was being written is open then.
    Gate,
    /// These octets from its start on, as many as fit, and after them what it held before.
    Octets(Vec<u8>),
}

impl Torn {
    /// The octets that are laid over the range, where `new` was being written.
    pub fn octets(&self, alloc: Global, new: &[u8]) -> Result<Vec<u8>, AllocError>
        ensures { IfOk result (λ octets. octets.items ≡ torn_octets self.now new.now) }
    {
        match self {
            Torn::Old => Ok(Vec::new(alloc)),
            Torn::New => new.to_vec(alloc),
            Torn::Half => half(alloc, new),
            Torn::Gate => vec![in alloc; 0xa5; new.len()],
            Torn::Octets(octets) => octets.as_slice().to_vec(alloc),
        }
    }
}

fn half(alloc: Global, new: &[u8]) -> Result<Vec<u8>, AllocError>
    ensures { IfOk result (λ octets. octets.items ≡ take (length new.now / 2) new.now ++ replicate (length new.now - length new.now / 2) 255) }
{
    let kept = new.len() / 2;
    let mut octets = vec![in alloc; 255; new.len() - kept]?;
    let mut all = new[..kept].to_vec(alloc)?;
    all.append(&mut octets)?;
    Ok(all)
}
