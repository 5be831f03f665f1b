//! The digest of a block: its last 32 octets are the SHA-256 (FIPS 180-4) of those before them.
ghost use Rattle.std.specs.Prelude.{◌≡◌, ◌↔◌, ℕ, List, IsTrue, length};
ghost use Rattle.once_store.specs.Digests.{IsWhole, body_of, sealed};

use disk_models::Block;
use sha2::{Digest, Sha256};

/// The octets of a block that its digest covers, from the first one on.
pub const BODY_SIZE: usize = 16_352;

/// The octets of the digest.
pub const DIGEST_SIZE: usize = 32;

/// Writes the digest of a block's body after the body, over what was there.
pub fn seal(block: &mut Block)
    ensures sealed { block.new ≡ sealed block.old }
{
    let (body, _) = block.octets().split_at(BODY_SIZE);
    let digest = Sha256::digest(body);
    block.put(BODY_SIZE, &digest);
}

/// Whether a block ends in the digest of its body.
pub fn is_whole(block: &Block) -> bool
    ensures whole { IsTrue result ↔ IsWhole block.now }
{
    let (body, digest) = block.octets().split_at(BODY_SIZE);
    Sha256::digest(body).as_slice() == digest
}

/// A sealed block is whole, and its body is unchanged.
pub fn sealed_blocks_are_whole()
    ensures whole { (block : List ℕ) → length block ≡ 16384 → IsWhole (sealed block) }
    ensures body { (block : List ℕ) → length block ≡ 16384 → body_of (sealed block) ≡ body_of block }
{}
