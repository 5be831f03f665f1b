//! Numbers among octets, in network order, and what a reader of octets returns.
//!
//! The words that say what octets read as (a sequence of fields, a field at the front, exactly the
//! reading) are in `specs/Octets`, `specs/Sequence` and `specs/Reading`, their laws in
//! `proofs/Sequences` and `proofs/Readings`: readers of other crates are stated by them.

ghost use Rattle.std.specs.Prelude.{◌≡◌, ◌+◌, ◌<◌, ◌≤◌, ◌^◌, ◌++◌, ℕ, List, length, drop};
ghost use Rattle.std.specs.Int.{w16, w32, w64, from_be_bytes, to_be_bytes};
ghost use Rattle.route_model.specs.Octets.{number_at};
ghost use Rattle.route_model.specs.declared.octets.ReadFault.TheVariants.{OutOfMemory};

use byteorder::{BigEndian, ByteOrder};
use std::alloc::{AllocError, AllocFailed};

/// Why octets aren't read.
#[derive(Clone, Copy, Debug, PartialEq, Eq)]
pub enum ReadFault {
    /// They have no reading.
    Malformed,
    /// An allocation failed.
    OutOfMemory,
}

impl From<AllocError> for ReadFault {
    ghost from_gives = { λ _ e. e ≡ OutOfMemory };

    fn from(_e: AllocError) -> ReadFault {
        ReadFault::OutOfMemory
    }
}

impl<T: Drop> From<AllocFailed<T>> for ReadFault {
    ghost from_gives = { λ _ e. e ≡ OutOfMemory };

    fn from(_e: AllocFailed<T>) -> ReadFault {
        ReadFault::from(AllocError)
    }
}

/// The number of two octets at a place.
pub fn u16_at(octets: &[u8], place: usize) -> u16
    requires { place + 2 ≤ length octets.now }
    ensures number { result ≡ number_at 2 place octets.now }
{
    BigEndian::read_u16(&octets[place..])
}

/// The number of four octets at a place.
pub fn u32_at(octets: &[u8], place: usize) -> u32
    requires { place + 4 ≤ length octets.now }
    ensures number { result ≡ number_at 4 place octets.now }
{
    BigEndian::read_u32(&octets[place..])
}

/// The number of eight octets at a place.
pub fn u64_at(octets: &[u8], place: usize) -> u64
    requires { place + 8 ≤ length octets.now }
    ensures number { result ≡ number_at 8 place octets.now }
{
    BigEndian::read_u64(&octets[place..])
}

/// A number at a place is what std's `from_be_bytes` makes of the octets from there on.
pub fn numbers_agree()
    ensures two { (octets : List ℕ) (place : ℕ) → number_at 2 place octets ≡ from_be_bytes w16 (drop place octets) }
    ensures four { (octets : List ℕ) (place : ℕ) → number_at 4 place octets ≡ from_be_bytes w32 (drop place octets) }
    ensures eight { (octets : List ℕ) (place : ℕ) → number_at 8 place octets ≡ from_be_bytes w64 (drop place octets) }
{}

/// A number that was written is read again, wherever it stands.
pub fn numbers_read_again()
    ensures two { (front rest : List ℕ) (n : ℕ) → n < 2 ^ 16 → number_at 2 (length front) (front ++ (to_be_bytes w16 n ++ rest)) ≡ n }
    ensures four { (front rest : List ℕ) (n : ℕ) → n < 2 ^ 32 → number_at 4 (length front) (front ++ (to_be_bytes w32 n ++ rest)) ≡ n }
    ensures eight { (front rest : List ℕ) (n : ℕ) → n < 2 ^ 64 → number_at 8 (length front) (front ++ (to_be_bytes w64 n ++ rest)) ≡ n }
{}
