//! Cuts a stream into records, whatever pieces it comes in.

ghost use Rattle.std.specs.Prelude.{◌≡◌, ℕ, List, [], ◌++◌, Err};
ghost use Rattle.mrt_records.specs.Records.{Over, BeginsWithRecord};
ghost use Rattle.mrt_records.specs.Feeding.{Fed, MayEnd, IsStream};
ghost use Rattle.mrt_records.specs.declared.framer.FrameError.TheVariants.{OutOfMemory, TooLong};

use crate::feeding::feed_held;
use crate::front::is_over;
use crate::item::Item;
use std::alloc::{AllocError, Global};
use std::marker::Model;
use thiserror::Error;

/// Why a stream isn't read further.
#[derive(Clone, Copy, Debug, PartialEq, Eq, Error)]
pub enum FrameError {
    /// The stream ended inside a record.
    #[error("the stream ended inside a record")]
    Truncated,
    /// The Length of a record is above 131,072.
    #[error("the length of a record is above 131072")]
    TooLong,
    /// An allocation failed.
    #[error("out of memory")]
    OutOfMemory,
}

impl From<AllocError> for FrameError {
    ghost from_gives = { λ _ e. e ≡ OutOfMemory };

    fn from(_e: AllocError) -> FrameError {
        FrameError::OutOfMemory
    }
}

/// Cuts a stream into records, whatever pieces it comes in.
#[derive(Drop)]
pub struct Framer {
    alloc: Global,
    held: Vec<u8>,
}

// A framer keeps the octets that belong to no whole record yet.
impl Model for Framer {
    ghost use Rattle.std.specs.Prelude.{ℕ, List};
    ghost use Rattle.mrt_records.specs.Records.{BeginsWithRecord};

    ghost Value = { List ℕ };

    ghost view = { λ f. f.held.items };

    ghost invariant = { λ f. BeginsWithRecord f.held.items → ⊥ };
}

impl Framer {
    /// A framer at the start of a stream.
    pub fn new(alloc: Global) -> Framer
        ensures empty { result ≡ [] }
    {
        Framer {
            alloc,
            held: Vec::new(alloc),
        }
    }

    /// Takes the next piece of the stream, and adds the items of the records that are whole now, in order.
    ///
    /// `TooLong`: the same, but what is left begins with a header whose Length is above 131,072; from then on
    /// each call returns that. `OutOfMemory`: nothing has changed, and the piece may be fed again.
    pub fn feed(&mut self, piece: &[u8], out: &mut Vec<Item>) -> Result<(), FrameError>
        ensures fed { Fed result (self.old ++ piece.now) self.old self.new out.old.items out.new.items }
        ensures ended { Over self.old → result ≡ Err TooLong }
    {
        if is_over(&self.held) {
            return Err(FrameError::TooLong);
        }
        if feed_held(self.alloc, &mut self.held, piece, out)? {
            return Err(FrameError::TooLong);
        }
        Ok(())
    }

    /// Whether the stream may end here: `Truncated` if octets of a record are left, `TooLong` if these
    /// are a header whose Length is above 131,072.
    pub fn finish(&self) -> Result<(), FrameError>
        ensures end { MayEnd result self.now }
    {
        if self.held.is_empty() {
            return Ok(());
        }
        let over = is_over(&self.held);
        Err(if over {
            FrameError::TooLong
        } else {
            FrameError::Truncated
        })
    }
}

/// The items of a stream that comes in these pieces, and whether it may end there. After `OutOfMemory` these are the items of the pieces before the one that
/// ran out of memory.
pub fn read_stream(alloc: Global, pieces: &[Vec<u8>], out: &mut Vec<Item>) -> Result<(), FrameError>
    // The items of all whole records are added, whatever the pieces.
    ensures stream { IsStream result pieces.now out.old.items out.new.items }
{
    let mut framer = Framer::new(alloc);
    for piece in pieces {
        framer.feed(piece, out)?;
    }
    framer.finish()
}
