//! The one reading loop: a file is framed in pieces, and what counts its items gets those of each piece.

use anyhow::{Context, Result};
use mrt_records::{Framer, Item};
use std::alloc::Global;
use std::fs::File;
use std::io::Read;

/// How many octets a piece has where the command doesn't say.
pub const PIECE: usize = 65_536;

/// What counts the items of a file.
pub trait Counter {
    /// Counts these items, the next ones of the file.
    fn count(&mut self, alloc: Global, items: &[Item]);
}

/// Adds to a count, which wraps around after its last value.
pub fn more(count: &mut u64, by: usize) {
    *count = count.wrapping_add(by as u64);
}

/// Frames a file in pieces of `piece` octets and has its items counted. None is kept.
///
/// # Errors
///
/// Where the file can't be opened or read, or doesn't end after a whole record.
pub fn count_file<C: Counter>(
    rt: &HostRuntime,
    path: &str,
    piece: usize,
    counter: &mut C,
) -> Result<()> {
    let alloc = rt.alloc();
    let mut file = File::open(rt, path).context("the file can't be opened")?;
    let mut piece = vec![in alloc; 0u8; piece]?;
    let mut framer = Framer::new(alloc);
    let mut items = Vec::new(alloc);
    for _ in 0..u64::MAX {
        let read = file.read(&mut piece).context("the file can't be read")?;
        if read == 0 {
            break;
        }
        framer.feed(&piece[..read], &mut items)?;
        counter.count(alloc, &items);
        items.clear();
    }
    framer.finish()?;
    Ok(())
}
