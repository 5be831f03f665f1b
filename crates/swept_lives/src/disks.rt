//! Both disks below an archive: copied, cut off at a call, torn by a crash, and opened.

use disk_archive::{Archive, OpenError, Refused};
use disk_memory::{Burn, MemErase, MemOnce, MemPen, Torn, crash_all};
use std::alloc::Global;
use std::sync::Arc;

/// Both disks, with the pen of the write-once one.
pub struct Both {
    pub erase: MemErase,
    pub once: Arc<MemOnce>,
    pub pen: MemPen,
}

/// An archive on them.
pub struct Played {
    pub archive: Archive<MemErase, MemOnce>,
}

// These drops are written out so that a crate above calls them, and doesn't prove the drop of each type inside once more.

impl Drop for Both {
    fn drop(self) {
        let Both {
            erase: _erase,
            once: _once,
            pen: _pen,
        } = self;
    }
}

impl Drop for Played {
    fn drop(self) {
        let Played { archive } = self;
        let (_erase, _once, _pen) = archive.into_disks();
    }
}

/// One of both.
#[derive(Clone, Copy)]
pub enum Disk {
    Erasable,
    Once,
}

/// The kinds of what a range holds that a crash tears.
pub const KINDS: u64 = 4;

/// The ways in which a life may be stopped: a crash of each kind, or the end of the program alone, after which the disks still have what
/// isn't synced.
pub const WAYS: u64 = 5;

/// What a crash of this kind tears a range to.
pub fn torn(kind: u64) -> Torn {
    match kind {
        0 => Torn::Old,
        1 => Torn::New,
        2 => Torn::Half,
        _ => Torn::Gate,
    }
}

/// The disks that an opening handed back, and why.
#[derive(Drop)]
pub struct Handed {
    pub disks: Both,
    pub error: OpenError,
}

fn handed_back(refused: Refused<MemErase, MemOnce, OpenError>) -> Handed {
    let Refused {
        erase,
        once,
        pen,
        error,
    } = refused;
    Handed {
        disks: Both { erase, once, pen },
        error,
    }
}

impl Both {
    /// What opening them returns. It takes no memory but the archive's.
    pub fn open(self, alloc: Global) -> Result<Played, Handed> {
        let Both { erase, once, pen } = self;
        match Archive::open(alloc, erase, once, pen) {
            Ok(archive) => Ok(Played { archive }),
            Err(refused) => Err(handed_back(refused)),
        }
    }

    /// The same disks once more. No failure is to come.
    pub fn copy(&self) -> Option<Both> {
        let once = self.once.clone().ok()?;
        let (_, pen) = self.once.copy(&self.pen).ok()?;
        let erase = self.erase.copy().ok()?;
        Some(Both { erase, once, pen })
    }

    /// Cuts one of them off at its k-th call that writes, the first one being 1.
    pub fn cut(&mut self, disk: Disk, k: u64) {
        match disk {
            Disk::Erasable => self.erase.stop_at(k),
            Disk::Once => self.once.stop_at(&mut self.pen, k),
        }
    }

    /// Whether a call was cut off.
    pub fn are_cut(&self) -> bool {
        self.erase.is_stopped() || self.pen.has_stopped()
    }

    /// The disks after a stop of this way now. A crash tears all that it may change in one way.
    pub fn stop(&self, way: u64) -> Option<Both> {
        if way >= KINDS {
            return self.copy();
        }
        let once = self.once.clone().ok()?;
        let torn = torn(way);
        let (erase, _, pen) = crash_all(&self.erase, &self.once, &self.pen, &torn).ok()?;
        Some(Both { erase, once, pen })
    }
}

impl Played {
    /// Its disks.
    pub fn given_up(self) -> Both {
        let Played { archive } = self;
        let (erase, once, pen) = archive.into_disks();
        Both { erase, once, pen }
    }
}

/// The number after these burns, where each is of a higher one than all before, from this one on; or of the next one, where none may be
/// passed over.
pub fn numbered(burns: &[Burn], from: u64, may_skip: bool) -> Option<u64> {
    let mut next = from;
    for burn in burns {
        let number = burn.number();
        if number < next || number > next && !may_skip {
            return None;
        }
        next = number.saturating_add(1);
    }
    Some(next)
}
