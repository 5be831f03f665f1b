//! Both disks in memory: they follow their models, and fail, tear and crash by a script.
//!
//! They are for tests, and for an archive that needs no file. A disk keeps each write that it was given, since
//! the models have crashes "at some moment since then": its memory grows with what was written to it.
//!
//! A read replays the writes from the last one that covers its range whole. Writes and successful syncs are recorded,
//! reads and failed syncs aren't: the record's length is the clock of the models, which reads leave as it is. Octets
//! are shared by `Arc` between a disk, its copies, the disks that crashes give, and what readers know: so a copy or a
//! crash costs a few octets a call, and not the pages.
//!
//! A script names a call by its kind and its number among the calls of that kind. A failed write leaves what the
//! script says ([`Torn`]), and its range is unsynced. A disk that stops at a call (`stop_at`) leaves that call's
//! write with all its octets, unsynced: so one stopped run covers each crash inside the call, and the crash chooses
//! what of it came through.
//!
//!     calls     .. write  sync  write    write            since the last sync nothing is sure
//!     choice                    old      half      ..     of each unsynced write in turn, one entry; beyond its end old octets
//!
//! After a crash a burn that waited and came through whole is settled; the octets of another one are there, but no
//! reader knows them. So tests see an orphan block that is known, and one that is torn. A `Seen` has the numbers of its
//! reads that fail, from the pen's script, since tests can't reach the reads that an engine makes inside.
#![tactic(auto)]

mod both;
mod burn;
mod call;
mod erase;
mod failure;
mod lay;
mod once;
mod once_failure;
mod pen;
mod seen;
mod torn;

pub use both::{crash_all, crash_both};
pub use burn::Burn;
pub use call::{Call, Written};
pub use erase::MemErase;
pub use failure::Failure;
pub use once::MemOnce;
pub use once_failure::OnceFailure;
pub use pen::MemPen;
pub use seen::MemSeen;
pub use torn::Torn;
