//! Creations that are cut off at each kind of call.

use crate::acts::{Act, Batch, Birth, Stop, Tear};
use crate::lives::live;
use archive_pages::Settings;
use std::alloc::Global;
use std::process::Abort;

const SETTINGS: Settings = Settings {
    collectors: 1,
    ring: 9,
};

const SCRIPT: [Act; 5] = [
    Act::Admit(0, Batch::Empty(3, 100)),
    Act::Mark(0, 200),
    Act::Apply,
    Act::Crash(Tear::Old, Stop::Never),
    Act::Ask(150),
];

/// A creation is cut off at a write or sync, and a crash tears what isn't synced: an archive comes of it, on which the script is played, or
/// none does.
fn cut(rt: &impl Abort, alloc: Global, stop: u64, tear: Tear, lives: bool) {
    let birth = Birth::CutOff(tear, Stop::Erase(stop));
    let life = live(alloc, 300, 8, SETTINGS, birth, &SCRIPT);
    assert!(rt; life.is_some() == lives, "{stop}");
}

// The disk is synced; eight commit flags, three pages and the identity page but for its first octet are written, and synced; then that
// octet is written, and synced.
#[test]
fn creations_are_cut_off(rt: HostRuntime) {
    cut(&rt, rt.alloc(), 1, Tear::New, false);
    cut(&rt, rt.alloc(), 2, Tear::Gate, false);
    cut(&rt, rt.alloc(), 12, Tear::New, false);
    cut(&rt, rt.alloc(), 13, Tear::New, false);
    cut(&rt, rt.alloc(), 14, Tear::New, false);
    cut(&rt, rt.alloc(), 15, Tear::Old, false);
    cut(&rt, rt.alloc(), 15, Tear::Gate, false);
    cut(&rt, rt.alloc(), 15, Tear::New, true);
    cut(&rt, rt.alloc(), 16, Tear::Half, false);
    cut(&rt, rt.alloc(), 16, Tear::New, true);
    cut(&rt, rt.alloc(), 17, Tear::Old, true);
}
