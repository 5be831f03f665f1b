//! Both disks after the same crash.

use super::erase::{reads, sync, write};
use super::once::Burner;
use crate::be;
use disk_memory::{MemErase, Torn, crash_both};

#[test]
fn each_disk_has_a_choice_of_its_own(rt: HostRuntime) {
    let alloc = rt.alloc();
    let mut erase = MemErase::new(alloc, 8);
    let made = write(&mut erase, 0, b"settled!") && sync(&mut erase);
    be(
        &rt,
        made && write(&mut erase, 2, b"torn"),
        "four of eight octets are unsynced",
    );
    let mut burner = Burner::new(alloc, 4);
    be(
        &rt,
        burner.burn(alloc, 3, 7) == Some(true),
        "a block is burnt",
    );
    let (mut left, disk, pen) = crash_both(
        &erase,
        &burner.disk,
        &burner.pen,
        &[Torn::Half],
        &[Torn::New],
    )
    .expect(&rt, "a crash");
    let mut burner = Burner { disk, pen };
    be(
        &rt,
        reads(&mut left, 0, b"seto\xff\xffd!"),
        "half of a write",
    );
    be(&rt, burner.reads(alloc, 3, 7, 7), "a whole block");
    be(
        &rt,
        burner.burn(alloc, 3, 8) == Some(false),
        "it isn't blank",
    );
    be(&rt, burner.burn(alloc, 2, 8) == Some(true), "another is");
}
