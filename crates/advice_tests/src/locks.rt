//! Which process has an archive.

use crate::be;
use advice::holder_of;

/// The list of locks, as Linux keeps it: of device 254:0, 8:17 and 259:300.
const LOCKS: &str = "1: POSIX  ADVISORY  WRITE 700 fe:00:1001 0 EOF
2: FLOCK  ADVISORY  WRITE 701 fe:00:1002 0 EOF
3: FLOCK  ADVISORY  WRITE 702 08:11:1002 0 EOF
3: -> FLOCK  ADVISORY  WRITE 703 08:11:1003 0 EOF
4: FLOCK  ADVISORY  WRITE 704 103:12c:1004 0 EOF
5: FLOCK  ADVISORY  READ  705 08:11:1005 0 EOF
6: FLOCK  ADVISORY  READ  706 08:11:1005 0 EOF
";

/// Devices and inodes, and the process that has the file.
const HOLDERS: [(u64, u64, Option<u32>); 7] = [
    (0xfe00, 1002, Some(701)),
    (0x0811, 1002, Some(702)),
    (0x0011_032c, 1004, Some(704)),
    // Of those who share it, the first.
    (0x0811, 1005, Some(705)),
    (0xfe00, 1001, None),
    (0x0811, 1003, None),
    (0xfe00, 1004, None),
];

#[test]
fn the_process_that_has_a_file_is_found(rt: HostRuntime) {
    for (device, inode, expected) in &HOLDERS {
        be(
            &rt,
            holder_of(LOCKS, *device, *inode) == *expected,
            "a holder",
        );
    }
}
