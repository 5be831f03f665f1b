//! A life in which memory is refused once, where `tools/refuse-memory` runs it. Elsewhere nothing is refused in it.

use crate::failing::faults;
use crate::refused::{Refusal, Trial, end, live};
use crate::{be_at, copied};
use std::alloc::Global;
use std::process::Abort;
use swept_lives::{RISING, prepare};

/// The tool counts allocations after one of this size, up to one of the other size.
const FIRST: usize = 70_001;

const LAST: usize = 70_003;

/// Takes memory of this size, and gives it back.
fn take(rt: &impl Abort, alloc: Global, size: usize) {
    let octets = vec![in alloc; 1u8; size].expect(rt, "memory");
    be_at(rt, octets.ends_with(&[1]), "octets", size as u64);
}

#[test]
fn a_life_answers_the_same_where_memory_is_refused(rt: HostRuntime) {
    let stage = prepare(rt.alloc(), &RISING).expect(&rt, "a stage");
    let disks = copied(&rt, &stage.disks);
    let mut trial = Trial {
        refusal: Refusal::Memory,
        number: 0,
        refused: 0,
    };
    take(&rt, rt.alloc(), FIRST);
    let disks = live(&rt, &mut trial, &stage, disks);
    take(&rt, rt.alloc(), LAST);
    let is_returned = faults(&disks) <= trial.refused;
    be_at(&rt, is_returned, "a failure is returned", 0);
    end(&rt, &trial, &stage, &disks);
}
