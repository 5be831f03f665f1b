//! Octets and pages of the erasable disk are changed. Each call returns then, and what can't be read is refused by its name.

use crate::{be_at, copied, opened};
use disk_archive::OpenError;
use std::alloc::Global;
use std::process::Abort;
use swept_lives::{
    Both, LONG, Outcome, PAGE, Played, RISING, Script, Stage, apply, check, flush, flush_all,
    laid_anew, lay, octets_of, prepare,
};

/// The octets of a page of the disk from one on and before another, which are set to 00 and to FF in turn: how many are another one then,
/// and with how many of these the disks are opened. Then questions are asked, and, of each step-th octet, all other calls are made.
struct Area {
    page: u64,
    from: u64,
    to: u64,
    step: u64,
    changed: u64,
    opened: u64,
}

/// How many octets were changed, and of how many the disks were opened.
#[derive(Clone, Copy)]
struct Counts {
    changed: u64,
    opened: u64,
}

/// Of the life's questions one of each kind.
const EACH: [usize; 6] = [1, 2, 4, 6, 9, 12];

/// Whether neither a device failed nor memory, and the archive needn't be opened again.
fn is_no_failure(outcome: Outcome) -> bool {
    !matches!(
        outcome,
        Outcome::Fault | Outcome::OutOfMemory | Outcome::NeedsRecovery
    )
}

/// Whether questions are answered, or refused for damage, or for the watermark that a damaged page has.
fn are_answered(stage: &Stage, archive: &mut Played) -> bool {
    for number in &EACH {
        if !is_no_failure(stage.ask(archive, 0, *number)) {
            return false;
        }
    }
    true
}

/// Whether the calls that aren't questions return so: a check counts something or finds damage, and a step of applying is made, or refused
/// for what the pages have.
fn returns(archive: &mut Played) -> bool {
    is_no_failure(check(archive, 0)) && is_no_failure(apply(archive)) && flush(archive).is_done()
}

/// Whether disks are opened: then questions return, and all other calls if these are to be made. Else the refusal is named.
fn opens(rt: &impl Abort, stage: &Stage, disks: Both, number: u64, makes_all: bool) -> bool {
    match disks.open(stage.alloc) {
        Ok(mut archive) => {
            be_at(rt, are_answered(stage, &mut archive), "questions", number);
            if makes_all {
                be_at(rt, returns(&mut archive), "all other calls", number);
            }
            true
        }
        Err(handed) => {
            let is_named = matches!(handed.error, OpenError::NotAJournal | OpenError::BadNode(_));
            be_at(rt, is_named, "an opening is refused", number);
            false
        }
    }
}

/// The same disks with these octets in a page, from one on.
fn with_octets(rt: &impl Abort, disks: &Both, page: u64, at: u64, octets: &[u8]) -> Both {
    let mut disks = copied(rt, disks);
    let from = page.saturating_mul(PAGE).saturating_add(at);
    be_at(rt, lay(&mut disks.erase, from, octets), "a write", from);
    disks
}

impl Counts {
    /// Opens disks of which an octet of an area is set to 00, and to FF, unless it has that value.
    fn set_both(
        &mut self,
        rt: &impl Abort,
        stage: &Stage,
        disks: &Both,
        area: &Area,
        at: u64,
        was: u8,
    ) {
        let makes_all = at % area.step.max(1) == 0;
        for octet in &[0, 0xFF] {
            if was != *octet {
                let changed = with_octets(rt, disks, area.page, at, &[*octet]);
                let is_opened = opens(rt, stage, changed, at, makes_all);
                self.changed = self.changed.saturating_add(1);
                self.opened = self.opened.saturating_add(u64::from(is_opened));
            }
        }
    }
}

/// The octets of a page.
fn octets_in(rt: &impl Abort, stage: &Stage, disks: &Both, page: u64) -> Vec<u8> {
    let mut disks = copied(rt, disks);
    octets_of(stage.alloc, &mut disks.erase, page).expect(rt, "a page")
}

/// Sets the octets of an area.
fn sweep(rt: &impl Abort, stage: &Stage, disks: &Both, area: &Area) {
    let octets = octets_in(rt, stage, disks, area.page);
    let mut counts = Counts {
        changed: 0,
        opened: 0,
    };
    for (at, was) in octets.iter().enumerate() {
        let at = at as u64;
        if area.from <= at && at < area.to {
            counts.set_both(rt, stage, disks, area, at, *was);
        }
    }
    be_at(rt, counts.changed == area.changed, "octets", counts.changed);
    be_at(rt, counts.opened == area.opened, "openings", counts.opened);
}

/// The disks after the first acts of a life, of which no page waits to go home.
fn waiting(rt: &impl Abort, stage: &Stage, acts: usize) -> Both {
    let mut archive = opened(rt, stage, copied(rt, &stage.disks));
    for number in 0..acts {
        let is_done = stage.make(&mut archive, number).is_done();
        be_at(rt, is_done, "an act", number as u64);
    }
    be_at(rt, flush_all(&mut archive), "all pages are home", 0);
    laid_anew(stage.alloc, archive.given_up()).expect(rt, "pages")
}

/// Sets the octets of these areas, after the first acts of a life.
fn sweep_all(rt: &impl Abort, alloc: Global, life: &Script, acts: usize, areas: &[Area]) {
    let stage = prepare(alloc, life).expect(rt, "a stage");
    let disks = waiting(rt, &stage, acts);
    for area in areas {
        sweep(rt, &stage, &disks, area);
    }
}

/// With these acts of the life in which the root rises, four records wait.
const RISEN_ACTS: usize = 8;

/// The identity page, the head, and a ring's first page.
const HEADS: [Area; 3] = [
    Area {
        page: 0,
        from: 0,
        to: PAGE,
        step: 1,
        changed: 16397,
        opened: 0,
    },
    Area {
        page: 265,
        from: 0,
        to: PAGE,
        step: 1,
        changed: 16413,
        opened: 100,
    },
    Area {
        page: 266,
        from: 0,
        to: PAGE,
        step: 1,
        changed: 32550,
        opened: 32523,
    },
];

/// A column of the tree and its leaf.
const FIRST: [Area; 2] = [
    Area {
        page: 284,
        from: 0,
        to: PAGE,
        step: 1,
        changed: 16407,
        opened: 16407,
    },
    Area {
        page: 285,
        from: 0,
        to: PAGE,
        step: 1,
        changed: 22545,
        opened: 22545,
    },
];

/// The other column and its leaf.
const SECOND: [Area; 2] = [
    Area {
        page: 286,
        from: 0,
        to: PAGE,
        step: 1,
        changed: 16407,
        opened: 16407,
    },
    Area {
        page: 287,
        from: 0,
        to: PAGE,
        step: 1,
        changed: 28687,
        opened: 28687,
    },
];

/// The root.
const ROOT: [Area; 1] = [Area {
    page: 288,
    from: 0,
    to: PAGE,
    step: 1,
    changed: 16401,
    opened: 16401,
}];

/// The column of 648 parts. A check takes long there, so it is made of each 77th octet.
const PARTED: [Area; 1] = [Area {
    page: 284,
    from: 0,
    to: PAGE,
    step: 77,
    changed: 21834,
    opened: 21834,
}];

#[test]
fn octets_of_the_heads_are_changed(rt: HostRuntime) {
    sweep_all(&rt, rt.alloc(), &RISING, RISEN_ACTS, &HEADS);
}

#[test]
fn octets_of_a_first_column_are_changed(rt: HostRuntime) {
    sweep_all(&rt, rt.alloc(), &RISING, RISEN_ACTS, &FIRST);
}

#[test]
fn octets_of_a_second_column_are_changed(rt: HostRuntime) {
    sweep_all(&rt, rt.alloc(), &RISING, RISEN_ACTS, &SECOND);
}

#[test]
fn octets_of_the_root_are_changed(rt: HostRuntime) {
    sweep_all(&rt, rt.alloc(), &RISING, RISEN_ACTS, &ROOT);
}

#[test]
fn octets_of_a_column_of_648_parts_are_changed(rt: HostRuntime) {
    sweep_all(&rt, rt.alloc(), &LONG, 0, &PARTED);
}

/// The pages of these areas.
const PAGES: [u64; 8] = [0, 265, 266, 284, 285, 286, 287, 288];

/// Swaps a page with each one.
fn swap(rt: &impl Abort, stage: &Stage, disks: &Both, one: u64) {
    let first = octets_in(rt, stage, disks, one);
    for other in &PAGES {
        let second = octets_in(rt, stage, disks, *other);
        let swapped = with_octets(rt, disks, one, 0, &second);
        let swapped = with_octets(rt, &swapped, *other, 0, &first);
        let _opened = opens(rt, stage, swapped, *other, true);
    }
}

/// Fills a page.
fn fill(rt: &impl Abort, stage: &Stage, disks: &Both, page: u64, octet: u8) {
    let octets = vec![in stage.alloc; octet; 16_384].expect(rt, "memory");
    let filled = with_octets(rt, disks, page, 0, &octets);
    let _opened = opens(rt, stage, filled, page, true);
}

#[test]
fn pages_are_swapped_and_filled(rt: HostRuntime) {
    let stage = prepare(rt.alloc(), &RISING).expect(&rt, "a stage");
    let disks = waiting(&rt, &stage, RISEN_ACTS);
    for page in &PAGES {
        swap(&rt, &stage, &disks, *page);
        fill(&rt, &stage, &disks, *page, 0);
        fill(&rt, &stage, &disks, *page, 0xFF);
    }
}
