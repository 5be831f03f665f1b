//! Steps of a transaction over a pool on a disk in memory, and what is seen after each.

ghost use Rattle.std.specs.Prelude.{IfOk};
ghost use Rattle.page_journal.specs.Layout.{pages_of};
ghost use Rattle.page_journal.specs.Recovers.{AreBelow, AreDistinct};

use super::{OLD, PAGE, UNREAD, filled, made, scripted};
use crate::{be, be_at};
use buffer_pool::Pool;
use disk_memory::{Call, Failure, MemErase};
use disk_models::Page;
use page_journal::{Journal, JournalError};
use page_tx::{PageError, Pages, Tx};
use std::alloc::{AllocError, Global};
use std::num::NonZeroUsize;

/// A step.
#[derive(Clone, Copy)]
pub(super) enum Step {
    /// Sets a page, filled with an octet.
    Set(u64, u8),
    /// Lays this many of the first pages, filled with an octet; the last number is then the first page that was never
    /// used.
    Lay(u64, u8, u64),
    Fetch(u64),
    Fresh,
    Begin(u64),
    /// Makes room for a commit.
    Room,
    Commit,
    Flush,
    Checkpoint,
}

/// A transaction over the pool of a journal, with room for `capacity` clean pages. Four pages were used.
pub(super) fn begun(
    alloc: Global,
    journal: Journal<MemErase>,
    capacity: usize,
) -> Option<Tx<MemErase>> {
    let pool = Pool::new(alloc, journal, NonZeroUsize::new(capacity)?).ok()?;
    if pool.home_pages() < 4 {
        return None;
    }
    Some(Tx::new(alloc, pool, 4))
}

/// The same, of a disk that is opened.
pub(super) fn opened(alloc: Global, disk: MemErase, capacity: usize) -> Option<Tx<MemErase>> {
    begun(alloc, Journal::open(alloc, disk).ok()?, capacity)
}

/// The first `count` pages, each filled with an octet: the first with this one, the next with the next.
pub(super) fn rising(alloc: Global, count: u64, octet: u8) -> Result<Vec<(u64, Page)>, AllocError>
    ensures { IfOk result (λ v. AreBelow count (pages_of v.items)) }
{
    let mut images = Vec::new(alloc);
    let mut octet = octet;
    for n in 0..count {
        images.push((n, filled(alloc, octet)?))?;
        octet = octet.saturating_add(1);
    }
    Ok(images)
}

/// The first `count` pages, filled with an octet.
pub(super) fn numbered(
    alloc: Global,
    homes: u64,
    count: u64,
    octet: u8,
) -> Result<Vec<(u64, Page)>, AllocError>
    ensures below { IfOk result (λ v. AreBelow homes (pages_of v.items)) }
    ensures distinct { IfOk result (λ v. AreDistinct (pages_of v.items)) }
{
    let mut images = Vec::new(alloc);
    for n in 0..count.min(homes) {
        images.push((n, filled(alloc, octet)?))?;
    }
    Ok(images)
}

/// A refusal of a page, in the list of all.
fn reported(refusal: PageError) -> JournalError {
    match refusal {
        PageError::Fault => JournalError::Fault,
        PageError::NeedsRecovery => JournalError::NeedsRecovery,
        PageError::TooManyImages => JournalError::TooManyImages,
        PageError::PagesFull => JournalError::PagesFull,
        PageError::OutOfMemory => JournalError::OutOfMemory,
    }
}

fn set(alloc: Global, tx: &mut Tx<MemErase>, n: u64, octet: u8) -> Result<(), JournalError> {
    if n >= tx.home_pages() {
        return Err(JournalError::PagesFull);
    }
    let page = filled(alloc, octet)?;
    tx.set(n, page).map_err(reported)
}

fn lay(
    alloc: Global,
    tx: &mut Tx<MemErase>,
    count: u64,
    octet: u8,
    unused: u64,
) -> Result<(), JournalError> {
    if unused < tx.next_page() {
        return Err(JournalError::PagesFull);
    }
    let images = numbered(alloc, tx.home_pages(), count, octet)?;
    tx.lay(images, unused).map_err(reported)
}

fn fetch(tx: &mut Tx<MemErase>, n: u64) -> Result<(), PageError> {
    if n >= tx.home_pages() {
        return Err(PageError::PagesFull);
    }
    tx.fetch(n)
}

fn begin(tx: &mut Tx<MemErase>, next: u64) -> Result<(), JournalError> {
    if next > tx.home_pages() {
        return Err(JournalError::PagesFull);
    }
    tx.begin(next);
    Ok(())
}

/// Takes a step. It returns a fresh page's number, or 1 where a page was flushed, else 0.
pub(super) fn play(alloc: Global, tx: &mut Tx<MemErase>, step: Step) -> Result<u64, JournalError> {
    match step {
        Step::Set(n, octet) => set(alloc, tx, n, octet)?,
        Step::Lay(count, octet, unused) => lay(alloc, tx, count, octet, unused)?,
        Step::Fetch(n) => fetch(tx, n).map_err(reported)?,
        Step::Fresh => return tx.fresh().map_err(reported),
        Step::Begin(next) => begin(tx, next)?,
        Step::Room => tx.make_room()?,
        Step::Commit => tx.commit()?,
        Step::Flush => return Ok(u64::from(tx.flush_one()?)),
        Step::Checkpoint => tx.checkpoint()?,
    }
    Ok(0)
}

/// An octet of each of the first pages, as they are shown, where the last one is the same, or else another one.
pub(super) fn shown(tx: &mut Tx<MemErase>) -> Result<[u8; 4], PageError> {
    let mut all = [UNREAD; 4];
    for (n, octet) in all.iter_mut().enumerate() {
        fetch(tx, n as u64)?;
        if let Some(page) = tx.page(n as u64)
            && page.octets()[7] == page.octets()[16_383]
        {
            *octet = page.octets()[7];
        }
    }
    Ok(all)
}

/// A step, what it returns, and what is then seen: the first pages, and how many slots are closed, how many pages are
/// dirty, and of how many images are held.
#[derive(Clone, Copy)]
struct Row {
    step: Step,
    answer: Result<u64, JournalError>,
    shown: [u8; 4],
    counts: (usize, usize, usize),
}

fn after(
    step: Step,
    answer: Result<u64, JournalError>,
    shown: [u8; 4],
    counts: (usize, usize, usize),
) -> Row {
    Row {
        step,
        answer,
        shown,
        counts,
    }
}

/// A transaction reads its own writes, begins again without them, and is committed, over two open slots with the same
/// page. The page that was dirty longest is flushed first.
fn written() -> [Row; 16] {
    [
        after(Step::Set(1, 31), Ok(0), [10, 31, 12, 13], (8, 0, 1)),
        after(Step::Begin(2), Ok(0), OLD, (8, 0, 0)),
        after(Step::Fresh, Ok(2), OLD, (8, 0, 0)),
        after(Step::Fresh, Ok(3), OLD, (8, 0, 0)),
        after(Step::Fresh, Err(JournalError::PagesFull), OLD, (8, 0, 0)),
        after(Step::Set(1, 31), Ok(0), [10, 31, 12, 13], (8, 0, 1)),
        after(Step::Set(2, 41), Ok(0), [10, 31, 41, 13], (8, 0, 2)),
        after(Step::Set(1, 32), Ok(0), [10, 32, 41, 13], (8, 0, 2)),
        after(Step::Commit, Ok(0), [10, 32, 41, 13], (7, 2, 0)),
        after(Step::Set(1, 33), Ok(0), [10, 33, 41, 13], (7, 2, 1)),
        after(Step::Commit, Ok(0), [10, 33, 41, 13], (6, 2, 0)),
        after(Step::Flush, Ok(1), [10, 33, 41, 13], (6, 1, 0)),
        after(Step::Set(3, 51), Ok(0), [10, 33, 41, 51], (6, 1, 1)),
        after(Step::Checkpoint, Ok(0), [10, 33, 41, 51], (8, 0, 1)),
        after(Step::Flush, Ok(0), [10, 33, 41, 51], (8, 0, 1)),
        after(Step::Commit, Ok(0), [10, 33, 41, 51], (7, 1, 0)),
    ]
}

/// Images laid together are all there or none, and images of at most 31 pages are held.
fn laid() -> [Row; 9] {
    let many = Err(JournalError::TooManyImages);
    [
        after(Step::Lay(31, 60, 31), Ok(0), [60; 4], (8, 0, 31)),
        after(Step::Lay(32, 61, 32), many, [60; 4], (8, 0, 31)),
        after(Step::Set(31, 62), many, [60; 4], (8, 0, 31)),
        after(Step::Lay(31, 63, 40), Ok(0), [63; 4], (8, 0, 31)),
        // An image in place of another is none more.
        after(Step::Set(3, 66), Ok(0), [63, 63, 63, 66], (8, 0, 31)),
        after(
            Step::Lay(1, 64, 41),
            Err(JournalError::PagesFull),
            [63, 63, 63, 66],
            (8, 0, 31),
        ),
        after(
            Step::Fresh,
            Err(JournalError::PagesFull),
            [63, 63, 63, 66],
            (8, 0, 31),
        ),
        after(Step::Commit, Ok(0), [63, 63, 63, 66], (7, 31, 0)),
        after(Step::Lay(2, 65, 40), Ok(0), [65, 65, 63, 66], (7, 31, 2)),
    ]
}

/// Whether a step returns what it has to, and what is then seen is right.
fn is_right(alloc: Global, tx: &mut Tx<MemErase>, row: &Row, capacity: usize) -> bool {
    let answer = play(alloc, tx, row.step);
    let counts = (tx.pool().closed(), tx.pool().dirty(), tx.images());
    answer == row.answer
        && shown(tx) == Ok(row.shown)
        && counts == row.counts
        && tx.pool().clean() <= capacity
}

/// The first step after which something else is seen, in a pool of this capacity. After the last one the disk is
/// opened again: what was committed is shown.
fn first_wrong(
    alloc: Global,
    disk: MemErase,
    capacity: usize,
    rows: &[Row],
    committed: [u8; 4],
) -> Option<usize> {
    let mut tx = opened(alloc, disk, capacity)?;
    for (n, row) in rows.iter().enumerate() {
        if !is_right(alloc, &mut tx, row, capacity) {
            return Some(n);
        }
    }
    let mut again = opened(alloc, tx.into_pool().into_disk(), capacity)?;
    if shown(&mut again) != Ok(committed) {
        return Some(rows.len());
    }
    Some(RIGHT)
}

/// No step is wrong.
const RIGHT: usize = usize::MAX;

/// A disk with 40 home pages.
fn wide(alloc: Global) -> Option<MemErase> {
    let journal = Journal::create(alloc, MemErase::new(alloc, 305 * PAGE), 40).ok()?;
    Some(journal.into_disk())
}

#[test]
fn pools_of_each_capacity_show_what_is_written(rt: HostRuntime) {
    let alloc = rt.alloc();
    for capacity in [1, 2, 1000] {
        let disk = made(alloc).expect(&rt, "a disk");
        let wrong = first_wrong(alloc, disk, capacity, &written(), [10, 33, 41, 51]);
        be_at(&rt, wrong == Some(RIGHT), "pages set", capacity as u64);
        let disk = wide(alloc).expect(&rt, "a disk");
        let wrong = first_wrong(alloc, disk, capacity, &laid(), [63, 63, 63, 66]);
        be_at(&rt, wrong == Some(RIGHT), "pages laid", capacity as u64);
    }
}

/// Whether the device fails at the last of these steps, in a pool of this capacity, and at none before. It fails at the n-th read: an
/// opening reads nine times, the identity page and eight commit flags.
fn is_read_last(alloc: Global, capacity: usize, n: u64, steps: &[Step]) -> Option<bool> {
    let disk = scripted(alloc, made(alloc)?, Failure::Read(n))?;
    let mut tx = opened(alloc, disk, capacity)?;
    let mut failed = false;
    for step in steps {
        let answer = play(alloc, &mut tx, *step);
        if failed || !matches!(answer, Ok(_) | Err(JournalError::Fault)) {
            return Some(false);
        }
        failed = answer.is_err();
    }
    Some(failed)
}

/// Page 0 is used again before page 2 takes the place of one.
const USED: [Step; 6] = [
    Step::Fetch(0),
    Step::Fetch(1),
    Step::Fetch(0),
    Step::Fetch(2),
    Step::Fetch(0),
    Step::Fetch(1),
];

/// A page that is flushed stays.
const FLUSHED: [Step; 5] = [
    Step::Set(1, 31),
    Step::Commit,
    Step::Flush,
    Step::Fetch(1),
    Step::Fetch(2),
];

/// Of two that a checkpoint writes home the later one.
const CHECKED: [Step; 6] = [
    Step::Set(1, 31),
    Step::Set(2, 41),
    Step::Commit,
    Step::Checkpoint,
    Step::Fetch(2),
    Step::Fetch(1),
];

#[test]
fn the_clean_pages_that_were_used_last_stay(rt: HostRuntime) {
    let alloc = rt.alloc();
    be(
        &rt,
        is_read_last(alloc, 2, 12, &USED) == Some(true),
        "pages used again",
    );
    be(
        &rt,
        is_read_last(alloc, 2, 9, &FLUSHED) == Some(true),
        "a page that is flushed",
    );
    be(
        &rt,
        is_read_last(alloc, 1, 9, &CHECKED) == Some(true),
        "pages brought home",
    );
}

/// Whether a disk was given `homes` writes home, and `all` calls in all.
fn are_calls(disk: &MemErase, homes: usize, all: usize) -> bool {
    let written = disk.calls().iter().filter(|call| match call {
        Call::Write(written) => written.at() >= 265 * PAGE,
        Call::Sync => false,
    });
    written.count() == homes && disk.calls().len() == all
}

/// Plays steps until one is refused. Whether none was.
fn play_all(alloc: Global, tx: &mut Tx<MemErase>, steps: &[Step]) -> bool {
    for step in steps {
        if play(alloc, tx, *step).is_err() {
            return false;
        }
    }
    true
}

/// Commits page 3, and then page 1 seven times. So the oldest slot is needed still. Whether that was done.
fn commits_eight(alloc: Global, tx: &mut Tx<MemErase>) -> bool {
    if !play_all(alloc, tx, &[Step::Set(3, 29), Step::Commit]) {
        return false;
    }
    for octet in 31..38u8 {
        if !play_all(alloc, tx, &[Step::Set(1, octet), Step::Commit]) {
            return false;
        }
    }
    true
}

#[test]
fn a_page_is_written_home_once_and_lent_from_memory(rt: HostRuntime) {
    let alloc = rt.alloc();
    let disk = made(alloc).expect(&rt, "a disk");
    // The read after the opening's nine fails.
    let disk = scripted(alloc, disk, Failure::Read(9)).expect(&rt, "a script");
    let mut tx = opened(alloc, disk, 4).expect(&rt, "a transaction");
    be(&rt, commits_eight(alloc, &mut tx), "eight commits");
    let fetched = fetch(&mut tx, 1) == Ok(()) && fetch(&mut tx, 2) == Err(PageError::Fault);
    be(
        &rt,
        fetched && play(alloc, &mut tx, Step::Set(2, 40)) == Ok(0),
        "page 1 isn't read",
    );
    let ninth = play(alloc, &mut tx, Step::Commit) == Err(JournalError::JournalFull);
    be(
        &rt,
        ninth && shown(&mut tx) == Ok([10, 37, 12, 29]),
        "a ninth commit",
    );
    let flushed = play_all(alloc, &mut tx, &[Step::Flush, Step::Flush]);
    be(
        &rt,
        flushed && play(alloc, &mut tx, Step::Flush) == Ok(0),
        "two pages are flushed",
    );
    // Four pages and thirteen other calls of the creation, the opening's two syncs, eight commits of three pieces and
    // two syncs, and two writes home.
    let disk = tx.into_pool().into_disk();
    be(&rt, are_calls(&disk, 6, 17 + 2 + 8 * 5 + 2), "the calls");
}

/// Three commits, and a page flushed.
const COMMITTED: [Step; 7] = [
    Step::Set(1, 31),
    Step::Commit,
    Step::Set(2, 41),
    Step::Commit,
    Step::Set(1, 32),
    Step::Commit,
    Step::Flush,
];

/// Whether the last call of a disk wrote home page 1, of this octet.
fn is_last_home(disk: &MemErase, octet: u8) -> bool {
    match disk.calls().last() {
        Some(Call::Write(written)) => {
            written.at() == 266 * PAGE && written.octets().first() == Some(&octet)
        }
        _ => false,
    }
}

#[test]
fn the_page_that_was_dirty_longest_is_written_home_first(rt: HostRuntime) {
    let alloc = rt.alloc();
    let disk = made(alloc).expect(&rt, "a disk");
    let mut tx = opened(alloc, disk, 4).expect(&rt, "a transaction");
    be(&rt, play_all(alloc, &mut tx, &COMMITTED), "three commits");
    // Page 1 became dirty first, and was committed last. Four pages were written home by the creation.
    let disk = tx.into_pool().into_disk();
    be(&rt, are_calls(&disk, 5, 17 + 2 + 3 * 5 + 1), "the calls");
    be(&rt, is_last_home(&disk, 32), "page 1 is home");
}

/// Commits page 2, for the n-th time, and with the first three commits another page.
fn commits_once(alloc: Global, tx: &mut Tx<MemErase>, n: u8) -> bool {
    let page = match n {
        0 => 0,
        1 => 1,
        2 => 3,
        _ => 2,
    };
    let steps = [
        Step::Room,
        Step::Set(page, 40),
        Step::Set(2, n),
        Step::Commit,
    ];
    play_all(alloc, tx, &steps)
}

#[test]
fn slots_are_given_back_one_by_one(rt: HostRuntime) {
    let alloc = rt.alloc();
    let disk = made(alloc).expect(&rt, "a disk");
    let mut tx = opened(alloc, disk, 4).expect(&rt, "a transaction");
    for n in 0..12u8 {
        let is_done = commits_once(alloc, &mut tx, n);
        let left = tx.pool().closed();
        let is_right = left == usize::from(7u8.saturating_sub(n.min(6)));
        be_at(&rt, is_done && is_right, "a commit", u64::from(n));
    }
    be(&rt, shown(&mut tx) == Ok([40, 40, 11, 40]), "the pages");
    // The calls of the creation and the opening, three commits of four pieces and two syncs, four of three pieces, five that
    // write two gates (four pieces, two syncs), the second one that of a slot given back, and three writes home before such.
    let disk = tx.into_pool().into_disk();
    be(
        &rt,
        are_calls(&disk, 7, 17 + 2 + 3 * 6 + 4 * 5 + 5 * 6 + 3),
        "the calls",
    );
}
