//! Both disks of an archive, torn by a crash and opened again.

ghost use Rattle.std.specs.Prelude.{◌≡◌, ◌∷◌, [], IfSome, IfOk, IfErr};
ghost use Rattle.disk_models.specs.Left.{Left, LeftNow};
ghost use Rattle.page_journal.specs.Identity.{HasNoJournal};
ghost use Rattle.archive_pages.specs.Places.{AreSettings};
ghost use Rattle.disk_memory.specs.Memory.{calls_of};
ghost use Rattle.disk_memory.specs.Pen.{once_model};
ghost use Rattle.disk_memory.specs.Replay.{state_of};
ghost use Rattle.archive_uses.specs.Lives.{LeftByCreation, Lives};
ghost use Rattle.archive_uses.specs.Use.Use.{found, lost, opened, shut};
ghost use Rattle.archive_uses.specs.Uses.{Uses};
ghost use Rattle.uses_tests.specs.inner.Taking.{IsSomewhere, Loses, Reopens, Takes, alone, apart};

use crate::acts::{Act, Batch, Returned, Stop, Tear};
use crate::batches::batch_of;
use crate::calls::{Made, Next};
use archive_pages::Settings;
use archive_uses::{admit, apply_step, close, open, uses_are_runs};
use disk_archive::Archive;
use disk_memory::{MemErase, MemOnce, MemPen, crash_all};
use disk_models::{EraseDisk, OnceDisk};
use std::alloc::Global;
use std::sync::Arc;

/// Both disks, with the pen of the write-once one.
#[derive(Drop)]
struct Both {
    erase: MemErase,
    once: Arc<MemOnce>,
    pen: MemPen,
}

// The disks after a crash now, as they begin again, and will stop so.
fn crash(alloc: Global, both: &Both, tear: Tear, stop: Stop) -> Option<Both>
    ensures loses { IfSome result (λ after. Loses ⟦<MemErase as EraseDisk>⟧ ⟦<MemOnce as OnceDisk>⟧ both.now.erase both.now.once.value both.now.pen after.erase after.once.value after.pen) }
{
    let torn = tear.torn();
    let Ok((mut erase, once, mut pen)) = crash_all(&both.erase, &both.once, &both.pen, &torn) else {
        return None;
    };
    erase.stop_at(stop.of_erase());
    once.stop_at(&mut pen, stop.of_once());
    let Ok(once) = Arc::new(alloc, once) else {
        return None;
    };
    Some(Both { erase, once, pen })
}

// What opening them returns.
fn opened_on(alloc: Global, both: Both) -> Result<Made, Both>
    ensures opens { IfOk result (λ archive. Uses (apart ⟦<MemErase as EraseDisk>⟧ ⟦<MemOnce as OnceDisk>⟧ both.erase both.once.value both.pen) (opened ∷ []) (alone archive)) }
    ensures shuts { IfErr result (λ again. Uses (apart ⟦<MemErase as EraseDisk>⟧ ⟦<MemOnce as OnceDisk>⟧ both.erase both.once.value both.pen) (shut ∷ []) (apart ⟦<MemErase as EraseDisk>⟧ ⟦<MemOnce as OnceDisk>⟧ again.erase again.once.value again.pen)) }
{
    match open(alloc, both.erase, both.once, both.pen) {
        Ok(archive) => Ok(archive),
        Err(refused) => Err(Both {
            erase: refused.erase,
            once: refused.once,
            pen: refused.pen,
        }),
    }
}

// The archive on these disks after a crash now.
fn opened_after(alloc: Global, both: &Both, tear: Tear) -> Option<Made>
    ensures opens { IfSome result (λ archive. Uses (apart ⟦<MemErase as EraseDisk>⟧ ⟦<MemOnce as OnceDisk>⟧ both.now.erase both.now.once.value both.now.pen) (lost ∷ found ∷ opened ∷ []) (alone archive)) }
{
    let Some(after) = crash(alloc, both, tear, Stop::Never) else {
        return None;
    };
    match opened_on(alloc, after) {
        Ok(archive) => Some(archive),
        Err(_) => None,
    }
}

// The archive on these disks after a crash now, which stop so; it may take a second crash, after the first opening was refused.
fn opened_until(alloc: Global, both: &Both, tear: Tear, stop: Stop) -> Option<Next>
    ensures opens { IfSome result (λ next. Reopens ⟦<MemErase as EraseDisk>⟧ ⟦<MemOnce as OnceDisk>⟧ both.now.erase both.now.once.value both.now.pen next.returned next.archive) }
{
    let Some(after) = crash(alloc, both, tear, stop) else {
        return None;
    };
    match opened_on(alloc, after) {
        Ok(archive) => Some(Next {
            archive,
            returned: Returned::Opened,
        }),
        Err(refused) => {
            let Some(archive) = opened_after(alloc, &refused, tear) else {
                return None;
            };
            Some(Next {
                archive,
                returned: Returned::Reopened,
            })
        }
    }
}

/// Gives both disks up, and opens them after a crash. None where that is refused twice, or no memory is there.
pub(crate) fn reopen(alloc: Global, archive: Made, tear: Tear, stop: Stop) -> Option<Next>
    ensures takes { IfSome result (λ next. Takes archive next.archive (Act.Crash tear stop) next.returned) }
{
    let (erase, once, pen) = close(archive);
    let both = Both { erase, once, pen };
    opened_until(alloc, &both, tear, stop)
}

/// A batch is given, both disks are given up where they stopped inside that call, or as it ended, and are opened after a crash.
pub(crate) fn cut_admit(
    alloc: Global,
    archive: Made,
    collector: u8,
    batch: Batch,
    tear: Tear,
) -> Option<Next>
    ensures takes { IsSomewhere archive → IfSome result (λ next. Takes archive next.archive (Act.CutAdmit collector batch tear) next.returned) }
{
    let Some(admissions) = batch_of(alloc, batch) else {
        return None;
    };
    let mut archive = archive;
    let _result = admit(&mut archive, collector, admissions.as_slice());
    let (erase, once, pen) = close(archive);
    let both = Both { erase, once, pen };
    opened_until(alloc, &both, tear, Stop::Never)
}

/// The same of a step of applying.
pub(crate) fn cut_apply(alloc: Global, archive: Made, tear: Tear) -> Option<Next>
    ensures takes { IsSomewhere archive → IfSome result (λ next. Takes archive next.archive (Act.CutApply tear) next.returned) }
{
    let mut archive = archive;
    let _result = apply_step(&mut archive);
    let (erase, once, pen) = close(archive);
    let both = Both { erase, once, pen };
    opened_until(alloc, &both, tear, Stop::Never)
}

// New disks of `pages` pages and `blocks` blocks, which stop so.
fn blank(alloc: Global, pages: u16, blocks: u64, stop: Stop) -> Option<Both>
    ensures none { IfSome result (λ both. (left : Left) → LeftNow (state_of (calls_of both.erase)) (once_model both.pen) left → HasNoJournal left.erase) }
{
    let mut erase = MemErase::new(alloc, u64::from(pages) * 16_384);
    let (once, mut pen) = MemOnce::new(alloc, blocks);
    erase.stop_at(stop.of_erase());
    once.stop_at(&mut pen, stop.of_once());
    let Ok(once) = Arc::new(alloc, once) else {
        return None;
    };
    Some(Both { erase, once, pen })
}

// Both disks after an archive was to be created on them.
fn create_on(alloc: Global, both: Both, settings: Settings) -> Both
    requires settings { AreSettings settings }
    ensures left { (left : Left) → LeftNow (state_of (calls_of result.erase)) (once_model result.pen) left → LeftByCreation ⟦<MemErase as EraseDisk>⟧ ⟦<MemOnce as OnceDisk>⟧ settings both.erase both.once.value both.pen left }
    ensures same { result.once.value ≡ both.once.value }
{
    match Archive::create(alloc, both.erase, both.once, both.pen, settings) {
        Ok(archive) => {
            let (erase, once, pen) = close(archive);
            Both { erase, once, pen }
        }
        Err(refused) => Both {
            erase: refused.erase,
            once: refused.once,
            pen: refused.pen,
        },
    }
}

/// An archive is created on new disks, which stop, and they are opened after a crash. None where no archive is there then, or no memory.
pub(crate) fn cut_create(
    alloc: Global,
    pages: u16,
    blocks: u64,
    settings: Settings,
    tear: Tear,
    stop: Stop,
) -> Option<Made>
    requires settings { AreSettings settings }
    ensures lives { IfSome result (λ archive. Lives settings (lost ∷ found ∷ opened ∷ []) (alone archive)) }
{
    uses_are_runs::<MemErase, MemOnce>();
    let Some(both) = blank(alloc, pages, blocks, stop) else {
        return None;
    };
    let both = create_on(alloc, both, settings);
    let Some(after) = crash(alloc, &both, tear, Stop::Never) else {
        return None;
    };
    match opened_on(alloc, after) {
        Ok(archive) => Some(archive),
        Err(_) => None,
    }
}
