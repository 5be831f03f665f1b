//! Both disks after the same crash.

ghost use Rattle.std.specs.Prelude.{◌≡◌, ◌++◌, [], ℕ, List, None, IfOk};
ghost use Rattle.disk_models.specs.Left.{IsFound, LeftNow};
ghost use Rattle.disk_memory.specs.Both.{left_of_all, left_of_both};
ghost use Rattle.disk_memory.specs.Burning.{all_torn, once_state_of, torn_burnings};
ghost use Rattle.disk_memory.specs.Memory.{calls_of, faults_of, script_of, size_of, stop_of};
ghost use Rattle.disk_memory.specs.Once.{blocks_of};
ghost use Rattle.disk_memory.specs.Pen.{once_faults_of, once_model, once_script_of, once_stop_of, settled_of, waiting_of};
ghost use Rattle.disk_memory.specs.Replay.{state_of};

use crate::erase::MemErase;
use crate::once::MemOnce;
use crate::pen::MemPen;
use crate::torn::Torn;
use std::alloc::AllocError;

/// Both disks and the pen, as they begin again after a crash now, by a choice for each. What they are found as is
/// something that a crash may leave. No failure is to come.
pub fn crash_both(
    erase: &MemErase,
    once: &MemOnce,
    pen: &MemPen,
    erase_choice: &[Torn],
    once_choice: &[Torn],
) -> Result<(MemErase, MemOnce, MemPen), AllocError>
    ensures begins { IfOk result (λ disks. once_model disks.2 ≡ once_state_of (settled_of pen.now ++ torn_burnings once_choice.now (waiting_of pen.now)) []) }
    ensures settled { IfOk result (λ disks. settled_of disks.2 ≡ settled_of pen.now ++ torn_burnings once_choice.now (waiting_of pen.now)) }
    ensures waiting { IfOk result (λ disks. waiting_of disks.2 ≡ []) }
    ensures size { IfOk result (λ disks. size_of disks.0 ≡ size_of erase.now) }
    ensures blocks { IfOk result (λ disks. blocks_of disks.1 ≡ blocks_of once.now) }
    ensures faults { IfOk result (λ disks. (faults_of disks.0 ≡ 0) × (once_faults_of disks.2 ≡ 0)) }
    ensures scripts { IfOk result (λ disks. (script_of disks.0 ≡ []) × (once_script_of disks.2 ≡ [])) }
    ensures stops { IfOk result (λ disks. (stop_of disks.0 ≡ None) × (once_stop_of disks.2 ≡ None)) }
    ensures found { IfOk result (λ disks. IsFound (state_of (calls_of disks.0)) (once_model disks.2) (left_of_both erase_choice.now erase.now disks.2)) }
    ensures allowed { IfOk result (λ disks. LeftNow (state_of (calls_of erase.now)) (once_model pen.now) (left_of_both erase_choice.now erase.now disks.2)) }
{
    let erase = erase.crash(erase_choice)?;
    let (once, pen) = once.crash(pen, once_choice)?;
    Ok((erase, once, pen))
}

/// Both disks and the pen, as they begin again after a crash now that tears all that it may change in this one way. What they are found
/// as is something that a crash may leave. No failure is to come.
pub fn crash_all(
    erase: &MemErase,
    once: &MemOnce,
    pen: &MemPen,
    torn: &Torn,
) -> Result<(MemErase, MemOnce, MemPen), AllocError>
    ensures settled { IfOk result (λ disks. settled_of disks.2 ≡ settled_of pen.now ++ all_torn torn.now (waiting_of pen.now)) }
    ensures waiting { IfOk result (λ disks. waiting_of disks.2 ≡ []) }
    ensures size { IfOk result (λ disks. size_of disks.0 ≡ size_of erase.now) }
    ensures blocks { IfOk result (λ disks. blocks_of disks.1 ≡ blocks_of once.now) }
    ensures faults { IfOk result (λ disks. (faults_of disks.0 ≡ 0) × (once_faults_of disks.2 ≡ 0)) }
    ensures scripts { IfOk result (λ disks. (script_of disks.0 ≡ []) × (once_script_of disks.2 ≡ [])) }
    ensures stops { IfOk result (λ disks. (stop_of disks.0 ≡ None) × (once_stop_of disks.2 ≡ None)) }
    ensures found { IfOk result (λ disks. IsFound (state_of (calls_of disks.0)) (once_model disks.2) (left_of_all torn.now erase.now disks.2)) }
    ensures allowed { IfOk result (λ disks. LeftNow (state_of (calls_of erase.now)) (once_model pen.now) (left_of_all torn.now erase.now disks.2)) }
{
    let erase = erase.crash_as(torn)?;
    let (once, pen) = once.crash_as(pen, torn)?;
    Ok((erase, once, pen))
}
