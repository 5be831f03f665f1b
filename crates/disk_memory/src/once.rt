//! The write-once disk in memory.

ghost use Rattle.std.specs.Prelude.{◌≡◌, ◌<◌, ◌+◌, ◌↔◌, ◌++◌, ◌∷◌, [], ℕ, List, not, true, false, Some, IfOk, OnOk, OnErr, IsErr, IsSome, Contains};
ghost use Rattle.disk_models.specs.Erase.{Counts};
ghost use Rattle.disk_models.specs.Once.{Burns, BurnsOnly, SettlesOnly};
ghost use Rattle.disk_models.specs.Left.{OnceFound};
ghost use Rattle.disk_memory.specs.Burning.{LeavesFailed, all_torn, once_state_of, torn_burnings};
ghost use Rattle.disk_memory.specs.OnceFailure.{failing_reads_of};
ghost use Rattle.disk_memory.specs.Pen.{KeepsBurns, once_faults_of, once_model, once_script_of, settled_of, waiting_of};

use crate::burn::{Burn, burnt, is_tried, tried};
use crate::failure::cut_or;
use crate::once_failure::burn_failure;
use crate::pen::MemPen;
use crate::seen::MemSeen;
use crate::torn::Torn;
use disk_models::{Block, Fault, OnceDisk};
use std::alloc::{AllocError, Global};

/// A write-once disk of blank blocks, in memory. It is sparse: it costs memory by what is burnt. What is burnt is
/// its pen's: the disk itself may be shared freely. Memory that is refused to it is a failure of the device.
#[derive(Clone, Copy, Debug, PartialEq, Eq)]
pub struct MemOnce {
    blocks: u64,
}

impl MemOnce {
    ghost use Rattle.disk_memory.specs.Once.{blocks_of};
    ghost use Rattle.disk_memory.specs.Pen.{IsAtOnceCall, once_stop_of};

    /// A disk of `blocks` blank blocks, with its pen, with no failure to come.
    pub fn new(alloc: Global, blocks: u64) -> (Self, MemPen)
        ensures blocks { blocks_of result.0 ≡ blocks }
        ensures settled { settled_of result.1 ≡ [] }
        ensures waiting { waiting_of result.1 ≡ [] }
        ensures state { once_model result.1 ≡ once_state_of [] [] }
        ensures faults { once_faults_of result.1 ≡ 0 }
        ensures script { once_script_of result.1 ≡ [] }
        ensures stop { once_stop_of result.1 ≡ None }
    {
        (MemOnce { blocks }, MemPen::new(alloc))
    }

    /// Cuts the disk off at its k-th burn or settle from here on, the first one being 1. That call fails, and so do all calls by the pen after
    /// it. A block whose burn is cut off is spent: what stands there is all that was to be burnt, or what a crash makes of it. A
    /// settle that is cut off settles nothing. No other call fails.
    pub fn stop_at(&self, pen: &mut MemPen, k: u64)
        ensures stop { once_stop_of pen.new ≡ Some k }
        ensures script { once_script_of pen.new ≡ [] }
        ensures next { IsAtOnceCall pen.new 0 0 0 0 }
        ensures burns { KeepsBurns pen.old pen.new }
        ensures faults { once_faults_of pen.new ≡ once_faults_of pen.old }
    {
        pen.set_script(Vec::new(pen.alloc));
        pen.stop = Some(k);
    }

    /// The same disk once more, with its pen: what is burnt and settled, and the count of failures. No failure is to
    /// come. The copies share the octets.
    pub fn copy(&self, pen: &MemPen) -> Result<(Self, MemPen), AllocError>
        ensures blocks { IfOk result (λ pair. blocks_of pair.0 ≡ blocks_of self.now) }
        ensures burns { IfOk result (λ pair. KeepsBurns pen.now pair.1) }
        ensures faults { IfOk result (λ pair. once_faults_of pair.1 ≡ once_faults_of pen.now) }
        ensures script { IfOk result (λ pair. once_script_of pair.1 ≡ []) }
        ensures stop { IfOk result (λ pair. once_stop_of pair.1 ≡ None) }
    {
        Ok((*self, pen.copy()?))
    }

    /// The disk that begins again after a crash now, with its pen. Of each burn since the last settle that succeeded,
    /// in turn, the choice says what its block then holds: beyond the choice it holds zeros. A whole burn that comes
    /// through is settled then. No failure is to come.
    pub fn crash(&self, pen: &MemPen, choice: &[Torn]) -> Result<(Self, MemPen), AllocError>
        ensures blocks { IfOk result (λ pair. blocks_of pair.0 ≡ blocks_of self.now) }
        ensures begins { IfOk result (λ pair. once_model pair.1 ≡ once_state_of (settled_of pen.now ++ torn_burnings choice.now (waiting_of pen.now)) []) }
        ensures settled { IfOk result (λ pair. settled_of pair.1 ≡ settled_of pen.now ++ torn_burnings choice.now (waiting_of pen.now)) }
        ensures waiting { IfOk result (λ pair. waiting_of pair.1 ≡ []) }
        ensures allowed { IfOk result (λ pair. OnceFound (once_model pen.now) (once_model pair.1)) }
        ensures faults { IfOk result (λ pair. once_faults_of pair.1 ≡ 0) }
        ensures script { IfOk result (λ pair. once_script_of pair.1 ≡ []) }
        ensures stop { IfOk result (λ pair. once_stop_of pair.1 ≡ None) }
    {
        Ok((*self, pen.crash(choice)?))
    }

    /// The disk that begins again after a crash now, with its pen. Each burn since the last settle that succeeded leaves this at its block: a
    /// whole burn of which all came through is settled then. No failure is to come.
    pub fn crash_as(&self, pen: &MemPen, torn: &Torn) -> Result<(Self, MemPen), AllocError>
        ensures blocks { IfOk result (λ pair. blocks_of pair.0 ≡ blocks_of self.now) }
        ensures begins { IfOk result (λ pair. once_model pair.1 ≡ once_state_of (settled_of pen.now ++ all_torn torn.now (waiting_of pen.now)) []) }
        ensures settled { IfOk result (λ pair. settled_of pair.1 ≡ settled_of pen.now ++ all_torn torn.now (waiting_of pen.now)) }
        ensures waiting { IfOk result (λ pair. waiting_of pair.1 ≡ []) }
        ensures allowed { IfOk result (λ pair. OnceFound (once_model pen.now) (once_model pair.1)) }
        ensures faults { IfOk result (λ pair. once_faults_of pair.1 ≡ 0) }
        ensures script { IfOk result (λ pair. once_script_of pair.1 ≡ []) }
        ensures stop { IfOk result (λ pair. once_stop_of pair.1 ≡ None) }
    {
        Ok((*self, pen.crash_as(torn)?))
    }
}

impl OnceDisk for MemOnce {
    type Pen = MemPen;

    type Seen = MemSeen;

    ghost use Rattle.disk_memory.specs.Burning.{burnt_in};
    ghost use Rattle.disk_memory.specs.Memory.{next_number};
    ghost use Rattle.disk_memory.specs.Once.{blocks_of};
    ghost use Rattle.disk_memory.specs.Pen.{CalledBurn, CalledLook, CalledSettle, CalledBlank, IsBlankToFail, IsLookToFail, IsSettleToFail, KeepsBurns, burn_to_fail, once_faults_of, once_model, once_script_of, settled_of, waiting_of};
    ghost use Rattle.disk_memory.specs.Seen.{failing_of, known_burns_of, seen_faults_of, seen_reads_of};
    ghost use Rattle.disk_memory.specs.OnceSound.{once_is_sound};

    ghost block_count = { λ disk. disk.blocks };

    ghost honest = { λ _ _. Unit {0} };

    ghost honest_seen = { λ _ _. Unit {0} };

    ghost model = { once_model };

    ghost known = { λ seen n. burnt_in n (known_burns_of seen) };

    ghost pen_fault_count = { once_faults_of };

    ghost seen_fault_count = { seen_faults_of };

    ghost sound = { λ _ pen _. once_is_sound (settled_of pen) (waiting_of pen) };

    fn blocks(&self) -> u64 {
        self.blocks
    }

    /// Beside the trait's clauses: it fails exactly if the script has it fail, and once the disk has stopped.
    #[tactic(auto, using(crate::proofs::Burnings::tried_append))]
    fn blank(&self, pen: &mut MemPen, n: u64) -> Result<bool, Fault>
        requires { n < blocks_of self.now }
        ensures counts { Counts (once_faults_of pen.old) (once_faults_of pen.new) result }
        ensures blank { IfOk result (λ blank. blank ≡ not ((once_model pen.old).tried n)) }
        ensures burns { KeepsBurns pen.old pen.new }
        ensures scripted { IsErr result ↔ IsBlankToFail pen.old }
        ensures next { CalledBlank pen.old pen.new }
    {
        if pen.blank_fails() {
            return Err(pen.fault());
        }
        let spent = is_tried(&pen.settled, n) || is_tried(&pen.waiting, n);
        Ok(!spent)
    }

    /// Beside the trait's clauses: which burn is remembered, and that it fails where the script says. Nothing is burnt
    /// if memory runs out.
    fn burn(&self, pen: &mut MemPen, n: u64, block: &Block) -> Result<(), Fault>
        requires inside { n < blocks_of self.now }
        requires blank { (once_model pen.old).tried n ≡ false }
        ensures counts { Counts (once_faults_of pen.old) (once_faults_of pen.new) result }
        ensures only { BurnsOnly n (once_model pen.old) (once_model pen.new) }
        ensures burnt { OnOk result (Burns n block.now (once_model pen.new)) }
        ensures unburnt { OnErr result ((once_model pen.new).burnt n ≡ (once_model pen.old).burnt n) }
        ensures done { OnOk result (waiting_of pen.new ≡ waiting_of pen.old ++ record { number = n; block = block.now; whole = true } ∷ []) }
        ensures failed { OnErr result (LeavesFailed n block.now (burn_to_fail pen.old) (waiting_of pen.old) (waiting_of pen.new)) }
        ensures settled { settled_of pen.new ≡ settled_of pen.old }
        ensures scripted { IsSome (burn_to_fail pen.old) → IsErr result }
        ensures next { CalledBurn pen.old pen.new }
    {
        let number = pen.burns;
        let (stopped, cut) = (pen.has_stopped(), pen.is_cut());
        pen.burns = number.saturating_add(1);
        if stopped {
            return Err(pen.fault());
        }
        let whole = Torn::New;
        let failure = cut_or(cut, &whole, burn_failure(&pen.script, number));
        let fails = failure.is_some();
        let burn = match Burn::new(pen.alloc, n, block, failure) {
            Ok(burn) => burn,
            Err(_) => return Err(pen.fault()),
        };
        pen.record(burn)?;
        if fails {
            return Err(pen.fault());
        }
        Ok(())
    }

    /// Beside the trait's clauses: which burns are settled, and that it fails where the script says.
    fn settle(&self, pen: &mut MemPen) -> Result<(), Fault>
        ensures counts { Counts (once_faults_of pen.old) (once_faults_of pen.new) result }
        ensures only { SettlesOnly (once_model pen.old) (once_model pen.new) }
        ensures settled { OnOk result ((once_model pen.new).settled ≡ (once_model pen.old).burnt) }
        ensures done { OnOk result (settled_of pen.new ≡ settled_of pen.old ++ waiting_of pen.old) }
        ensures emptied { OnOk result (waiting_of pen.new ≡ []) }
        ensures failed { OnErr result (KeepsBurns pen.old pen.new) }
        ensures scripted { IsSettleToFail pen.old → IsErr result }
        ensures next { CalledSettle pen.old pen.new }
    {
        if pen.settle_fails() {
            return Err(pen.fault());
        }
        match pen.settled.append(&mut pen.waiting) {
            Ok(()) => Ok(()),
            Err(_) => Err(pen.fault()),
        }
    }

    /// Beside the trait's clauses: which burns a reader knows, which of its reads fail, and that it fails where the
    /// script says.
    fn look(&self, pen: &mut MemPen) -> Result<MemSeen, Fault>
        ensures counts { Counts (once_faults_of pen.old) (once_faults_of pen.new) result }
        ensures known { IfOk result (λ seen. known_burns_of seen ≡ settled_of pen.old) }
        ensures fresh { IfOk result (λ seen. seen_faults_of seen ≡ 0) }
        ensures reads { IfOk result (λ seen. seen_reads_of seen ≡ 0) }
        ensures reads_to_fail { IfOk result (λ seen. failing_of seen ≡ failing_reads_of (once_script_of pen.old)) }
        ensures burns { KeepsBurns pen.old pen.new }
        ensures scripted { IsLookToFail pen.old → IsErr result }
        ensures next { CalledLook pen.old pen.new }
    {
        if pen.look_fails() {
            return Err(pen.fault());
        }
        match pen.seen() {
            Ok(seen) => Ok(seen),
            Err(_) => Err(pen.fault()),
        }
    }

    /// Beside the trait's clauses: it fails exactly if the script said when the reader looked. Of a block that isn't
    /// known it gives what came to stand there, and of a blank one zeros.
    fn read(&self, seen: &mut MemSeen, n: u64, into: &mut Block) -> Result<(), Fault>
        requires { n < blocks_of self.now }
        ensures counts { Counts (seen_faults_of seen.old) (seen_faults_of seen.new) result }
        ensures known { known_burns_of seen.new ≡ known_burns_of seen.old }
        ensures octets { (block : List ℕ) → burnt_in n (known_burns_of seen.old) ≡ Some block → OnOk result (into.new ≡ block) }
        ensures scripted { IsErr result ↔ Contains (failing_of seen.old) (seen_reads_of seen.old) }
        ensures failing { failing_of seen.new ≡ failing_of seen.old }
        ensures next { seen_reads_of seen.new ≡ next_number (seen_reads_of seen.old) }
    {
        if seen.read_fails() {
            return Err(seen.fault());
        }
        if let Some(block) = burnt(&seen.burns, n) {
            into.copy_from(block);
        } else if let Some(block) = tried(&seen.burns, n) {
            into.copy_from(block);
        } else {
            into.octets_mut().fill(0);
        }
        Ok(())
    }

    fn pen_faults(pen: &MemPen) -> u64 {
        pen.faults()
    }

    fn seen_faults(seen: &MemSeen) -> u64 {
        seen.faults()
    }
}
