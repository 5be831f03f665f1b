//! The pen of a write-once disk in memory, in which its state is.

ghost use Rattle.std.specs.Prelude.{◌≡◌, ◌+◌, ◌++◌, ◌∷◌, ◌⊎◌, ◌||◌, [], ℕ, List, length, map, min, true, Option, None, Some, IfOk, OnOk, OnErr, IsErr, IsSome, option_copied, not, IsTrue, ◌↔◌};
ghost use Rattle.std.specs.List.{list_any};
ghost use Rattle.disk_models.specs.Erase.{Counts};
ghost use Rattle.disk_memory.specs.Burning.{Burning, all_torn, torn_burning, torn_burnings};
ghost use Rattle.disk_memory.specs.OnceFailure.{burn_failure_at, failing_reads_of, is_blank_failure, is_look_failure, is_settle_failure};

use crate::burn::{Burn, copies};
use crate::once_failure::{OnceFailure, failing_reads, has_blank, has_look, has_settle};
use crate::seen::MemSeen;
use crate::torn::Torn;
use disk_models::Fault;
use std::alloc::{AllocError, Global};

/// The one pen of a write-once disk in memory: all its burns, and which of them are settled.
#[derive(Drop)]
pub struct MemPen {
    pub(crate) alloc: Global,
    pub(crate) settled: Vec<Burn>,
    pub(crate) waiting: Vec<Burn>,
    pub(crate) script: Vec<OnceFailure>,
    blanks: u64,
    pub(crate) burns: u64,
    settles: u64,
    looks: u64,
    // At which burn or settle the disk stops.
    pub(crate) stop: Option<u64>,
    faults: u64,
}

/// What a crash leaves of these burns by a choice, after those that are there.
fn tear(
    alloc: Global,
    into: &mut Vec<Burn>,
    burns: &[Burn],
    choice: &[Torn],
) -> Result<(), AllocError>
    ensures { OnOk result (into.new.items ≡ into.old.items ++ torn_burnings choice.now burns.now) }
{
    for (k, burn) in burns.iter().enumerate() {
        into.push(burn.left(alloc, choice.get(k))?)?;
    }
    Ok(())
}

/// What a crash leaves of these burns that tears them all in one way, after those that are there.
fn tear_all(
    alloc: Global,
    into: &mut Vec<Burn>,
    burns: &[Burn],
    torn: &Torn,
) -> Result<(), AllocError>
    ensures { OnOk result (into.new.items ≡ into.old.items ++ map (torn_burning (Some torn.now)) burns.now) }
{
    for burn in burns {
        into.push(burn.left(alloc, Some(torn))?)?;
    }
    Ok(())
}

impl MemPen {
    ghost use Rattle.disk_memory.specs.Memory.{stops_within};
    ghost use Rattle.disk_memory.specs.Pen.{IsAtOnceCall, KeepsBurns, KeepsOncePlan, has_stopped, is_cut_off, once_begun_of, once_faults_of, once_script_of, once_stop_of, settled_of, waiting_of};
    ghost use Rattle.disk_memory.specs.Seen.{failing_of, known_burns_of, seen_faults_of, seen_reads_of};

    /// The pen of a blank disk.
    pub(crate) fn new(alloc: Global) -> Self
        ensures settled { settled_of result ≡ [] }
        ensures waiting { waiting_of result ≡ [] }
        ensures faults { once_faults_of result ≡ 0 }
        ensures script { once_script_of result ≡ [] }
        ensures stop { once_stop_of result ≡ None }
        ensures next { IsAtOnceCall result 0 0 0 0 }
    {
        MemPen {
            alloc,
            settled: Vec::new(alloc),
            waiting: Vec::new(alloc),
            script: Vec::new(alloc),
            blanks: 0,
            burns: 0,
            settles: 0,
            looks: 0,
            stop: None,
            faults: 0,
        }
    }

    /// Says which calls fail. They are numbered from here on, and the disk doesn't stop.
    pub fn set_script(&mut self, script: Vec<OnceFailure>)
        ensures script { once_script_of self.new ≡ script.items }
        ensures stop { once_stop_of self.new ≡ None }
        ensures next { IsAtOnceCall self.new 0 0 0 0 }
        ensures burns { KeepsBurns self.old self.new }
        ensures faults { once_faults_of self.new ≡ once_faults_of self.old }
    {
        self.script = script;
        self.stop = None;
        self.blanks = 0;
        self.burns = 0;
        self.settles = 0;
        self.looks = 0;
    }

    /// Whether the disk came to the burn or settle at which it was to stop.
    pub fn has_stopped(&self) -> bool
        ensures { result ≡ has_stopped self.now }
    {
        self.stops_within(self.begun())
    }

    /// Whether the next burn or settle is cut off.
    pub(crate) fn is_cut(&self) -> bool
        ensures { result ≡ is_cut_off self.now }
    {
        self.stops_within(self.begun().saturating_add(1))
    }

    /// How many burns and settles there were.
    fn begun(&self) -> u64
        ensures { result ≡ once_begun_of self.now }
    {
        self.burns.saturating_add(self.settles)
    }

    /// Whether the disk stops within `count` burns and settles.
    fn stops_within(&self, count: u64) -> bool
        ensures { result ≡ stops_within (once_stop_of self.now) count }
    {
        match self.stop {
            Some(k) => k <= count,
            None => false,
        }
    }

    /// The burns that a settle has fixed, the oldest first.
    pub fn settled(&self) -> &[Burn]
        ensures { result.now ≡ settled_of self.now }
    {
        &self.settled
    }

    /// The burns since then, failed ones too.
    pub fn waiting(&self) -> &[Burn]
        ensures { result.now ≡ waiting_of self.now }
    {
        &self.waiting
    }

    /// How often it has failed.
    pub(crate) fn faults(&self) -> u64
        ensures { result ≡ once_faults_of self.now }
    {
        self.faults
    }

    /// Counts a failure.
    pub(crate) fn fault(&mut self) -> Fault
        ensures { self.new ≡ record self.old { faults = min (self.old.faults + 1) 18446744073709551615 } }
    {
        self.faults = self.faults.saturating_add(1);
        Fault
    }

    /// Counts a look for a blank block, and says whether it fails.
    pub(crate) fn blank_fails(&mut self) -> bool
        ensures scripted { result ≡ (has_stopped self.old || list_any (λ failure. is_blank_failure self.old.blanks failure) (once_script_of self.old)) }
        ensures next { self.new ≡ record self.old { blanks = min (self.old.blanks + 1) 18446744073709551615 } }
    {
        let number = self.blanks;
        let stopped = self.has_stopped();
        self.blanks = number.saturating_add(1);
        stopped || has_blank(&self.script, number)
    }

    /// Counts a settle, and says whether it fails.
    pub(crate) fn settle_fails(&mut self) -> bool
        ensures scripted { result ≡ (is_cut_off self.old || list_any (λ failure. is_settle_failure self.old.settles failure) (once_script_of self.old)) }
        ensures next { self.new ≡ record self.old { settles = min (self.old.settles + 1) 18446744073709551615 } }
    {
        let number = self.settles;
        let cut = self.is_cut();
        self.settles = number.saturating_add(1);
        cut || has_settle(&self.script, number)
    }

    /// Counts a look, and says whether it fails.
    pub(crate) fn look_fails(&mut self) -> bool
        ensures scripted { result ≡ (has_stopped self.old || list_any (λ failure. is_look_failure self.old.looks failure) (once_script_of self.old)) }
        ensures next { self.new ≡ record self.old { looks = min (self.old.looks + 1) 18446744073709551615 } }
    {
        let number = self.looks;
        let stopped = self.has_stopped();
        self.looks = number.saturating_add(1);
        stopped || has_look(&self.script, number)
    }

    /// Remembers a burn, or counts a failure if memory runs out.
    pub(crate) fn record(&mut self, burn: Burn) -> Result<(), Fault>
        ensures ok { OnOk result (waiting_of self.new ≡ waiting_of self.old ++ burn ∷ []) }
        ensures err { OnErr result (waiting_of self.new ≡ waiting_of self.old) }
        ensures settled { settled_of self.new ≡ settled_of self.old }
        ensures plan { KeepsOncePlan self.old self.new }
        ensures next { IsAtOnceCall self.new self.old.blanks self.old.burns self.old.settles self.old.looks }
        ensures counts { Counts (once_faults_of self.old) (once_faults_of self.new) result }
    {
        match self.waiting.push(burn) {
            Ok(()) => Ok(()),
            Err(_) => Err(self.fault()),
        }
    }

    /// What a reader knows now.
    pub(crate) fn seen(&self) -> Result<MemSeen, AllocError>
        ensures known { IfOk result (λ seen. known_burns_of seen ≡ settled_of self.now) }
        ensures fresh { IfOk result (λ seen. seen_faults_of seen ≡ 0) }
        ensures reads { IfOk result (λ seen. seen_reads_of seen ≡ 0) }
        ensures script { IfOk result (λ seen. failing_of seen ≡ failing_reads_of (once_script_of self.now)) }
    {
        let burns = copies(self.alloc, &self.settled)?;
        let failing = failing_reads(self.alloc, &self.script)?;
        Ok(MemSeen::new(burns, failing))
    }

    /// The same pen once more, with no failure to come.
    pub(crate) fn copy(&self) -> Result<MemPen, AllocError>
        ensures burns { IfOk result (λ pen. KeepsBurns self.now pen) }
        ensures faults { IfOk result (λ pen. once_faults_of pen ≡ once_faults_of self.now) }
        ensures script { IfOk result (λ pen. once_script_of pen ≡ []) }
        ensures stop { IfOk result (λ pen. once_stop_of pen ≡ None) }
    {
        let mut pen = MemPen::new(self.alloc);
        pen.settled = copies(self.alloc, &self.settled)?;
        pen.waiting = copies(self.alloc, &self.waiting)?;
        pen.faults = self.faults;
        Ok(pen)
    }

    /// The pen that begins again after a crash.
    pub(crate) fn crash(&self, choice: &[Torn]) -> Result<MemPen, AllocError>
        ensures settled { IfOk result (λ pen. settled_of pen ≡ settled_of self.now ++ torn_burnings choice.now (waiting_of self.now)) }
        ensures none { IfOk result (λ pen. waiting_of pen ≡ []) }
        ensures faults { IfOk result (λ pen. once_faults_of pen ≡ 0) }
        ensures script { IfOk result (λ pen. once_script_of pen ≡ []) }
        ensures stop { IfOk result (λ pen. once_stop_of pen ≡ None) }
    {
        let mut pen = MemPen::new(self.alloc);
        pen.settled = copies(self.alloc, &self.settled)?;
        tear(self.alloc, &mut pen.settled, &self.waiting, choice)?;
        Ok(pen)
    }

    /// The pen that begins again after a crash that tears each burn since the last settle that succeeded in this one way.
    pub(crate) fn crash_as(&self, torn: &Torn) -> Result<MemPen, AllocError>
        ensures settled { IfOk result (λ pen. settled_of pen ≡ settled_of self.now ++ all_torn torn.now (waiting_of self.now)) }
        ensures none { IfOk result (λ pen. waiting_of pen ≡ []) }
        ensures faults { IfOk result (λ pen. once_faults_of pen ≡ 0) }
        ensures script { IfOk result (λ pen. once_script_of pen ≡ []) }
        ensures stop { IfOk result (λ pen. once_stop_of pen ≡ None) }
    {
        let mut pen = MemPen::new(self.alloc);
        pen.settled = copies(self.alloc, &self.settled)?;
        tear_all(self.alloc, &mut pen.settled, &self.waiting, torn)?;
        Ok(pen)
    }
}
