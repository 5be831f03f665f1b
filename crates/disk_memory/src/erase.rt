//! The erasable disk in memory: all its writes and syncs, from which each of its past contents can be read.

ghost use Rattle.std.specs.Prelude.{◌≡◌, ◌≤◌, ◌<◌, ◌+◌, ◌⊎◌, ◌↔◌, ◌++◌, ◌∷◌, ◌||◌, [], ℕ, List, length, min, true, take, drop, map, Option, None, Some, IfOk, OnOk, OnErr, IsErr, IsSome, option_copied, IsTrue};
ghost use Rattle.std.specs.List.{list_any};
ghost use Rattle.disk_models.specs.Octets.{octets};
ghost use Rattle.disk_models.specs.Erase.{Counts, Lingers, MayLeave, Stays, Syncs, WritesWithin};
ghost use Rattle.disk_models.specs.Left.{EraseFound};
ghost use Rattle.disk_memory.specs.Writing.{Writing};
ghost use Rattle.disk_memory.specs.Failure.{is_read_failure, is_sync_failure, write_failure_at};
ghost use Rattle.disk_memory.specs.Replay.{LeavesTorn, left_all, left_by, octet_of, state_of, torn_call};
ghost use Rattle.disk_memory.specs.inner.Replaying.{SplitsAtSync, torn_calls};

use crate::call::{Call, Written};
use crate::failure::{Failure, cut_or, has_read, has_sync, write_failure};
use crate::lay::replay;
use crate::torn::Torn;
use disk_models::{EraseDisk, Fault};
use std::alloc::{AllocError, Global};

/// An erasable disk of zeros, in memory. It is sparse: it costs memory by what is written to it, and remembers all
/// of that. Memory that is refused to it is a failure of the device.
#[derive(Drop)]
pub struct MemErase {
    alloc: Global,
    size: u64,
    calls: Vec<Call>,
    script: Vec<Failure>,
    reads: u64,
    writes: u64,
    syncs: u64,
    // At which write or sync it stops.
    stop: Option<u64>,
    faults: u64,
}

/// The calls, of which copies share the octets.
fn copies(alloc: Global, calls: &[Call]) -> Result<Vec<Call>, AllocError>
    ensures { IfOk result (λ copies. copies.items ≡ calls.now) }
{
    let mut copies = Vec::with_capacity(alloc, calls.len())?;
    for call in calls {
        copies.push(call.clone()?)?;
    }
    Ok(copies)
}

/// How many calls end with the last sync: those after it are writes.
fn synced_count(calls: &[Call]) -> usize
    ensures { SplitsAtSync result calls.now }
{
    let mut count = 0;
    for (i, call) in calls.iter().enumerate() {
        match call {
            Call::Sync => count = i + 1,
            Call::Write(_) => {}
        }
    }
    count
}

/// What a crash leaves of a call: of a write what is given, or else the old octets.
fn left(alloc: Global, call: &Call, torn: Option<&Torn>) -> Result<Call, AllocError>
    ensures { IfOk result (λ left. left ≡ torn_call (option_copied torn.entry) call.now) }
{
    match call {
        Call::Sync => Ok(Call::Sync),
        Call::Write(write) => match torn {
            None => Ok(Call::Write(write.torn(alloc, &Torn::Old)?)),
            Some(torn) => Ok(Call::Write(write.torn(alloc, torn)?)),
        },
    }
}

/// Appends what a crash leaves of these calls by a choice.
fn tear(
    alloc: Global,
    into: &mut Vec<Call>,
    calls: &[Call],
    choice: &[Torn],
) -> Result<(), AllocError>
    ensures { OnOk result (into.new.items ≡ into.old.items ++ torn_calls choice.now calls.now) }
{
    for (k, call) in calls.iter().enumerate() {
        into.push(left(alloc, call, choice.get(k))?)?;
    }
    Ok(())
}

/// Appends what a crash leaves of these calls that tears them all in one way.
fn tear_all(
    alloc: Global,
    into: &mut Vec<Call>,
    calls: &[Call],
    torn: &Torn,
) -> Result<(), AllocError>
    ensures { OnOk result (into.new.items ≡ into.old.items ++ map (torn_call (Some torn.now)) calls.now) }
{
    for call in calls {
        into.push(left(alloc, call, Some(torn))?)?;
    }
    Ok(())
}

impl MemErase {
    ghost use Rattle.disk_memory.specs.inner.Failing.{KeepsScript};
    ghost use Rattle.disk_memory.specs.Memory.{IsAtCall, KeepsPlan, begun_of, calls_of, faults_of, is_cut, is_stopped, script_of, size_of, stop_of, stops_within};

    /// A disk of `size` zeros, with no failure to come.
    pub fn new(alloc: Global, size: u64) -> Self
        ensures size { size_of result ≡ size }
        ensures calls { calls_of result ≡ [] }
        ensures faults { faults_of result ≡ 0 }
        ensures script { script_of result ≡ [] }
        ensures stop { stop_of result ≡ None }
    {
        MemErase {
            alloc,
            size,
            calls: Vec::new(alloc),
            script: Vec::new(alloc),
            reads: 0,
            writes: 0,
            syncs: 0,
            stop: None,
            faults: 0,
        }
    }

    /// Says which calls fail. They are numbered from here on, and it doesn't stop.
    pub fn set_script(&mut self, script: Vec<Failure>)
        ensures script { script_of self.new ≡ script.items }
        ensures stop { stop_of self.new ≡ None }
        ensures next { IsAtCall self.new 0 0 0 }
        ensures size { size_of self.new ≡ size_of self.old }
        ensures calls { calls_of self.new ≡ calls_of self.old }
        ensures faults { faults_of self.new ≡ faults_of self.old }
    {
        self.script = script;
        self.stop = None;
        self.reads = 0;
        self.writes = 0;
        self.syncs = 0;
    }

    /// Cuts the disk off at its k-th write or sync from here on, the first one being 1. That call fails, and so do all calls of the disk after
    /// it, reads too. A write that is cut off is left unsynced with all its octets, so a crash decides what comes of it; later ones
    /// leave nothing. No other call fails.
    pub fn stop_at(&mut self, k: u64)
        ensures stop { stop_of self.new ≡ Some k }
        ensures script { script_of self.new ≡ [] }
        ensures next { IsAtCall self.new 0 0 0 }
        ensures size { size_of self.new ≡ size_of self.old }
        ensures calls { calls_of self.new ≡ calls_of self.old }
        ensures faults { faults_of self.new ≡ faults_of self.old }
    {
        self.set_script(Vec::new(self.alloc));
        self.stop = Some(k);
    }

    /// Whether it came to the write or sync at which it was to stop.
    pub fn is_stopped(&self) -> bool
        ensures { result ≡ is_stopped self.now }
    {
        self.stops_within(self.begun())
    }

    /// Whether the next write or sync is cut off.
    fn is_cut(&self) -> bool
        ensures { result ≡ is_cut self.now }
    {
        self.stops_within(self.begun().saturating_add(1))
    }

    /// How many writes and syncs there were.
    fn begun(&self) -> u64
        ensures { result ≡ begun_of self.now }
    {
        self.writes.saturating_add(self.syncs)
    }

    /// Whether it stops within `count` writes and syncs.
    fn stops_within(&self, count: u64) -> bool
        ensures { result ≡ stops_within (stop_of self.now) count }
    {
        match self.stop {
            Some(k) => k <= count,
            None => false,
        }
    }

    /// The writes and the syncs that left something, the oldest first. A failed sync leaves nothing.
    pub fn calls(&self) -> &[Call]
        ensures { result.now ≡ calls_of self.now }
    {
        &self.calls
    }

    /// Counts a failure.
    fn fault(&mut self) -> Fault
        ensures { self.new ≡ record self.old { faults = min (self.old.faults + 1) 18446744073709551615 } }
    {
        self.faults = self.faults.saturating_add(1);
        Fault
    }

    /// Counts a read, and says whether it fails.
    fn read_fails(&mut self) -> bool
        ensures calls { calls_of self.new ≡ calls_of self.old }
        ensures size { size_of self.new ≡ size_of self.old }
        ensures faults { faults_of self.new ≡ faults_of self.old }
        ensures scripted { result ≡ (is_stopped self.old || list_any (λ failure. is_read_failure self.old.reads failure) (script_of self.old)) }
        ensures plan { KeepsPlan self.old self.new }
        ensures next { IsAtCall self.new (min (self.old.reads + 1) 18446744073709551615) self.old.writes self.old.syncs }
    {
        let number = self.reads;
        let stopped = self.is_stopped();
        self.reads = number.saturating_add(1);
        stopped || has_read(&self.script, number)
    }

    /// Counts a sync, and says whether it fails.
    fn sync_fails(&mut self) -> bool
        ensures calls { calls_of self.new ≡ calls_of self.old }
        ensures size { size_of self.new ≡ size_of self.old }
        ensures faults { faults_of self.new ≡ faults_of self.old }
        ensures scripted { result ≡ (is_cut self.old || list_any (λ failure. is_sync_failure self.old.syncs failure) (script_of self.old)) }
        ensures plan { KeepsPlan self.old self.new }
        ensures next { IsAtCall self.new self.old.reads self.old.writes (min (self.old.syncs + 1) 18446744073709551615) }
    {
        let number = self.syncs;
        let cut = self.is_cut();
        self.syncs = number.saturating_add(1);
        cut || has_sync(&self.script, number)
    }

    /// Records a call that leaves something, or counts a failure if memory runs out.
    fn record(&mut self, call: Call) -> Result<(), Fault>
        ensures ok { OnOk result (calls_of self.new ≡ calls_of self.old ++ call ∷ []) }
        ensures err { OnErr result (calls_of self.new ≡ calls_of self.old) }
        ensures size { size_of self.new ≡ size_of self.old }
        ensures counts { Counts (faults_of self.old) (faults_of self.new) result }
        ensures script { KeepsScript self.old self.new }
    {
        match self.calls.push(call) {
            Ok(()) => Ok(()),
            Err(_) => Err(self.fault()),
        }
    }

    /// The same disk once more: what it holds, and what crashes may have left of it. No failure is to come, and the
    /// count of failures is kept. The copies share the octets.
    pub fn copy(&self) -> Result<MemErase, AllocError>
        ensures size { IfOk result (λ disk. size_of disk ≡ size_of self.now) }
        ensures calls { IfOk result (λ disk. calls_of disk ≡ calls_of self.now) }
        ensures faults { IfOk result (λ disk. faults_of disk ≡ faults_of self.now) }
        ensures script { IfOk result (λ disk. script_of disk ≡ []) }
        ensures stop { IfOk result (λ disk. stop_of disk ≡ None) }
    {
        let mut disk = MemErase::new(self.alloc, self.size);
        disk.calls = copies(self.alloc, &self.calls)?;
        disk.faults = self.faults;
        Ok(disk)
    }

    /// The disk that begins again after a crash now. Of each write since the last sync that succeeded, in turn, the
    /// choice says what its range then holds: beyond the choice what it held before. No failure is to come.
    pub fn crash(&self, choice: &[Torn]) -> Result<MemErase, AllocError>
        ensures begins { IfOk result (λ disk. EraseFound (left_by choice.now (calls_of self.now)) (state_of (calls_of disk))) }
        ensures allowed { OnOk result (MayLeave (state_of (calls_of self.now)) (left_by choice.now (calls_of self.now))) }
        ensures size { IfOk result (λ disk. size_of disk ≡ size_of self.now) }
        ensures faults { IfOk result (λ disk. faults_of disk ≡ 0) }
        ensures script { IfOk result (λ disk. script_of disk ≡ []) }
        ensures stop { IfOk result (λ disk. stop_of disk ≡ None) }
    {
        let synced = synced_count(&self.calls);
        let mut disk = MemErase::new(self.alloc, self.size);
        disk.calls = copies(self.alloc, &self.calls[..synced])?;
        tear(self.alloc, &mut disk.calls, &self.calls[synced..], choice)?;
        disk.calls.push(Call::Sync)?;
        Ok(disk)
    }

    /// The disk that begins again after a crash now that tears the range of each write since the last sync that succeeded in this one way.
    /// No failure is to come.
    pub fn crash_as(&self, torn: &Torn) -> Result<MemErase, AllocError>
        ensures begins { IfOk result (λ disk. EraseFound (left_all torn.now (calls_of self.now)) (state_of (calls_of disk))) }
        ensures allowed { OnOk result (MayLeave (state_of (calls_of self.now)) (left_all torn.now (calls_of self.now))) }
        ensures size { IfOk result (λ disk. size_of disk ≡ size_of self.now) }
        ensures faults { IfOk result (λ disk. faults_of disk ≡ 0) }
        ensures script { IfOk result (λ disk. script_of disk ≡ []) }
        ensures stop { IfOk result (λ disk. stop_of disk ≡ None) }
    {
        let synced = synced_count(&self.calls);
        let mut disk = MemErase::new(self.alloc, self.size);
        disk.calls = copies(self.alloc, &self.calls[..synced])?;
        tear_all(self.alloc, &mut disk.calls, &self.calls[synced..], torn)?;
        disk.calls.push(Call::Sync)?;
        Ok(disk)
    }
}

impl EraseDisk for MemErase {
    ghost use Rattle.disk_memory.specs.Memory.{CalledRead, CalledSync, CalledWrite, IsReadToFail, IsSyncToFail, calls_of, faults_of, size_of, write_to_fail};
    ghost use Rattle.disk_memory.specs.Replay.{state_of};
    ghost use Rattle.disk_memory.specs.Sound.{state_is_sound};

    ghost octet_count = { λ disk. disk.size };

    ghost fault_count = { λ disk. disk.faults };

    ghost honest = { λ _. Unit {0} };

    ghost model = { λ disk. state_of disk.calls.items };

    ghost sound = { λ disk _. state_is_sound disk.calls.items };

    fn size(&self) -> u64 {
        self.size
    }

    fn faults(&self) -> u64 {
        self.faults
    }

    /// Beside the trait's clauses: it fails exactly if the script has it fail, and once the disk has stopped.
    fn read(&mut self, at: u64, into: &mut [u8]) -> Result<(), Fault>
        requires { at + length into.old ≤ size_of self.old }
        ensures size { size_of self.new ≡ size_of self.old }
        ensures counts { Counts (faults_of self.old) (faults_of self.new) result }
        ensures octets { OnOk result (into.new ≡ octets (state_of (calls_of self.old)).octet at (length into.old)) }
        ensures stays { Stays (state_of (calls_of self.old)) (state_of (calls_of self.new)) }
        ensures scripted { IsErr result ↔ IsReadToFail self.old }
        ensures calls { calls_of self.new ≡ calls_of self.old }
        ensures next { CalledRead self.old self.new }
    {
        if self.read_fails() {
            return Err(self.fault());
        }
        prove!(into.len() as u64 <= self.size - at);
        replay(&self.calls, at, into);
        Ok(())
    }

    /// Beside the trait's clauses: which call is remembered, and that it fails where the script says. Nothing is
    /// remembered if memory runs out.
    fn write_at(&mut self, at: u64, from: &[u8]) -> Result<(), Fault>
        requires { at + length from.now ≤ size_of self.old }
        ensures size { size_of self.new ≡ size_of self.old }
        ensures counts { Counts (faults_of self.old) (faults_of self.new) result }
        ensures octets { OnOk result (octets (state_of (calls_of self.new)).octet at (length from.now) ≡ from.now) }
        ensures within { WritesWithin at (length from.now) (state_of (calls_of self.old)) (state_of (calls_of self.new)) }
        ensures done { OnOk result (calls_of self.new ≡ calls_of self.old ++ Call.Write (record { at = at; length = length from.now; octets = from.now }) ∷ []) }
        ensures failed { OnErr result (LeavesTorn at from.now (write_to_fail self.old) (calls_of self.old) (calls_of self.new)) }
        ensures scripted { IsSome (write_to_fail self.old) → IsErr result }
        ensures next { CalledWrite self.old self.new }
    {
        let number = self.writes;
        let (stopped, cut) = (self.is_stopped(), self.is_cut());
        self.writes = number.saturating_add(1);
        if stopped {
            return Err(self.fault());
        }
        let whole = Torn::New;
        let failure = cut_or(cut, &whole, write_failure(&self.script, number));
        let fails = failure.is_some();
        let write = match Written::new(self.alloc, at, from, failure) {
            Ok(write) => write,
            Err(_) => return Err(self.fault()),
        };
        self.record(Call::Write(write))?;
        if fails {
            return Err(self.fault());
        }
        Ok(())
    }

    /// Beside the trait's clauses: a sync that succeeds is remembered, and it fails where the script says.
    fn sync(&mut self) -> Result<(), Fault>
        ensures size { size_of self.new ≡ size_of self.old }
        ensures counts { Counts (faults_of self.old) (faults_of self.new) result }
        ensures syncs { OnOk result (Syncs (state_of (calls_of self.old)) (state_of (calls_of self.new))) }
        ensures lingers { Lingers (state_of (calls_of self.old)) (state_of (calls_of self.new)) }
        ensures done { OnOk result (calls_of self.new ≡ calls_of self.old ++ Call.Sync ∷ []) }
        ensures failed { OnErr result (calls_of self.new ≡ calls_of self.old) }
        ensures scripted { IsSyncToFail self.old → IsErr result }
        ensures next { CalledSync self.old self.new }
    {
        if self.sync_fails() {
            return Err(self.fault());
        }
        self.record(Call::Sync)
    }
}
