//! The archive of a folder is opened, and a command runs over it. If the archive is in use, the command may wait for it.

ghost use Rattle.std.specs.Prelude.{◌≡◌, None, Some, IfOk, IfErr};

use crate::holder::advise_holder;
use crate::refusals::report_unopened;
use advice::advise;
use disk_commands::Command;
use disk_files::{Access, FileError};
use file_archive::{FileArchive, FileDisks, OpenFault};
use service::Output;
use std::io::Write;
use std::thread;
use std::time::Duration;

/// How many times a second a command tries whether an archive is still in use.
const TRIES: u64 = 10;

/// How many milliseconds pass between two tries.
const REST: u64 = 100;

/// What helps if an archive may have to be written to before it can be read. The first opening of an archive of an earlier version leaves a slot of
/// the journal open, so the second one writes, too.
const UNENDED: &str =
    "if a command on this archive was cut off, or if an earlier version made it, its files have to be written to before they can be read: \
     run two commands on it, such as rha info, as a user who may write to them";

/// What `attempt` opens: while the archive is in use it is tried again, until `seconds` are over.
fn within<T: Drop, F: Fn() -> Result<T, OpenFault>>(
    rt: &HostRuntime,
    seconds: u64,
    attempt: F,
) -> Result<T, OpenFault>
    requires { F.IsAlwaysCallable attempt }
{
    for _ in 0..seconds.saturating_mul(TRIES) {
        match attempt() {
            Err(OpenFault::File(FileError::InUse(_))) => {
                thread::sleep(rt, Duration::from_millis(REST));
            }
            opened => return opened,
        }
    }
    attempt()
}

/// What was opened, or what a command returned. If nothing was opened, the reason is printed, and which process has the archive if it is in
/// use.
fn report_closed<T, E: Write>(
    rt: &HostRuntime,
    folder: &str,
    opened: Result<T, OpenFault>,
    err: &mut Output<E>,
) -> Option<T>
    ensures opened { IfOk opened (λ it. result ≡ Some it) }
    ensures none { IfErr opened (λ why. result ≡ None) }
{
    match opened {
        Ok(opened) => Some(opened),
        Err(fault) => {
            report_unopened(rt, folder, fault, err);
            if let OpenFault::File(FileError::InUse(_)) = fault {
                advise_holder(rt, folder, err);
            }
            None
        }
    }
}

/// The disks of a folder's archive, for this command alone, within `wait` seconds. If they aren't opened, the reason is printed, and
/// the exit status is 1.
pub(crate) fn open_disks<E: Write>(
    rt: &HostRuntime,
    folder: &str,
    wait: u64,
    err: &mut Output<E>,
) -> Option<FileDisks> {
    let opened = within(
        rt,
        wait,
        || match FileDisks::open(rt.alloc(), rt, folder, Access::Alone) {
            Ok(disks) => Ok(disks),
            Err(why) => Err(OpenFault::File(why)),
        },
    );
    report_closed(rt, folder, opened, err)
}

/// The archive of a folder, for this command alone, within `wait` seconds. If it isn't opened, the reason is printed, and the exit
/// status is 1.
pub(crate) fn open<E: Write>(
    rt: &HostRuntime,
    folder: &str,
    wait: u64,
    err: &mut Output<E>,
) -> Option<FileArchive> {
    let opened = within(rt, wait, || file_archive::open(rt.alloc(), rt, folder));
    report_closed(rt, folder, opened, err)
}

/// What is looked at before an archive is opened.
#[derive(Clone, Copy, PartialEq)]
pub(crate) enum First {
    Nothing,
    /// The journal's slots, for a check: an opening ends what the journal began.
    Slots,
}

/// Runs a command over the archive of a folder, whose files are held so.
fn run_as<C: Command<FileArchive>>(
    rt: &HostRuntime,
    folder: &str,
    access: Access,
    first: First,
    command: &mut C,
) -> Result<u8, OpenFault>
    ensures always { IfOk result (λ status. C.always command.old command.new status) }
    ensures idle { IfErr result (λ why. command.new ≡ command.old) }
{
    let alloc = rt.alloc();
    let mut disks = FileDisks::open(alloc, rt, folder, access)?;
    if first == First::Slots {
        disks.check_slots()?;
    }
    disks.run(alloc, command).outcome
}

/// Runs a command that only reads the archive of a folder. Others may read it meanwhile; if something that a command that was cut off left
/// has to be written first, no one else may.
fn run_shared<C: Command<FileArchive>>(
    rt: &HostRuntime,
    folder: &str,
    first: First,
    command: &mut C,
) -> Result<u8, OpenFault>
    ensures always { IfOk result (λ status. C.always command.old command.new status) }
    ensures idle { IfErr result (λ why. command.new ≡ command.old) }
{
    match run_as(rt, folder, Access::Shared, first, command) {
        Err(fault) if fault.needs_alone() => run_as(rt, folder, Access::Alone, first, command),
        ended => ended,
    }
}

/// Runs a command that only reads the archive of a folder, within `wait` seconds: its exit status, or why the archive isn't opened.
pub(crate) fn run_to_read<C: Command<FileArchive>>(
    rt: &HostRuntime,
    folder: &str,
    wait: u64,
    first: First,
    command: &mut C,
) -> Result<u8, OpenFault>
    ensures always { IfOk result (λ status. C.always command.old command.new status) }
    ensures idle { IfErr result (λ why. command.new ≡ command.old) }
{
    'tries: for _ in 0..wait.saturating_mul(TRIES) {
        match run_shared(rt, folder, first, command) {
            Err(OpenFault::File(FileError::InUse(_))) => {
                thread::sleep(rt, Duration::from_millis(REST));
            }
            ended => return ended,
        }
    }
    run_shared(rt, folder, first, command)
}

/// The exit status of a command that only reads. If the archive wasn't opened, the reason is printed, and it is `unopened`.
pub(crate) fn status_of<E: Write>(
    rt: &HostRuntime,
    folder: &str,
    ended: Result<u8, OpenFault>,
    unopened: u8,
    err: &mut Output<E>,
) -> u8
    ensures ran { IfOk ended (λ status. result ≡ status) }
    ensures unopened { IfErr ended (λ why. result ≡ unopened) }
{
    let is_refused = matches!(&ended, Err(OpenFault::File(FileError::Failed(_))));
    let status = report_closed(rt, folder, ended, err);
    if is_refused && FileDisks::open(rt.alloc(), rt, folder, Access::Shared).is_ok() {
        advise(rt.alloc(), &UNENDED, err);
    }
    status.unwrap_or(unopened)
}
