//! Why no archive is made or opened, as standard error shows it: `rha: NUMBER NAME`, and if a file failed, then on the same line
//! which one, at which call, and why; if the files hold no archive, which of them, and why. The exit status is 1.

ghost use Rattle.std.specs.Prelude.{◌≡◌, codes};
ghost use Rattle.service.specs.Outputs.{Reports};
ghost use Rattle.service.specs.Refusals.{ReportsError, error_line};
ghost use Rattle.service.specs.Reporting.{ReportsOutside};
ghost use Rattle.rha.specs.inner.Refusals.{of_create, of_open, of_serve, of_served};

use crate::sizes::why_no_archive;
use archive_calls::RouteArchive;
use disk_archive::{CreateError, OpenError};
use disk_files::{Failure, FileError};
use file_archive::{CreateFault, OpenFault};
use query_threads::Trouble;
use server::trouble_of;
use service::{
    Output, Refusal, report_out_of_memory, report_outside, report_refusal, report_with,
    write_error, write_outside, write_reason,
};
use serving::ServeError;
use std::alloc::Global;
use std::io::Write;

/// What helps if a server's threads can't be made.
const FEW_THREADS: &str =
    ": a thread can't be made for each: choose fewer, or raise the limits on processes and memory (ulimit -u, ulimit -v)";

/// Prints which file of a folder isn't made or opened, which call failed, and why.
pub(crate) fn report_no_file<E: Write>(
    alloc: Global,
    folder: &str,
    why: FileError,
    err: &mut Output<E>,
) -> u8
    ensures code { result ≡ 1 }
    ensures outside { (why ≡ FileError.OutOfMemory → ⊥) → ReportsOutside folder.now err.old err.new }
    ensures memory { why ≡ FileError.OutOfMemory → Reports err.old err.new (error_line Refusal.OutOfMemory) }
{
    if why == FileError::OutOfMemory {
        return report_out_of_memory(err);
    }
    match format!(in alloc; "/{why}") {
        Ok(reason) => write_outside(err, folder, reason.as_str()),
        Err(_) => write_error(err, &Refusal::Outside),
    }
    1
}

/// Prints that a device failed, at which call on a file of the folder, and why.
fn report_failure<E: Write>(
    alloc: Global,
    folder: &str,
    failure: Failure,
    err: &mut Output<E>,
) -> u8
    ensures code { result ≡ 1 }
    ensures reported { ReportsError Refusal.Fault err.old err.new }
{
    let why = format!(in alloc; "{folder}/{failure}").ok();
    report_with(&Refusal::Fault, why, err)
}

/// Prints why no archive is opened on the files of a folder; if they hold none, also which of them is to blame.
fn report_no_archive<E: Write>(
    rt: &HostRuntime,
    folder: &str,
    why: OpenError,
    err: &mut Output<E>,
) -> u8
    ensures code { result ≡ 1 }
    ensures reported { ReportsError (of_open why) err.old err.new }
    ensures alone { (why ≡ OpenError.NotAJournal → ⊥) → Reports err.old err.new (error_line (of_open why)) }
{
    let refusal = match why {
        OpenError::NotAJournal => {
            return report_with(&Refusal::NotAJournal, why_no_archive(rt, folder), err);
        }
        OpenError::Fault => Refusal::Fault,
        OpenError::BadSlot(page) | OpenError::BadNode(page) => Refusal::BadNode(page),
        OpenError::OutOfMemory => Refusal::OutOfMemory,
    };
    report_refusal(&refusal, err)
}

/// Prints why no archive is opened in a folder.
pub(crate) fn report_unopened<E: Write>(
    rt: &HostRuntime,
    folder: &str,
    fault: OpenFault,
    err: &mut Output<E>,
) -> u8
    ensures code { result ≡ 1 }
{
    match fault {
        OpenFault::File(why) => report_no_file(rt.alloc(), folder, why, err),
        OpenFault::Archive(why) => report_no_archive(rt, folder, why, err),
        OpenFault::Failed(failure) => report_failure(rt.alloc(), folder, failure, err),
    }
}

/// Prints why no archive is made in a folder.
pub(crate) fn report_unmade<E: Write>(
    alloc: Global,
    folder: &str,
    fault: &CreateFault,
    err: &mut Output<E>,
) -> u8
    ensures code { result ≡ 1 }
{
    match fault {
        CreateFault::Folder(why) => report_outside(alloc, err, folder, "create", why),
        CreateFault::File(why) => report_no_file(alloc, folder, *why, err),
        CreateFault::Archive(why) => report_refusal(&refusal_of(*why), err),
        CreateFault::Failed(failure) => report_failure(alloc, folder, *failure, err),
    }
}

/// Prints which call on a file failed, and why, for a question that isn't answered, if one failed. Standard output has the refusal.
pub(crate) fn report_unanswered<A: RouteArchive, E: Write>(
    alloc: Global,
    archive: &A,
    err: &mut Output<E>,
) {
    if let Some(why) = archive.failure(alloc) {
        write_reason(err, &Refusal::Fault, why.as_str());
    }
}

/// Reports that a server's threads can't all be made, and what helps.
fn report_few_threads<E: Write>(err: &mut Output<E>) -> u8
    ensures code { result ≡ 1 }
    ensures reported { ReportsOutside (codes "--workers") err.old err.new }
{
    write_outside(err, "--workers", FEW_THREADS);
    1
}

/// What is printed of a trouble that ended a server. If the archive must be opened again, an earlier call failed, and that one is printed.
fn served_refusal(trouble: Trouble) -> Refusal
    ensures { result ≡ of_served trouble }
{
    match trouble {
        Trouble::NeedsRecovery => Refusal::Fault,
        _ => Refusal::from(trouble_of(trouble)),
    }
}

/// Prints why a server ended otherwise than a client asked for, and which call on a file failed, if one did.
pub(crate) fn report_unserved<E: Write>(
    why: ServeError,
    failure: Option<String>,
    err: &mut Output<E>,
) -> u8
    ensures code { result ≡ 1 }
    ensures threads { why ≡ ServeError.Threads → ReportsOutside (codes "--workers") err.old err.new }
    ensures reported { (why ≡ ServeError.Threads → ⊥) → ReportsError (of_serve why) err.old err.new }
{
    let refusal = match why {
        ServeError::Threads => return report_few_threads(err),
        ServeError::OutOfMemory => return report_with(&Refusal::OutOfMemory, None, err),
        ServeError::Trouble(trouble) => served_refusal(trouble),
    };
    let failure = match refusal {
        Refusal::Fault => failure,
        _ => None,
    };
    report_with(&refusal, failure, err)
}

/// The refusal that says why no archive is written to its files.
fn refusal_of(why: CreateError) -> Refusal
    ensures { result ≡ of_create why }
{
    match why {
        CreateError::PagesFull => Refusal::PagesFull,
        CreateError::Fault => Refusal::Fault,
        CreateError::OutOfMemory => Refusal::OutOfMemory,
    }
}
