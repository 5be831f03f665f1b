//! What the program prints on standard error besides the lines of its command, and the exit status that follows.

ghost use Rattle.std.specs.Prelude.{◌≡◌, ◌⊎◌, false, true};
ghost use Rattle.clap.specs.Values.{kind_of};
ghost use Rattle.clap.specs.declared.error.Error.{Error as Usage};
ghost use Rattle.service.specs.Outputs.{Reports};
ghost use Rattle.service.specs.Refusals.{ReportsError, error_line};
ghost use Rattle.service.specs.Reporting.{ReportsOutside};

use crate::invocation::CommandError;
use crate::output::{Input, Output};
use crate::refusal::{Refusal, write_error, write_outside, write_reason};
use archive_calls::RouteArchive;
use clap::error::ErrorKind as UsageKind;
use std::alloc::Global;
use std::io::{Eprint, Error, Print, Read, Write};

/// Prints that a file, an address or an argument failed, which call, and the system's reason. If there is no memory for the
/// reason, the refusal is alone on its line. The exit status is 1.
pub fn report_outside<E: Write>(
    alloc: Global,
    err: &mut Output<E>,
    what: &str,
    call: &str,
    why: &Error,
) -> u8
    ensures code { result ≡ 1 }
    ensures reported { ReportsOutside what.now err.old err.new }
{
    match format!(in alloc; ": {call}: {why}") {
        Ok(reason) => write_outside(err, what, reason.as_str()),
        Err(_) => write_error(err, &Refusal::Outside),
    }
    1
}

/// Prints what an archive couldn't do, and of a device that failed the call and the reason, if the archive has them.
pub(crate) fn report_trouble<A: RouteArchive, E: Write>(
    alloc: Global,
    archive: &A,
    refusal: &Refusal,
    err: &mut Output<E>,
)
    ensures reported { ReportsError refusal.now err.old err.new }
{
    let why = match refusal {
        Refusal::Fault => archive.failure(alloc),
        _ => None,
    };
    report_with(refusal, why, err);
}

/// Prints a refusal, and after it what failed and why, if there is a text of that. The exit status is 1.
pub fn report_with<E: Write>(refusal: &Refusal, why: Option<String>, err: &mut Output<E>) -> u8
    ensures code { result ≡ 1 }
    ensures reported { ReportsError refusal.now err.old err.new }
{
    match why {
        Some(why) => write_reason(err, refusal, why.as_str()),
        None => write_error(err, refusal),
    }
    1
}

/// Prints why the program doesn't begin its command. The exit status is 1.
pub fn report_refusal<E: Write>(refusal: &Refusal, err: &mut Output<E>) -> u8
    ensures code { result ≡ 1 }
    ensures reported { Reports err.old err.new (error_line refusal.now) }
{
    write_error(err, refusal);
    1
}

/// Prints that there is no memory for what the program needs before its command. The exit status is 1.
pub fn report_out_of_memory<E: Write>(err: &mut Output<E>) -> u8
    ensures code { result ≡ 1 }
    ensures reported { Reports err.old err.new (error_line Refusal.OutOfMemory) }
{
    write_error(err, &Refusal::OutOfMemory);
    1
}

/// Prints why reading the file failed, if it did.
pub fn report_lost<R: Read, E: Write>(
    alloc: Global,
    name: &str,
    file: &Input<R>,
    err: &mut Output<E>,
)
    ensures reported { file.now.failed ≡ true → ReportsOutside name.now err.old err.new }
    ensures quiet { file.now.failed ≡ false → err.new ≡ err.old }
{
    if let Some(why) = file.failure() {
        report_outside(alloc, err, name, "read", why);
    }
}

/// Prints that standard output failed, and why.
pub(crate) fn report_unwritten<W: Write, E: Write>(
    alloc: Global,
    out: &Output<W>,
    err: &mut Output<E>,
)
    ensures reported { ReportsError Refusal.Outside err.old err.new }
{
    match out.failure() {
        Some(why) => {
            report_outside(alloc, err, "standard output", "write", why);
        }
        None => write_error(err, &Refusal::Outside),
    }
}

/// Prints why the command line asks for nothing, or shows the help or version that it asks for. The exit status is that
/// of the error, or 1 if help or version couldn't be shown.
pub fn report_usage<R: Print + Eprint, E: Write>(
    alloc: Global,
    rt: &R,
    error: &CommandError,
    err: &mut Output<E>,
) -> u8
    ensures usage { (e : Usage) → error.now ≡ CommandError.Usage e → (kind_of e ≡ UsageKind.DisplayHelp → ⊥) → (kind_of e ≡ UsageKind.DisplayVersion → ⊥) → (result ≡ 2) × (err.new ≡ err.old) }
    ensures shown { (e : Usage) → error.now ≡ CommandError.Usage e → (kind_of e ≡ UsageKind.DisplayHelp) ⊎ (kind_of e ≡ UsageKind.DisplayVersion) → ((result ≡ 0) × (err.new ≡ err.old)) ⊎ ((result ≡ 1) × ReportsError Refusal.Outside err.old err.new) }
    ensures bad_mark { error.now ≡ CommandError.BadMark → (result ≡ 1) × Reports err.old err.new (error_line Refusal.BadText) }
    ensures bad_listen { error.now ≡ CommandError.BadListen → (result ≡ 1) × Reports err.old err.new (error_line Refusal.BadText) }
    ensures bad_http { error.now ≡ CommandError.BadHttp → (result ≡ 1) × Reports err.old err.new (error_line Refusal.BadText) }
    ensures bad_connect { error.now ≡ CommandError.BadConnect → (result ≡ 1) × Reports err.old err.new (error_line Refusal.BadText) }
    ensures memory { error.now ≡ CommandError.OutOfMemory → (result ≡ 1) × Reports err.old err.new (error_line Refusal.OutOfMemory) }
{
    match error {
        CommandError::Usage(usage) => {
            if let Err(why) = usage.print(rt) {
                if error.code() == 0 {
                    // Help that can't be shown is a failure.
                    return report_outside(alloc, err, "standard output", "write", &why);
                }
            }
        }
        CommandError::BadMark
        | CommandError::BadListen
        | CommandError::BadHttp
        | CommandError::BadConnect => write_error(err, &Refusal::BadText),
        CommandError::OutOfMemory => write_error(err, &Refusal::OutOfMemory),
    }
    error.code()
}
