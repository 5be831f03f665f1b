//! What is written of a check that is refused, or that can't be written.

use crate::be;
use crate::desk::loaded_of;
use crate::failures::{UNBUFFERED, UNWRITTEN};
use crate::pure::Pure;
use crate::samples::UPDATE;
use archive_calls::Trouble;
use service::{Output, Status, check, check_archive};
use std::alloc::Global;
use std::io::{BufWriter, Write};

/// An archive of one UPDATE that answers a check so.
fn checked(alloc: Global, answer: Result<u64, Trouble>) -> Option<Pure> {
    let mut archive = loaded_of(alloc, &[UPDATE])?;
    archive.checked = answer;
    Some(archive)
}

/// Checks, with standard error as octets.
fn check_to<W: Write>(
    alloc: Global,
    archive: &mut Pure,
    out: &mut Output<W>,
    err: &mut Vec<u8>,
) -> Status {
    check(alloc, archive, out, &mut Output::new(err))
}

/// Whether a check writes these lines on standard output and standard error, and ends so.
fn checks_as(
    alloc: Global,
    answer: Result<u64, Trouble>,
    lines: &str,
    refusals: &str,
    status: Status,
) -> Option<bool> {
    let mut archive = checked(alloc, answer)?;
    let mut out: Vec<u8> = Vec::new(alloc);
    let mut err: Vec<u8> = Vec::new(alloc);
    let ended = check_to(alloc, &mut archive, &mut Output::new(&mut out), &mut err);
    Some(
        ended == status
            && out.as_slice() == lines.as_bytes()
            && err.as_slice() == refusals.as_bytes(),
    )
}

/// What an archive meets, and the line of standard error.
const TROUBLES: [(Trouble, &str); 5] = [
    (Trouble::Fault, "rha: 1 Fault\n"),
    (Trouble::NeedsRecovery, "rha: 5 NeedsRecovery\n"),
    (Trouble::Damaged(7), "rha: 8 Damaged\n"),
    (Trouble::BadNode(11), "rha: 9 BadNode\n"),
    (Trouble::OutOfMemory, "rha: 27 OutOfMemory\n"),
];

#[test]
fn troubles_are_shown_on_standard_error(rt: HostRuntime) {
    for (trouble, line) in &TROUBLES {
        let is_shown = checks_as(rt.alloc(), Err(*trouble), "", line, Status::Refused);
        be(&rt, is_shown == Some(true), line);
    }
}

/// Whether a check whose line doesn't fit has failed.
fn is_unwritten(alloc: Global) -> Option<bool> {
    let mut archive = checked(alloc, Ok(1))?;
    let mut small = [0u8; 4];
    let full: &mut [u8] = &mut small;
    let mut err: Vec<u8> = Vec::new(alloc);
    let ended = check_to(alloc, &mut archive, &mut Output::new(full), &mut err);
    Some(ended == Status::Failed && err.as_slice() == UNWRITTEN.as_bytes())
}

#[test]
fn a_check_fails_where_nothing_can_be_written(rt: HostRuntime) {
    be(&rt, is_unwritten(rt.alloc()) == Some(true), "a full writer");
}

/// Runs a check as the program does: the exit status.
fn run_to<W: Write + Drop>(
    alloc: Global,
    archive: &mut Pure,
    out: &mut Output<W>,
    err: &mut Vec<u8>,
) -> u8 {
    check_archive(alloc, archive, out, &mut Output::new(err))
}

/// Whether standard error shows once that a check can't be written out.
fn is_shown_once(alloc: Global) -> Option<bool> {
    let mut archive = checked(alloc, Ok(1))?;
    let mut small = [0u8; 4];
    let full: &mut [u8] = &mut small;
    let mut buffered = Output::new(BufWriter::new(alloc, full).ok()?);
    let mut err: Vec<u8> = Vec::new(alloc);
    let ended = run_to(alloc, &mut archive, &mut buffered, &mut err);
    Some(ended == 1 && err.as_slice() == UNBUFFERED.as_bytes())
}

// A buffer shows only where it is written out that there is no room for the line.
#[test]
fn a_check_that_cannot_be_written_out_is_shown_once(rt: HostRuntime) {
    be(
        &rt,
        is_shown_once(rt.alloc()) == Some(true),
        "a full buffer",
    );
}
