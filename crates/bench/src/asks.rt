//! Asks an archive in the files of a folder, which is open once, and prints how long whole answers took.

use crate::reading::more;
use anyhow::{Context, Result, bail};
use archive_calls::RouteArchive;
use service::reply;
use std::alloc::Global;
use std::fs;
use std::time::Instant;

/// The kinds of questions that are counted apart: the third word of a request line, or its first.
const KINDS: [&str; 6] = ["route", "prefix", "cover", "peer", "all", "history"];

/// What was asked of a kind. Times are in nanoseconds.
#[derive(Drop)]
struct Asked {
    /// Of each question when it was asked for the first time.
    first: Vec<u64>,
    /// Of each question asked once more, right after.
    again: Vec<u64>,
    rows: u64,
    replies: u64,
}

/// How long an answer was.
#[derive(Clone, Copy, Drop)]
struct Size {
    rows: u64,
    replies: u64,
}

/// What follows a question so that it goes on after a reply that ended so: after its last row, or after that many events.
fn beyond(alloc: Global, end: &str) -> Result<String> {
    if end.contains('|') {
        return Ok(format!(in alloc; " after {}", end.replace(alloc, "|", " ")?)?);
    }
    Ok(format!(in alloc; " skip {end}")?)
}

/// What follows a question so that it goes on after a reply; none where the reply was the last one.
fn continuation(alloc: Global, reply: &str) -> Result<Option<String>> {
    let Some(end) = reply.lines().last() else {
        bail!("a reply without lines")
    };
    match end.strip_prefix("M|") {
        Some(end) => Ok(Some(beyond(alloc, end)?)),
        None => Ok(None),
    }
}

/// Asks a question until its last row came.
fn ask_whole<A: RouteArchive>(alloc: Global, archive: &mut A, question: &str) -> Result<Size> {
    let mut size = Size {
        rows: 0,
        replies: 0,
    };
    let mut beyond = String::new(alloc);
    for _ in 0..u64::MAX {
        let line = format!(in alloc; "{question}{beyond}")?;
        let text = reply(alloc, archive, line.as_str())?;
        more(&mut size.replies, 1);
        more(
            &mut size.rows,
            text.as_str().lines().count().saturating_sub(1),
        );
        match continuation(alloc, text.as_str())? {
            Some(next) => beyond = next,
            None => break,
        }
    }
    Ok(size)
}

/// The nanoseconds that an answer took, and its size.
fn timed<A: RouteArchive>(
    rt: &HostRuntime,
    archive: &mut A,
    question: &str,
) -> Result<(u64, Size)> {
    let began = Instant::now(rt)?;
    let size = ask_whole(rt.alloc(), archive, question)?;
    let spent = began.elapsed(rt)?;
    Ok((u64::try_from(spent.as_nanos()).unwrap_or(u64::MAX), size))
}

/// Whether a question is of this kind.
fn is_of(question: &str, kind: &str) -> bool {
    question.split(' ').nth(2) == Some(kind) || question.split(' ').next() == Some(kind)
}

/// Asks the questions of a kind, each twice.
fn ask_kind<A: RouteArchive>(
    rt: &HostRuntime,
    archive: &mut A,
    questions: &str,
    kind: &str,
) -> Result<Asked> {
    let alloc = rt.alloc();
    let mut asked = Asked {
        first: Vec::new(alloc),
        again: Vec::new(alloc),
        rows: 0,
        replies: 0,
    };
    for question in questions.lines() {
        if is_of(question, kind) {
            let (first, size) = timed(rt, archive, question)?;
            let (again, _) = timed(rt, archive, question)?;
            asked.first.push(first)?;
            asked.again.push(again)?;
            asked.rows = asked.rows.wrapping_add(size.rows);
            asked.replies = asked.replies.wrapping_add(size.replies);
        }
    }
    Ok(asked)
}

/// The most time that `hundredths` of a hundred questions took.
fn part(times: &[u64], hundredths: usize) -> u64 {
    let at = times.len().saturating_mul(hundredths) / 100;
    times.get(at).copied().unwrap_or(0)
}

/// Prints the times of half, nine of ten, 99 of a hundred and all questions, in nanoseconds.
fn print_times(
    rt: &HostRuntime,
    kind: &str,
    which: &str,
    times: &mut Vec<u64>,
    asked: (u64, u64),
) -> Result<()> {
    times.sort()?;
    let (half, most, nearly) = (part(times, 50), part(times, 90), part(times, 99));
    let all = times.last().copied().unwrap_or(0);
    let (rows, replies) = asked;
    println!(rt;
        "{kind} {which} {} {half} {most} {nearly} {all} {rows} {replies}",
        times.len()
    )?;
    Ok(())
}

/// Prints what each kind of questions took, asked for the first time and once more.
fn print_asked(rt: &HostRuntime, kind: &str, asked: &mut Asked) -> Result<()> {
    let counts = (asked.rows, asked.replies);
    print_times(rt, kind, "first", &mut asked.first, counts)?;
    print_times(rt, kind, "again", &mut asked.again, counts)
}

/// Asks the archive of a folder all questions of a file, which are request lines.
///
/// # Errors
///
/// Where the archive isn't opened, the file can't be read or a question is refused.
pub fn print_asks(rt: &HostRuntime, folder: &str, file: &str) -> Result<()> {
    let questions = fs::read_to_string(rt, file).context("the questions can't be read")?;
    let mut archive = file_archive::open(rt.alloc(), rt, folder).context(
        "the archive isn't opened",
    )?;
    for kind in KINDS {
        let mut asked = ask_kind(rt, &mut archive, questions.as_str(), kind)?;
        if !asked.first.is_empty() {
            print_asked(rt, kind, &mut asked)?;
        }
    }
    Ok(())
}
