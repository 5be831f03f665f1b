//! Asks a served archive the request lines of a file over several connections at once, and prints how long the replies took.

use crate::reading::more;
use anyhow::{Context, Result, bail};
use std::alloc::Global;
use std::io::{BufRead, BufReader, Write};
use std::net::{Net, OpenStream, SocketAddr, TcpListener, TcpStream};
use std::thread::Threads;
use std::time::{Clock, Duration, Instant};
use std::{fs, thread};

/// How many connections there are at most.
pub const MOST: u32 = 64;

/// How many seconds a client waits for a line.
const PATIENCE: u64 = 60;

/// What a client received: how many nanoseconds each reply took, how many lines all of them had, and how many replies were refusals.
#[derive(Drop)]
struct Heard {
    times: Vec<u64>,
    lines: u64,
    refused: u64,
}

/// Whether a line is the last one of a reply: no row and no event, which are followed by others.
fn is_last(line: &str) -> bool {
    let is_row = line.starts_with("R|");
    let is_event = line.starts_with("A|") || line.starts_with("W|") || line.starts_with("D|");
    !is_row && !is_event
}

/// Reads the lines of a reply. Returns how many there were, and whether it was a refusal.
fn hear<R: BufRead>(alloc: Global, lines: &mut R) -> Result<(u64, bool)> {
    let mut line = String::new(alloc);
    for count in 1..u64::MAX {
        line.clear();
        if lines.read_line(&mut line)? == 0 {
            bail!("the connection ended within a reply")
        }
        if is_last(line.as_str()) {
            return Ok((count, line.as_str().starts_with("X|")));
        }
    }
    bail!("a reply without an end")
}

/// Asks the questions of one client over a connection of its own.
fn ask_over<H: Clock + Net<Listener = TcpListener, Stream = TcpStream>>(
    rt: &H,
    alloc: Global,
    address: SocketAddr,
    questions: &str,
    client: usize,
    clients: usize,
) -> Result<Heard> {
    let stream = TcpStream::connect(rt, address)?;
    stream.set_read_timeout(Some(Duration::from_secs(PATIENCE)))?;
    stream.set_nodelay(true)?;
    let mut lines = BufReader::new(alloc, &stream)?;
    let mut heard = Heard {
        times: Vec::new(alloc),
        lines: 0,
        refused: 0,
    };
    for (number, question) in questions.lines().enumerate() {
        if number.checked_rem(clients) != Some(client) {
            continue;
        }
        let began = Instant::now(rt)?;
        let line = format!(in alloc; "{question}\n")?;
        (&mut &stream).write_all(line.as_bytes())?;
        let (count, is_refused) = hear(alloc, &mut lines)?;
        let spent = began.elapsed(rt)?;
        heard
            .times
            .push(u64::try_from(spent.as_nanos()).unwrap_or(u64::MAX))?;
        heard.lines = heard.lines.wrapping_add(count);
        more(&mut heard.refused, usize::from(is_refused));
    }
    Ok(heard)
}

/// The most time that `hundredths` of a hundred replies took.
fn part(times: &[u64], hundredths: usize) -> u64 {
    let at = times.len().saturating_mul(hundredths) / 100;
    times.get(at).copied().unwrap_or(0)
}

/// Prints how many replies came in how many nanoseconds, the times of half, 99 of a hundred and all of them, how many lines they had, and how
/// many were refusals.
fn print_heard(rt: &HostRuntime, clients: usize, spent: Duration, all: Vec<Heard>) -> Result<()> {
    let mut times = Vec::new(rt.alloc());
    let (mut lines, mut refused) = (0u64, 0u64);
    for heard in all {
        times.extend_from_slice(&heard.times)?;
        lines = lines.wrapping_add(heard.lines);
        refused = refused.wrapping_add(heard.refused);
    }
    times.sort()?;
    let most = times.last().copied().unwrap_or(0);
    println!(rt;
        "clients {clients} {} {} {} {} {most} {lines} {refused}",
        times.len(),
        spent.as_nanos(),
        part(&times, 50),
        part(&times, 99)
    )?;
    Ok(())
}

/// Asks the archive that is served at an address all questions of a file, which are request lines: `clients` clients at once, each of
/// which asks its share, one question after the reply to the one before.
///
/// # Errors
///
/// Where the address isn't one, a client isn't served, or the file can't be read.
pub fn print_clients<H: Threads + Clock + Net<Listener = TcpListener, Stream = TcpStream> + Sync>(
    rt: &HostRuntime,
    host: &H,
    address: &str,
    file: &str,
    clients: u32,
) -> Result<()> {
    if clients < 1 || clients > MOST {
        bail!("1 to 64 connections are needed")
    }
    let address = address
        .parse::<SocketAddr>()
        .context("an address and a port are needed")?;
    let questions = fs::read_to_string(rt, file).context("the questions can't be read")?;
    let clients = clients as usize;
    let began = Instant::now(rt)?;
    let alloc = rt.alloc();
    let each = thread::map_indices(
        host,
        alloc,
        clients,
        &|client: usize| {
            ask_over(host, alloc, address, questions.as_str(), client, clients).ok()
        },
    )?;
    let spent = began.elapsed(rt)?;
    let mut all = Vec::new(alloc);
    for heard in each {
        let Some(heard) = heard else {
            bail!("a client wasn't served")
        };
        all.push(heard)?;
    }
    print_heard(rt, clients, spent, all)
}
