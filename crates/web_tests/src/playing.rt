//! Connections to an archive, whose octets lie in memory.

use crate::made::Stage;
use board::{Named, Pass};
use query_threads::{Reader, Unpromised};
use server::Meters;
use service::Output;
use std::alloc::Global;
use std::io;
use std::io::{Error, ErrorKind, Read, Write};
use std::sync::Wait;
use std::time::Clock;
use web::{Ending, Others, serve_web};

/// A client that sends these octets, at most this many at a time, and then ends the connection or is lost.
#[derive(Drop)]
pub(crate) struct Client<'a> {
    pub(crate) octets: &'a [u8],
    pub(crate) piece: usize,
    pub(crate) is_lost: bool,
    /// Others wait for its worker.
    pub(crate) is_awaited: bool,
}

/// Whether others wait.
#[derive(Clone, Copy)]
struct Queue {
    is_awaited: bool,
}

impl Others for Queue {
    fn wait(&self) -> bool {
        self.is_awaited
    }
}

impl Read for Client<'_> {
    fn read(&mut self, piece: &mut [u8]) -> io::Result<usize> {
        if self.octets.is_empty() && self.is_lost {
            return Err(Error::from(ErrorKind::ConnectionReset));
        }
        let most = self.piece.min(piece.len());
        let Some(front) = piece.get_mut(..most) else {
            return Ok(0);
        };
        self.octets.read(front)
    }
}

/// What a client takes: at most this many octets in all, and then writes fail.
#[derive(Drop)]
struct Taken<'a> {
    octets: &'a mut Vec<u8>,
    room: usize,
}

impl Write for Taken<'_> {
    fn write(&mut self, piece: &[u8]) -> io::Result<usize> {
        let Some(room) = self.room.checked_sub(piece.len()) else {
            return Err(Error::from(ErrorKind::BrokenPipe));
        };
        self.room = room;
        self.octets.write(piece)
    }

    fn flush(&mut self) -> io::Result<()> {
        Ok(())
    }
}

/// What a connection received, and how it ended.
#[derive(Drop)]
pub(crate) struct Played {
    pub(crate) received: Vec<u8>,
    pub(crate) ending: Ending,
}

/// Plays a connection whose client takes at most this many octets.
pub(crate) fn play<B: Named>(
    rt: &(impl Wait + Clock),
    alloc: Global,
    stage: &Stage<B>,
    first: &mut Pass<Unpromised<B>>,
    mut client: Client<'_>,
    room: usize,
) -> Option<Played> {
    let mut pass = stage.split(first);
    let mut reader = Reader::new(rt, alloc, stage, 8).ok()?;
    let meters = Meters::new();
    let others = Queue {
        is_awaited: client.is_awaited,
    };
    let mut received = Vec::new(alloc);
    let mut out = Output::new(Taken {
        octets: &mut received,
        room,
    });
    let ending = serve_web(
        rt,
        alloc,
        stage,
        &mut pass,
        &mut reader,
        &meters,
        &others,
        &mut client,
        &mut out,
    );
    drop(out);
    Some(Played { received, ending })
}
