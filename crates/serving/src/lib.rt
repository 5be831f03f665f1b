//! Serves an archive on sockets: acceptors, workers that serve connections, one applier and one flusher.
//!
//!     acceptor, the calling thread      accepts connections; 900 may wait for a worker, and further ones are closed
//!     workers                           serve one connection each, to its end, with the lines that the port takes
//!     acceptor of HTTP                  the same of the connections of another port
//!     its workers                       as many as the others; they read requests of HTTP (crate web) in place of lines
//!     acceptor of the admin socket      the same of its connections, which may do all
//!     its workers                       one for each collector, and two more
//!     applier                           applies what may be applied; opens the archive again after a failure
//!     flusher                           writes pages home
//!
//! The first acceptor begins last: the others are started before it in a scope. If one can't be started, those that were end, and `serve`
//! returns `Threads` with no connection served. Once all are started `ready` is called, by which the program prints `listening`, and then a
//! flag is set, without which no acceptor accepts a connection. An acceptor waits for connections alone: to stop it, the worker that was
//! asked to sets a flag and makes a last connection, which nobody serves. (A listener that doesn't block would have to poll.) The admin
//! socket, whose file may be gone by then, is shut down instead, which ends its acceptor's wait.
//!
//! The admin socket has workers of its own, so that a `stop` gets through whatever clients do on the other port: feeds of all collectors
//! leave two of them.
//!
//! Each read and write of a connection waits a second and is repeated, as often as a client may be idle, or once more after a stop. So no
//! clock is needed, no client keeps a worker for good, and none delays a stop.
//!
//! Applier and flusher sleep for 10 milliseconds if there is nothing to do: a thread that waits to be woken would have to be woken by each
//! admission, under the lock. A connection is closed after what its client still sends (64 reads of 4,096 octets or 200 milliseconds each
//! at most): a system that has octets unread at a close drops what it hasn't delivered, such as the refusal of a line that is too long.
//!
//! The applier opens the archive again, since its next step shows within ten milliseconds that a device failed, whichever thread met it,
//! and it is one thread. After each attempt it pauses, for 10 milliseconds, twice as long each time up to ten seconds, until a change is
//! applied. A failed read of a question doesn't reopen: there is one warning in an opening. No attempt is made once no worker is left. A
//! worker's place is a value that is dropped with the worker, so workers that never began are counted off too, and applier and flusher end.
//! Of warnings of failed sockets, and of connections that can't be taken, there is at most one a second; those between are counted.
#![tactic(auto)]

mod client;
mod doors;
mod house;
mod jobs;
mod keeping;
mod link;
mod outage;
mod serving;
mod socket;
mod stopping;
mod warning;

pub use client::{Closing, serve_client};
pub use doors::Doors;
pub use serving::{ServeError, serve};
