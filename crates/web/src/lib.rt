//! HTTP/1.x connections to a served archive: what they ask, and the answers as JSON, read-only.
//!
//!     octets     a head of at most 8,192 octets, in a buffer of that size
//!     target     /api/prefix?at=1704067200&prefix=10.0.0.0/8
//!     line       at 1704067200 prefix 10.0.0.0/8
//!     reply      the lines that a connection of lines would get
//!     body       {"rows":[..],"more":false}
//!
//! A target is translated into the request line that asks the same, and that line is read and replied to as any other, so
//! there is one grammar of questions, and the theorems on replies hold here too (`reply_to_line`). A parameter is one
//! word of its line. How lines become JSON is tested. The target / is that of a page for people, a constant text with
//! a script that asks the other paths.
//!
//! Nothing changes the archive here. A request that is refused for its head alone, as one with a body or of
//! another method, ends its connection: what follows such a head is never read as a request, so a web page can't make
//! a browser send requests in a body. Numbers of the board are loaded by a pass of their own.
#![tactic(auto)]

mod answering;
mod answers;
mod buffer;
mod communities;
mod connection;
mod events;
mod fault;
mod head;
mod metrics;
mod page;
mod parameters;
mod refusals;
mod rendering;
mod replying;
mod routes;
mod rows;
mod standing;
mod status;
mod target;
mod writing;

pub use answering::answer_target;
pub use answers::{Answer, Form};
pub use connection::{Ending, Others, serve_web};
pub use replying::{Reply, reply_to_line};
pub use status::Status;
