//! Lines of a stream, in fixed memory, and the octets after a line.
//!
//!     0          text      whole = text + 1 or 2                 4,096
//!     the line   CR LF     octets that are read ahead  ..        the most that there is room for
//!
//! The octets that are read ahead are in an array of a line's limit: so a connection has the same memory whatever
//! comes, and a reader of lines never runs out of memory (std's `read_until` grows a `Vec` as long as no line feed
//! comes). A line ends in LF, and one CR before that belongs to its end; both count among the 4,096 octets. Any other
//! octet may be in a line. A line without LF is none: a connection that is cut in the middle of one asked nothing.
//!
//! A line is returned by a second call (`line`): the call that reads it lends nothing, so its contract can state what
//! is still to be read. A reader of lines is a reader, of the octets after the last line: so what follows a line that
//! announces a feed is read by whatever reads feeds, also if it came with the line. After `TooLong` the octets stay;
//! to skip to the next LF would be the caller's choice.
#![tactic(auto)]

mod fault;
mod laws;
mod line_end;
mod reading;
mod window;

pub use fault::LineError;
pub use laws::a_line_is_one;
pub use reading::{Found, LineReader};
pub use window::LIMIT;
