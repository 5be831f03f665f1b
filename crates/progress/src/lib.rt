//! One line on a terminal that shows how far a load, or a question, has come. It is rewritten in place, and gone at the end. Neither the
//! load nor the question knows of it: the file's reader, the archive and the writers of lines are wrapped, and behave as without it.
//!
//!     octets 12582912, records 31000, changes applied 96123, octets a second 6291456
//!     rows 1048576, rows a second 349525
//!
//! Octets are counted as they are read. Records are counted by batch, once the archive has admitted it: batches have
//! nothing else, so peer tables and records that are refused or skipped don't count. Changes applied are the archive's
//! count now less that before the load, so any archive is wrapped that returns how many are applied ([`Applied`]). Rows are those of all
//! answers, events and places among them, whether they are printed or not.
//!
//! Standard output may be the same terminal, and then the line is removed before anything is written there too. The line comes
//! back with the next count, if 200 ms have passed since it was last written; what takes less than that has no line.
#![tactic(auto)]

mod applied;
mod archive;
mod counts;
mod line;
mod meter;
mod rate;
mod reader;
mod rows;
mod source;
mod writer;

pub use applied::Applied;
pub use archive::WatchedArchive;
pub use counts::Counts;
pub use line::Line;
pub use meter::Meter;
pub use reader::WatchedReader;
pub use rows::{RowCounts, RowMeter};
pub use source::WatchedSource;
pub use writer::ClearedWriter;
