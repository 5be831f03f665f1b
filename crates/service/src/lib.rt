//! Feeds, requests and the commands of the program as lines: what is read, what is done with an archive, and what is written. All of it is
//! generic in `RouteArchive`, so no code here knows a disk, a file or a thread.
//!
//!     what comes     what is done with it                                        lines that are written
//!     a feed         octets --> records --> admissions --> batches --> admit     B and L for each batch, X for a refused record, F at the end
//!     files          a feed for each; then the mark, applying, flushing          those of each feed, and S
//!     a request      words --> question --> answer                               R, or A, W and D, or C; then E, or M if more follow; or S, N, X
//!     a check        the archive reads all that it has                           ok
//!     arguments      clap's reading --> an `Invocation`                          none, or usage, help, version
//!
//! Such a line is a letter, or `ok`, and fields with `|` before each, and ends in LF; X has the number and the name of a refusal. Times are
//! written as seconds since 1970, with six digits after a point where they aren't whole. An answer has 256 rows, events or places at most;
//! M has what the next question goes on after.
//!
//! A batch is offered once it has the most admissions that are asked for, before it would have more octets than the archive takes (each
//! admission counts its encoding and 4 octets), and at the end of the feed. If the collector's ring is too full for it, what may be applied
//! is applied, and the batch is offered once more; a second refusal ends the feed. What B reports is durable, so its lines are flushed at
//! once. A refused record is lost alone. A feed that ends inside a record, or at a Length above 131,072, is cut: what came before is
//! admitted, but the mark isn't set. Several files have one mark, which is set after the last one.
//!
//! `Output` keeps the first error of its writer and writes nothing after it, so what writes lines has no path for errors; the status is
//! asked for at the end. A line of a refusal needs no memory, so out of memory can be reported too. The exit status is 0 if all was done
//! and written, else 1, or 2 if clap refuses the words.
//!
//!     intake, feeding, making_room, resuming, loading         feeds and loads; doubts: what holds a strict load back
//!     request, request_words, rows_request, events_request,
//!     changed_request                                         a line is read; replying and asking answer it
//!     feed_lines, answer_lines, event_lines, changed_lines,
//!     refusal                                                 lines that are written; faults: each error's place among refusals
//!     arguments, command_line, invocation, listening          the command line; running, checking: once an archive is open
//!     reporting                                               lines of standard error
#![tactic(auto)]

mod answer_lines;
mod arguments;
mod asking;
mod changed_lines;
mod changed_request;
mod checking;
mod command_line;
mod doubts;
mod event_lines;
mod events_request;
mod faults;
mod feed_lines;
mod feeding;
mod help;
mod intake;
mod invocation;
mod laws;
mod limits;
mod listening;
mod loading;
mod making_room;
mod output;
mod refusal;
mod replying;
mod report;
mod reporting;
mod request;
mod request_laws;
mod request_words;
mod resuming;
mod rows_request;
mod running;
mod settings;
mod status;

pub use answer_lines::{write_answer, write_ending, write_place, write_row};
pub use arguments::VERSION;
pub use asking::ask;
pub use changed_lines::{write_changed, write_spots};
pub use checking::check;
pub use command_line::command;
pub use doubts::{DAY, FeedDoubt, doubts_of, is_far};
pub use event_lines::{write_change, write_events, write_events_ending};
pub use faults::{FeedCut, FeedStop, LoadStop, Unanswered};
pub use feed_lines::{FeedCounts, write_admitted, write_counts, write_settled};
pub use feeding::{report_batch, report_refused};
pub use intake::{End, cut_of, feed, report_end, report_stop};
pub use invocation::{
    Checking, CommandError, Comparing, Creation, Dumping, Examining, Finding, Invocation, Listing,
    Loading, Question, Serving, Target,
};
pub use laws::{batches_share_a_feed, resumed_feeds_drop_the_first};
pub use limits::BatchLimits;
pub use listening::report_listening;
pub use loading::load;
pub use output::{Input, Output, read_through};
pub use refusal::{
    Refusal, write_error, write_outside, write_reason, write_refusal, write_refused_record,
};
pub use replying::{answer_text, changed_text, reply, skip_of, watermark_text};
pub use report::{FileLoad, LoadReport};
pub use reporting::{
    report_lost, report_out_of_memory, report_outside, report_refusal, report_usage, report_with,
};
pub use request::{Request, RequestError, read_request, words_of};
pub use request_laws::lines_are_one_request;
pub use request_words::{LAST_COLLECTOR, read_peer, words_after};
pub use resolve::WithoutHop;
pub use running::{ask_line, check_archive, finish, load_files, report_created};
pub use settings::{FeedSettings, LoadSettings};
pub use status::{Status, reported};
