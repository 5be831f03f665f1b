//! What the pages and blocks of an archive represent: one history, in a head, a ring for each collector, and a tree.
//!
//! An archive's home pages are, in this order: the head; for each collector the pages of its ring; and the pages of the tree.
//! Of the tree this crate knows only the versions that it represents, which are those of the applied changes.
//!
//!     0     1 + ring * c           1 + ring * collectors
//!     head  ring of collector c    tree                       (c from 0 on; `ring` pages each)
//!
//! An admission that was admitted while times were kept in an older unit stays in its ring as it is, and is read in moments: the head has
//! of each collector the number of the first that isn't so (`LaneHolds`).
//!
//! What pages represent is defined for a head as a value (`HeadRepresents`), apart from page 0: a transaction changes the head in
//! memory and the pages of rings and tree in any order, keeps this relation throughout, and writes page 0 last
//! (`PagesRepresent`). So a transaction of one step and one of many are the same argument. Of the tree it assumes only that it stays
//! the same as long as its own pages do, also if more blocks are settled.
#![tactic(auto)]

mod giving;
mod heading;
mod keeping;
mod marking;
mod passing;
mod settings;
mod stored;

pub use giving::{Sifted, can_give, give};
pub use heading::{copy_head, put_head};
pub use keeping::lane_of;
pub use marking::mark_head;
pub use passing::{TreePlace, can_pass, pass_change};
pub use settings::Settings;
pub use stored::in_moments;
