//! The head of an archive, on its first home page: counts, marks, and where its rings and its tree are.
//!
//! Each number has 8 octets. After the last collector all is zero:
//!
//!     0        8     16     24     32     40    48    56
//!     applied  last  begun  fresh  block  root  unit  8 zeros
//!
//!     64 + 64 c  72 + 64 c  80 + 64 c  88 + 64 c  96 + 64 c  104 + 64 c  112 + 64 c
//!     offered    admitted   mark       first      used       since       16 zeros      (of collector c)
//!
//! The last time and the marks are in the unit that the head names. A head of an older unit is read in moments: what a collector
//! has given until then is all in the older unit (`since`), and it is never written again.
//!
//! No greatest stamp is stored: order numbers begin with 0, and the time of the last applied change together with the
//! next order number is the least stamp that a later version may have. How many collectors there are isn't stored
//! here but in the journal's note, and is given to the reader: a head of two collectors isn't one of one, since what
//! follows the last one must be zero.
//!
//! What was read is encoded again and compared. A page with a time or a mark above its limit is no head. Whether the pages and
//! the places in rings that a head names are there is tested when the archive is opened, which knows how large the
//! disk is.
#![tactic(auto)]

mod head;
mod lane;
mod older;
mod reading;
mod writing;

pub use head::Head;
pub use lane::Lane;
