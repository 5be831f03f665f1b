//! Transactions over a pool of pages: images that are laid over its pages, and then change them together.
//!
//!     images   of at most 31 pages, in memory      what is shown: a page's image, if there is one,
//!     pool     the pages as they are committed     and else the pool's page
//!
//! A transaction owns its pool: beginning again, a refused commit, and taking the pool back
//! discard the images, and no struct borrows the pool. A flush and a checkpoint may be called during a
//! transaction; they move the disk's clock, and their contracts repeat what is shown.
//!
//! `lay` puts several images and moves the next fresh page on, after room was made for all: a caller plans first,
//! with fresh numbers from `next_page` on, and is refused before anything is laid. That the next fresh page only
//! moves on, and that a transaction begins with one of the committed pages or the one after the last, are premises: both
//! are read where they come from, and a number from a disk is tested there. A fetch that needs recovery is refused if
//! no image is held, whether the page is in memory or not.
#![tactic(auto)]

mod error;
mod images;
mod pages;
mod tx;

pub use error::PageError;
pub use pages::Pages;
pub use tx::Tx;
