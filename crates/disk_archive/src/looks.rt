//! A pool whose pages are only read, while an archive is opened.

use buffer_pool::Pool;
use disk_models::EraseDisk;
use std::alloc::Global;

/// The pages of a pool, of which none is set.
#[derive(Drop)]
pub(crate) struct Looks<E: EraseDisk + Drop> {
    pub(crate) alloc: Global,
    pub(crate) pool: Pool<E>,
}
