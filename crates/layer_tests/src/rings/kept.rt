//! A first admission that is read again.

use super::{append, begun, ends, front, front_again, pop};
use crate::be;
use disk_memory::MemErase;
use intake::Ring;
use page_tx::Tx;
use route_model::Moment;
use std::alloc::Global;

/// Whether the second admission is first once the first one is out, although that is kept of a read before.
fn is_next_read(alloc: Global, tx: &mut Tx<MemErase>, ring: &mut Ring) -> Option<bool> {
    let batch = [ends(alloc, 7, 1)?, ends(alloc, 8, 1)?];
    append(alloc, tx, ring, &batch).ok()?;
    let found = front(alloc, tx, ring).ok()??;
    let is_out = pop(tx, ring, found.admission());
    let next = front_again(alloc, tx, ring, Some(found)).ok()??;
    Some(is_out && next.admission().time() == Moment::from(8))
}

#[test]
fn a_kept_admission_is_not_returned_for_other_octets(rt: HostRuntime) {
    let mut tx = begun(rt.alloc()).expect(&rt, "a transaction");
    let mut ring = Ring::empty(1, 9);
    let is_read = is_next_read(rt.alloc(), &mut tx, &mut ring);
    be(&rt, is_read == Some(true), "the next admission");
}
