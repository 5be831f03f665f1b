//! The head of an archive, and its page in a transaction.

ghost use Rattle.std.specs.Prelude.{◌≡◌, ◌<◌, ◌≤◌, ◌^◌, ◌∷◌, [], ℕ, List, length, slice_set, IfOk, OnOk, OnErr, IfErr};
ghost use Rattle.route_model.specs.Moments.{IsMoment};
ghost use Rattle.page_journal.specs.Recovers.{IsListed};
ghost use Rattle.page_tx.specs.Device.{KeepsDevice};
ghost use Rattle.page_tx.specs.Images.{joined};
ghost use Rattle.page_tx.specs.Start.{Start};
ghost use Rattle.archive_head.specs.Head.{IsHead, IsLane, head_octets};
ghost use Rattle.archive_pages.specs.Refusals.{HeadRefusal};

use archive_head::{Head, Lane};
use page_tx::{PageError, Pages};
use route_model::Moment;
use std::alloc::{AllocError, Global};

/// The same head. A call changes the copy, and the head itself only once what it says is committed. It fails if memory runs out, and
/// only then.
pub fn copy_head(alloc: Global, head: &Head) -> Result<Head, AllocError>
    ensures copy { IfOk result (λ copy. copy ≡ head.now) }
{
    let mut lanes = Vec::with_capacity(alloc, head.lanes.len())?;
    lanes.extend_from_slice(&head.lanes)?;
    Ok(Head {
        applied: head.applied,
        last: head.last,
        begun: head.begun,
        fresh: head.fresh,
        block: head.block,
        root: head.root,
        lanes,
    })
}

fn number_fits(n: u64)
    ensures { n < 2 ^ 64 }
{}

fn time_fits(time: Moment)
    ensures { IsMoment time }
{}

fn lane_fits(lane: Lane)
    ensures { IsLane lane }
{}

// Each number of a head has eight octets.
fn head_fits(head: &Head)
    requires few { length head.now.lanes ≤ 16 }
    ensures valid { IsHead head.now }
{
    number_fits(head.applied);
    time_fits(head.last);
    number_fits(head.begun);
    number_fits(head.fresh);
    number_fits(head.block);
    number_fits(head.root);
    for lane in &head.lanes {
        lane_fits(*lane);
    }
}

/// Lays the head's page over page 0, as the last of a transaction. One of which an image is held is replaced. After a
/// refusal the same pages are shown.
pub fn put_head<P: Pages>(alloc: Global, pages: &mut P, head: &Head) -> Result<(), PageError>
    requires few { length head.now.lanes ≤ 16 }
    requires some { 0 < P.homes pages.old }
    ensures written { OnOk result ((start : Start) (shown : List (List ℕ)) → P.shows pages.old start shown → P.shows pages.new start (slice_set shown 0 (head_octets head.now))) }
    ensures valid { IsHead head.now }
    ensures same { OnErr result ((start : Start) (shown : List (List ℕ)) → P.shows pages.old start shown → P.shows pages.new start shown) }

    ensures named { OnOk result (P.named pages.new ≡ joined (P.named pages.old) (0 ∷ [])) }
    ensures as_named { OnErr result (P.named pages.new ≡ P.named pages.old) }
    ensures few { OnOk result (length (joined (P.named pages.old) (0 ∷ [])) ≤ 31) }
    ensures held { IsListed 0 (P.named pages.old) → IfErr result (λ e. e ≡ PageError.OutOfMemory) }
    ensures refused { IfErr result (HeadRefusal (length (joined (P.named pages.old) (0 ∷ [])))) }

    ensures resident { (m : ℕ) → P.resident pages.old m → P.resident pages.new m }
    ensures homes { P.homes pages.new ≡ P.homes pages.old }
    ensures next { P.next pages.new ≡ P.next pages.old }
    ensures down { P.down pages.new ≡ P.down pages.old }
    ensures device { KeepsDevice (P.honest pages.old) (P.honest pages.new) (P.faults pages.old) (P.faults pages.new) ⊥ }
{
    head_fits(head);
    let page = head.write(alloc)?;
    pages.set(0, page)?;
    Ok(())
}
