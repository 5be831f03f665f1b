//! Which of the offered records come late.

ghost use Rattle.std.specs.Prelude.{◌≡◌, [], IfOk};
ghost use Rattle.sequencer.specs.Late.{greatest, timely, lates};

use route_model::{Mark, Moment};
use std::alloc::{AllocError, Global};

/// A record that came late: its place in the batch, from 0, its time, and the mark at its turn.
#[derive(Clone, Copy, Debug, PartialEq, Eq)]
pub struct Late {
    pub index: usize,
    pub time: Moment,
    pub mark: Mark,
}

/// A batch of times, sieved: those that aren't late, in their order; the late ones; and the mark after them.
#[derive(Debug, Drop)]
pub struct Sieved {
    pub timely: Vec<Moment>,
    pub late: Vec<Late>,
    pub mark: Mark,
}

/// Parts the times that are late from those that aren't. A time is late that is below the mark or below some earlier
/// time of the batch; the mark reported with it is the greatest of these.
pub fn sieve(alloc: Global, mark: Mark, times: &[Moment]) -> Result<Sieved, AllocError>
    ensures timely { IfOk result (λ s. s.timely.items ≡ timely (λ t. t) mark [] times.now) }
    ensures late { IfOk result (λ s. s.late.items ≡ lates (λ t. t) mark [] 0 times.now) }
    ensures mark { IfOk result (λ s. s.mark ≡ greatest mark times.now) }
{
    let mut timely = Vec::with_capacity(alloc, times.len())?;
    let mut late = Vec::new(alloc);
    let mut reached = mark;
    for (index, &time) in times.iter().enumerate() {
        if time.number() < reached.number() {
            late.push(Late {
                index,
                time,
                mark: reached,
            })?;
        } else {
            timely.push(time)?;
            reached = Mark::at(time);
        }
    }
    Ok(Sieved {
        timely,
        late,
        mark: reached,
    })
}
