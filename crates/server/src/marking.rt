//! Marks that are set on a shared archive, and what is applied then.

ghost use Rattle.std.specs.Prelude.{◌≡◌, OnOk, IfErr, IsSome};
ghost use Rattle.board.specs.Views.{BeginsView};
ghost use Rattle.server.specs.Marks.{AppliesUntilIdle, MarksAndApplies, IsUnmarked};

use crate::troubles::{trouble_of, unmarked};
use archive_calls::Trouble;
use board::{Named, Pass};
use query_threads::{Gate, OnDisk, Shared, Step, Store};
use route_model::Mark;
use service::LoadStop;
use std::sync::Wait;

/// Applies what may be applied, step by step, each once the lock is got.
pub fn apply_all<A: Store, N: Named + OnDisk<A::Disk>, G: Gate + Drop>(
    rt: &impl Wait,
    shared: &Shared<A, N, G>,
    pass: &mut Pass<N>,
) -> Result<(), Trouble>
    ensures idle { IsSome N.disk → OnOk result (AppliesUntilIdle pass.old pass.new) }
    ensures begins { BeginsView pass.old pass.new }
{
    for _ in rt.forever() {
        match shared.apply(rt, pass) {
            Ok(Step::Applied) => {}
            Ok(Step::Idle) => return Ok(()),
            Err(trouble) => return Err(trouble_of(trouble)),
        }
    }
    unreachable!()
}

/// Raises the mark of a collector, and applies what may be applied then.
pub fn set_mark<A: Store, N: Named + OnDisk<A::Disk>, G: Gate + Drop>(
    rt: &impl Wait,
    shared: &Shared<A, N, G>,
    pass: &mut Pass<N>,
    collector: u8,
    mark: Mark,
) -> Result<(), LoadStop>
    ensures marked { IsSome N.disk → OnOk result (MarksAndApplies collector mark pass.old pass.new) }
    ensures refused { IsSome N.disk → IfErr result (IsUnmarked collector mark pass.old pass.new) }
    ensures begins { BeginsView pass.old pass.new }
{
    if let Err(refusal) = shared.mark(rt, pass, collector, mark) {
        return Err(unmarked(refusal));
    }
    match apply_all(rt, shared, pass) {
        Ok(()) => Ok(()),
        Err(trouble) => Err(LoadStop::Trouble(trouble)),
    }
}
