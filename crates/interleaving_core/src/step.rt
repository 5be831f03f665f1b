//! The steps of a run.

use crate::query::Query;
use route_meaning::Spot;
use route_model::{Admission, Mark};

/// How far a turn of a question goes.
#[derive(Clone, Copy, Debug, PartialEq, Eq)]
pub enum Reach {
    /// Over the rows up to this spot, itself included; it goes over no events.
    UpTo(Spot),
    /// Over this many events more; it goes over no rows.
    Further(u64),
    /// Over all that is left.
    End,
}

/// One step, with all that is free in it.
#[derive(Debug, Drop)]
pub enum Step {
    /// The collector of this number gives a batch.
    Admit(u8, Vec<Admission>),
    /// The collector of this number gives a mark.
    Mark(u8, Mark),
    /// The next change is applied, and up to this many more.
    Apply(u64),
    Flush,
    Begin(Query),
    /// A turn of the question of this number.
    Turn(usize, Reach),
    Crash,
    Recover,
}
