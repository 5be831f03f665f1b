//! Any uses of an archive on two disks are a run of the pure machine.
//!
//! A use is defined by the clauses of its call, as a record for each call (specs/Calls.antt): so the law applies
//! to whatever has these clauses, and the calls themselves are shown to be uses, with no second model of an archive.
//! A call that failed is a crash, with or without its step before it; the next opening finds out which. A
//! crash inside `create` is one at rest: before the call, or right after it. A disk without a journal has no uses yet:
//! `create` is called again.
//!
//! A clause can't quantify over sets of histories, so clauses are about one history, or about what could be left. The
//! law's own invariant has the set: a history in which some run of these uses ends. The law is in a crate of
//! its own, above the archive, since no call of the archive needs it.
#![tactic(auto)]

mod calls;
mod laws;

pub use calls::{
    admit, apply_step, ask, ask_with, changed_look, check, close, create, descend, finish,
    flush_step, mark, open, seen, start,
};
pub use laws::uses_are_runs;
