//! The command `ask`: a question is answered by the archive on two disks.

ghost use Rattle.std.specs.Prelude.{◌≡◌, ◌≤◌, IfOk, IfErr, string_bytes};
ghost use Rattle.page_journal.specs.Layout.{home_place};
ghost use Rattle.route_meaning.specs.History.{History};
ghost use Rattle.disk_archive.specs.Openings.{IsFaultOrMemory};
ghost use Rattle.disk_commands.specs.Disks.{Keep, Leave, Represent};
ghost use Rattle.service.specs.Running.{IsLineAsked};

use crate::command::Command;
use crate::disks::{Disks, Ended};
use crate::running::run_on;
use archive_calls::RouteArchive;
use disk_archive::OpenError;
use disk_calls::NoReasons;
use disk_models::{EraseDisk, OnceDisk};
use service::{Output, Question, ask_line};
use std::alloc::Global;
use std::io::Write;

/// A line that is answered.
#[derive(Drop)]
struct AskLine<'q, 't, 'o, 'e, W: Write, X: Write> {
    asked: &'q Question<'t>,
    out: &'o mut Output<W>,
    err: &'e mut Output<X>,
}

impl<A: RouteArchive, W: Write, X: Write> Command<A> for AskLine<'_, '_, '_, '_, W, X> {
    ghost always = { λ was now status. (was.out.ghost_name ≡ now.out.ghost_name) × (was.err.ghost_name ≡ now.err.ghost_name) };

    ghost does = { λ was now most h g status. IsLineAsked (string_bytes was.asked.now.line) h status was.out.now now.out.now was.err.now now.err.now × (g ≡ h) };

    fn run(&mut self, alloc: Global, archive: A) -> (A, u8) {
        let mut archive = archive;
        let status = ask_line(alloc, &mut archive, self.asked, self.out, self.err);
        (archive, status)
    }
}

/// Answers the line that is asked, by the archive on both disks, and writes out what is buffered. The exit status is that of the answer, and 1
/// if not all lines could be written. Disks that read as an archive are refused only if a device fails or memory runs out.
pub fn ask_on<E: EraseDisk + Drop, O: OnceDisk + Drop, W: Write, X: Write>(
    alloc: Global,
    disks: Disks<E, O>,
    asked: &Question<'_>,
    out: &mut Output<W>,
    err: &mut Output<X>,
) -> Ended<E, O, OpenError>
    // The answer is that of the history which the disks read as, and they keep it.
    ensures answered { IfOk result.outcome (λ status. (h : History) → Represent E.EraseDisk O.OnceDisk disks h → IsLineAsked (string_bytes asked.now.line) h status out.old out.new err.old err.new × Leave E.EraseDisk O.OnceDisk result.disks result.is_read h) }
    ensures unopened { IfErr result.outcome (λ why. (h : History) (r : Represent E.EraseDisk O.OnceDisk disks h) → home_place r.site.homes ≤ E.octet_count disks.erase → IsFaultOrMemory why) }
    ensures idle { IfErr result.outcome (λ why. (out.new ≡ out.old) × (err.new ≡ err.old)) }
    ensures kept { (h : History) → Keep E.EraseDisk O.OnceDisk disks h → Keep E.EraseDisk O.OnceDisk result.disks h }
{
    let mut command = AskLine { asked, out, err };
    run_on(alloc, disks, NoReasons, &mut command)
}
