//! The lines of a feed.

ghost use Rattle.std.specs.Prelude.{◌≡◌, ◌+◌, ◌-◌, suc, [], ◌∷◌, length};
ghost use Rattle.service.specs.FeedLines.{numbers_line, late_line, admitted_text, counts_line, settled_line};
ghost use Rattle.service.specs.Outputs.{Reports};
ghost use Rattle.mrt_records.specs.Values.{reported};
ghost use Rattle.service.specs.FeedTexts.{capped, skips};

use crate::output::Output;
use interleaving_core::BatchReply;
use mrt_records::Item;
use route_model::Mark;
use sequencer::Late;
use std::io::Write;

/// How many records a feed had, and what became of them.
#[derive(Clone, Copy, Debug, PartialEq, Eq)]
pub struct FeedCounts {
    pub records: u64,
    pub admitted: u64,
    /// Those that were late.
    pub late: u64,
    pub refused: u64,
    pub skipped: u64,
}

impl FeedCounts {
    /// Counts what became of a batch.
    pub fn count_batch(&mut self, admitted: &BatchReply)
        ensures admitted { self.new.admitted ≡ capped (self.old.admitted + (admitted.now.receipt.to - admitted.now.receipt.from)) }
        ensures late { self.new.late ≡ capped (self.old.late + length admitted.now.late.items) }
        ensures records { self.new.records ≡ self.old.records }
        ensures refused { self.new.refused ≡ self.old.refused }
        ensures skipped { self.new.skipped ≡ self.old.skipped }
    {
        let kept = admitted.receipt.to.saturating_sub(admitted.receipt.from);
        self.admitted = self.admitted.saturating_add(kept);
        self.late = self.late.saturating_add(admitted.late.len() as u64);
    }

    /// Counts a record, and whether it is skipped.
    pub fn count_record(&mut self, item: &Item)
        ensures records { self.new.records ≡ capped (suc self.old.records) }
        ensures skipped { self.new.skipped ≡ capped (self.old.skipped + skips (reported item.now ∷ [])) }
        ensures admitted { self.new.admitted ≡ self.old.admitted }
        ensures late { self.new.late ≡ self.old.late }
        ensures refused { self.new.refused ≡ self.old.refused }
    {
        self.records = self.records.saturating_add(1);
        self.skipped = self.skipped.saturating_add(skips_of(item));
    }
}

/// How many skipped records the item is: 1 or 0.
fn skips_of(item: &Item) -> u64
    ensures skips { result ≡ skips (reported item.now ∷ []) }
{
    match item {
        Item::Skipped { .. } => 1,
        Item::Message { .. }
        | Item::StateChange { .. }
        | Item::PeerTable(_)
        | Item::Rib { .. }
        | Item::Malformed { .. } => 0,
    }
}

/// Writes a letter, the numbers with a bar before each, and LF.
fn write_numbers<W: Write>(out: &mut Output<W>, letter: &str, numbers: &[u64])
    ensures line { Reports out.old out.new (numbers_line letter.now numbers.now) }
{
    out.text(letter);
    for number in numbers {
        out.text("|");
        out.number(*number);
    }
    out.text("\n");
}

fn write_late<W: Write>(out: &mut Output<W>, late: &Late)
    ensures line { Reports out.old out.new (late_line late.now) }
{
    out.text("L|");
    out.number(late.index as u64);
    out.text("|");
    out.moment(late.time.number());
    out.text("|");
    out.moment(late.mark.number());
    out.text("\n");
}

/// Writes what became of a batch: `B|FROM|TO|OFFERED`, then `L|INDEX|TIME|MARK` for each late record. No memory
/// is needed.
pub fn write_admitted<W: Write>(out: &mut Output<W>, admitted: &BatchReply)
    ensures lines { Reports out.old out.new (admitted_text admitted.now) }
{
    let receipt = &admitted.receipt;
    write_numbers(out, "B", &[receipt.from, receipt.to, admitted.offered]);
    for late in &admitted.late {
        write_late(out, late);
    }
}

/// Writes what became of a feed: `F|RECORDS|ADMITTED|LATE|REFUSED|SKIPPED`. No memory is needed.
pub fn write_counts<W: Write>(out: &mut Output<W>, counts: &FeedCounts)
    ensures line { Reports out.old out.new (counts_line counts.now) }
{
    let FeedCounts {
        records,
        admitted,
        late,
        refused,
        skipped,
    } = *counts;
    write_numbers(out, "F", &[records, admitted, late, refused, skipped]);
}

/// Writes the settled watermark: `S|SETTLED`. No memory is needed.
pub fn write_settled<W: Write>(out: &mut Output<W>, settled: Mark)
    ensures line { Reports out.old out.new (settled_line settled) }
{
    out.text("S|");
    out.moment(settled.number());
    out.text("\n");
}
