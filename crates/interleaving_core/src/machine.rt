//! The pure machine.

ghost use Rattle.std.specs.Prelude.{ℕ, ◌≡◌, ◌<◌, true, false, map, slice_get, IfOk, OnOk, OnErr};
ghost use Rattle.route_meaning.specs.History.{History};
ghost use Rattle.interleaving_core.specs.Steps.{Applies, AppliesMore, NothingToApply};
ghost use Rattle.interleaving_core.specs.World.{created, with_history, resume_of};
ghost use Rattle.interleaving_core.specs.declared.step.Step.TheVariants.{Mark as SetMark, Apply, Flush, Begin, Turn, Crash, Recover};
ghost use Rattle.interleaving_core.specs.Does.{WhenUp, AppliesLess, DoesAdmit, Does};

use crate::applying::{is_below_marks, order};
use crate::given::Given;
use crate::query::Query;
use crate::question::Question;
use crate::reply::{Reply, Resume};
use crate::settling::settled_by;
use crate::step::{Reach, Step};
use crate::turns::take_turn;
use route_model::{Admission, Mark};
use std::alloc::{AllocError, Global};
use std::marker::Model;

/// A history, the questions that were begun, and whether all is down. All is in memory: a call that is refused memory leaves all as it
/// was, but for [`Machine::apply`].
#[derive(Drop)]
pub struct Machine {
    alloc: Global,
    given: Vec<Given>,
    whole: usize,
    some: usize,
    questions: Vec<Question>,
    down: bool,
}

impl Model for Machine {
    ghost use Rattle.interleaving_core.specs.World.{World};

    ghost Value = { World };

    ghost use Rattle.std.specs.Prelude.{◌≤◌, length};

    ghost invariant = { λ m. length m.given.items ≤ 256 };

    ghost view = { λ m. record { history = record { intakes = m.given.items; whole = m.whole; some = m.some }; questions = m.questions.items; down = m.down } };
}

impl Machine {
    /// A machine with this many collectors, which gave nothing, and nothing was asked.
    pub fn created(alloc: Global, collectors: u8) -> Result<Machine, AllocError>
        ensures created { IfOk result (λ m. m ≡ created collectors) }
    {
        let mut given = Vec::new(alloc);
        for _ in 0..collectors {
            given.push(Given::new(alloc))?;
        }
        Ok(Machine {
            alloc,
            given,
            whole: 0,
            some: 0,
            questions: Vec::new(alloc),
            down: false,
        })
    }

    /// Where the collector of this number goes on, if there is one.
    pub fn resume(&self, collector: u8) -> Option<Resume>
        ensures resume { result ≡ slice_get (map resume_of self.now.history.intakes) collector }
    {
        let given = self.given.get(collector as usize)?;
        Some(given.resume())
    }

    /// The collector of this number gives a batch. Refused only memory, or a count of offered records that is full.
    pub fn admit(&mut self, collector: u8, batch: &[Admission]) -> Result<Reply, AllocError>
        ensures does { IfOk result (λ reply. WhenUp self.old reply self.new (DoesAdmit self.old collector batch.now reply self.new)) }
        ensures same { OnErr result (self.new ≡ self.old) }
    {
        if self.down {
            return Ok(Reply::NeedsRecovery);
        }
        let number = collector as usize;
        if number >= self.given.len() {
            return Ok(Reply::NoCollector);
        }
        let given = &mut self.given[number];
        let reported = given.take_in(self.alloc, collector, batch)?;
        Ok(Reply::Taken(reported))
    }

    /// The collector of this number gives a mark.
    pub fn mark(&mut self, collector: u8, mark: Mark) -> Reply
        ensures does { Does self.old (SetMark collector mark) result self.new }
    {
        if self.down {
            return Reply::NeedsRecovery;
        }
        let number = collector as usize;
        if number >= self.given.len() {
            return Reply::NoCollector;
        }
        let given = &mut self.given[number];
        if !given.raise(mark) {
            return Reply::MarkBack;
        }
        Reply::Marked
    }

    /// Applies the next change, where its admission is below every mark. Returns whether it did.
    // "Nothing may be applied" is said of each admission that waits; those after the first are no earlier, so one look is enough.
    fn apply_one(&mut self) -> Result<bool, AllocError>
        ensures applied { IfOk result (λ did. did ≡ true → (g : History) × Applies self.old.history g × (self.new ≡ with_history self.old g)) }
        ensures idle { IfOk result (λ did. did ≡ false → NothingToApply self.old.history × (self.new ≡ self.old)) }
        ensures same { OnErr result (self.new ≡ self.old) }
    {
        let all = order(self.alloc, &self.given)?;
        if self.whole >= all.len() {
            return Ok(false);
        }
        let next = &all[self.whole];
        if !is_below_marks(&self.given, next.time()) {
            return Ok(false);
        }
        if next.admission().changes().len().saturating_sub(self.some) > 1 {
            self.some += 1;
            return Ok(true);
        }
        self.whole += 1;
        self.some = 0;
        Ok(true)
    }

    /// Applies up to `more` changes more; fewer where memory runs out.
    fn apply_more(&mut self, more: u64) -> Result<(), AllocError>
        ensures all { OnOk result ((g : History) × AppliesMore more self.old.history g × (self.new ≡ with_history self.old g)) }
        ensures less { OnErr result ((fewer : ℕ) × (fewer < more) × (g : History) × AppliesMore fewer self.old.history g × (self.new ≡ with_history self.old g)) }
    {
        'more: for _ in 0..more {
            if !self.apply_one()? {
                return Ok(());
            }
        }
        Ok(())
    }

    /// The next change is applied, and up to `more` after it. If memory runs out, none may be applied, or fewer.
    pub fn apply(&mut self, more: u64) -> Result<Reply, AllocError>
        ensures does { IfOk result (λ reply. Does self.old (Apply more) reply self.new) }
        ensures less { OnErr result (AppliesLess self.old more self.new) }
    {
        if self.down {
            return Ok(Reply::NeedsRecovery);
        }
        if !self.apply_one()? {
            return Ok(Reply::Idle);
        }
        self.apply_more(more)?;
        Ok(Reply::Applied)
    }

    /// Writes what isn't written, which is nothing here.
    pub fn flush(&mut self) -> Reply
        ensures does { Does self.old Flush result self.new }
    {
        if self.down {
            return Reply::NeedsRecovery;
        }
        Reply::Flushed
    }

    /// Puts a question in progress under the next number.
    pub fn begin(&mut self, query: Query) -> Result<Reply, AllocError>
        ensures does { IfOk result (λ reply. Does self.old (Begin query) reply self.new) }
        ensures same { OnErr result (self.new ≡ self.old) }
    {
        let number = self.questions.len();
        self.questions.push(Question::start(self.alloc, query))?;
        Ok(Reply::Begun(number))
    }

    /// The question of this number takes a turn over what is wholly applied: below the settled watermark nothing counts that isn't.
    pub fn turn(&mut self, number: usize, reach: Reach) -> Result<Reply, AllocError>
        ensures does { IfOk result (λ reply. Does self.old (Turn number reach) reply self.new) }
        ensures same { OnErr result (self.new ≡ self.old) }
    {
        if self.down {
            return Ok(Reply::NeedsRecovery);
        }
        if number >= self.questions.len() {
            return Ok(Reply::NoQuestion);
        }
        let question = &self.questions[number];
        if question.is_ended() {
            return Ok(Reply::NoQuestion);
        }
        let all = order(self.alloc, &self.given)?;
        let whole = self.whole.min(all.len());
        let settled = settled_by(self.alloc, &self.given, &all[whole..])?;
        if settled.number() <= question.query().last_moment().number() {
            return Ok(Reply::AboveWatermark(settled));
        }
        let turned = take_turn(self.alloc, &all[..whole], question, &reach)?;
        self.questions[number] = turned.question;
        Ok(turned.reply)
    }

    /// All goes down, and all questions are ended.
    pub fn crash(&mut self) -> Reply
        ensures does { Does self.old Crash result self.new }
    {
        for question in self.questions.iter_mut() {
            *question = Question::Ended(question.query());
        }
        self.down = true;
        Reply::Crashed
    }

    /// All comes up again.
    pub fn recover(&mut self) -> Reply
        ensures does { Does self.old Recover result self.new }
    {
        self.down = false;
        Reply::Recovered
    }
}
