//! What a shared archive replies to requests.

ghost use Rattle.std.specs.Prelude.{◌≡◌, ◌<◌, ◌≤◌, ℕ, IfOk, IfErr, OnOk, IfSome, IsNone, IsSome, ◌↔◌, suc, string_bytes};
ghost use Rattle.board.specs.Past.{Among};
ghost use Rattle.board.specs.Views.{BeginsView, with_seen, watermark_of, durable_of};
ghost use Rattle.interleaving_core.specs.Does.{last_moment};
ghost use Rattle.service.specs.AnswerLines.{count_line};
ghost use Rattle.server.specs.Replies.{IsAnswerOver, IsChangedOver, IsReplyOver, NamesOneOf, IsRefusedOver, IsNotBelow, SeesBy};

use crate::meters::Meters;
use crate::troubles::unanswered;
use archive_calls::Trouble;
use board::{Named, Pass};
use interleaving_core::Query;
use query_threads::{Gate, OnDisk, Reader, Shared, Store};
use route_meaning::ChangedQuestion;
use service::{Request, Unanswered, answer_text, changed_text, skip_of, watermark_text};
use std::alloc::{AllocError, Global};
use std::sync::Wait;
use std::time::Clock;

/// The line of a count of records.
fn count_text(alloc: Global, count: u64) -> Result<String, AllocError>
    ensures text { IfOk result (λ text. string_bytes text ≡ count_line count) }
{
    format!(in alloc; "N|{count}\n")
}

/// The lines of the answer to a question, over what the pass sees then.
fn answer_question<A: Store, N: Named + OnDisk<A::Disk>, G: Gate + Drop>(
    rt: &impl Wait,
    alloc: Global,
    shared: &Shared<A, N, G>,
    pass: &mut Pass<N>,
    reader: &mut Reader<A, N>,
    number: u64,
    query: Query,
) -> Result<String, Unanswered>
    requires reader { IsSome N.disk → Among reader.old pass.old.past.blocks }
    ensures reader { IsSome N.disk → Among reader.new pass.new.past.blocks }
    ensures begins { BeginsView pass.old pass.new }
    ensures answered { IfOk result (λ text. IsAnswerOver (IsSome N.disk) pass.new query (string_bytes text)) }
    ensures refused { IfErr result (IsRefusedOver (IsSome N.disk) shared.now.collectors pass.new (Request.Question query)) }
    ensures not_refused { IsSome N.disk → IfErr result (IsNotBelow pass.old (Request.Question query)) }
{
    let skip = skip_of(&query);
    let answer = match shared.ask(rt, pass, reader, number, query) {
        Ok(answer) => answer,
        Err(refusal) => return Err(unanswered(refusal)),
    };
    match answer_text(alloc, skip, &answer) {
        Ok(text) => Ok(text),
        Err(_) => Err(Unanswered::Trouble(Trouble::OutOfMemory)),
    }
}

/// The lines of the places that changed, over what the pass sees then.
fn answer_changed<A: Store, N: Named + OnDisk<A::Disk>, G: Gate + Drop>(
    rt: &impl Wait,
    alloc: Global,
    shared: &Shared<A, N, G>,
    pass: &mut Pass<N>,
    reader: &mut Reader<A, N>,
    number: u64,
    question: ChangedQuestion,
) -> Result<String, Unanswered>
    requires reader { IsSome N.disk → Among reader.old pass.old.past.blocks }
    ensures reader { IsSome N.disk → Among reader.new pass.new.past.blocks }
    ensures begins { BeginsView pass.old pass.new }
    ensures answered { IfOk result (λ text. IsChangedOver (IsSome N.disk) pass.new question (string_bytes text)) }
    ensures refused { IfErr result (IsRefusedOver (IsSome N.disk) shared.now.collectors pass.new (Request.Changed question)) }
    ensures not_refused { IsSome N.disk → IfErr result (IsNotBelow pass.old (Request.Changed question)) }
{
    let answer = match shared.changed(rt, pass, reader, number, question) {
        Ok(answer) => answer,
        Err(refusal) => return Err(unanswered(refusal)),
    };
    match changed_text(alloc, &answer) {
        Ok(text) => Ok(text),
        Err(_) => Err(Unanswered::Trouble(Trouble::OutOfMemory)),
    }
}

/// The watermark as the pass sees it then.
pub(crate) fn load_watermark<A: Store, N: Named + OnDisk<A::Disk>, G: Gate + Drop>(
    shared: &Shared<A, N, G>,
    pass: &mut Pass<N>,
) -> u64
    ensures number { result ≡ watermark_of pass.new }
    ensures sees { SeesBy Request.Watermark pass.old pass.new }
{
    shared.watermark(pass)
}

/// How many records of the collector are admitted, as the pass sees it then, if there is such a collector.
fn load_count<A: Store, N: Named + OnDisk<A::Disk>, G: Gate + Drop>(
    shared: &Shared<A, N, G>,
    pass: &mut Pass<N>,
    collector: u8,
) -> Option<u64>
    ensures number { IfSome result (λ count. count ≡ durable_of pass.new collector) }
    ensures sees { SeesBy (Request.Durable collector) pass.old pass.new }
    ensures past { pass.new.past ≡ pass.old.past }
    ensures none { IsNone result ↔ (shared.now.collectors ≤ collector) }
    ensures found { IfSome result (λ _. collector < shared.now.collectors) }
{
    if collector >= shared.collectors() {
        return None;
    }
    Some(shared.durable(pass, collector))
}

/// The line of the watermark, as the pass sees it then.
fn report_watermark<A: Store, N: Named + OnDisk<A::Disk>, G: Gate + Drop>(
    alloc: Global,
    shared: &Shared<A, N, G>,
    pass: &mut Pass<N>,
) -> Result<String, Unanswered>
    ensures reported { IfOk result (λ text. IsReplyOver (IsSome N.disk) pass.new Request.Watermark (string_bytes text)) }
    ensures refused { IfErr result (IsRefusedOver (IsSome N.disk) shared.now.collectors pass.new Request.Watermark) }
    ensures sees { SeesBy Request.Watermark pass.old pass.new }
{
    let settled = load_watermark(shared, pass);
    match watermark_text(alloc, settled) {
        Ok(text) => Ok(text),
        Err(_) => Err(Unanswered::Trouble(Trouble::OutOfMemory)),
    }
}

/// The line of how many records of the collector are admitted, as the pass sees it then.
fn report_count<A: Store, N: Named + OnDisk<A::Disk>, G: Gate + Drop>(
    alloc: Global,
    shared: &Shared<A, N, G>,
    pass: &mut Pass<N>,
    collector: u8,
) -> Result<String, Unanswered>
    ensures reported { IfOk result (λ text. IsReplyOver (IsSome N.disk) pass.new (Request.Durable collector) (string_bytes text)) }
    ensures found { OnOk result (collector < shared.now.collectors) }
    ensures refused { IfErr result (IsRefusedOver (IsSome N.disk) shared.now.collectors pass.new (Request.Durable collector)) }
    ensures sees { SeesBy (Request.Durable collector) pass.old pass.new }
    ensures past { pass.new.past ≡ pass.old.past }
{
    let Some(count) = load_count(shared, pass, collector) else {
        return Err(Unanswered::NoCollector);
    };
    match count_text(alloc, count) {
        Ok(text) => Ok(text),
        Err(_) => Err(Unanswered::Trouble(Trouble::OutOfMemory)),
    }
}

/// What is replied to a request, over what the pass sees then, or why there is no reply. A question takes the lock for each of its
/// descents; `watermark` and `durable` wait for nobody, and return the board's numbers. `number` names a question to the gate.
pub fn reply_to<A: Store, N: Named + OnDisk<A::Disk>, G: Gate + Drop>(
    rt: &impl Wait,
    alloc: Global,
    shared: &Shared<A, N, G>,
    pass: &mut Pass<N>,
    reader: &mut Reader<A, N>,
    number: u64,
    request: Request,
) -> Result<String, Unanswered>
    requires reader { IsSome N.disk → Among reader.old pass.old.past.blocks }
    ensures reader { IsSome N.disk → Among reader.new pass.new.past.blocks }
    ensures replied { IfOk result (λ text. IsReplyOver (IsSome N.disk) pass.new request (string_bytes text)) }
    ensures found { OnOk result (NamesOneOf shared.now.collectors request) }
    ensures refused { IfErr result (IsRefusedOver (IsSome N.disk) shared.now.collectors pass.new request) }
    ensures sees { SeesBy request pass.old pass.new }
    ensures not_refused { IsSome N.disk → IfErr result (IsNotBelow pass.old request) }
{
    match request {
        Request::Question(query) => {
            answer_question(rt, alloc, shared, pass, reader, number, query)
        }
        Request::Changed(question) => {
            answer_changed(rt, alloc, shared, pass, reader, number, question)
        }
        Request::Watermark => report_watermark(alloc, shared, pass),
        Request::Durable(collector) => report_count(alloc, shared, pass, collector),
    }
}

/// What is replied to a request that was just read, as [`reply_to`] replies. A question is metered, from now until its reply.
pub fn reply_metered<A: Store, N: Named + OnDisk<A::Disk>, G: Gate + Drop>(
    rt: &(impl Wait + Clock),
    alloc: Global,
    shared: &Shared<A, N, G>,
    pass: &mut Pass<N>,
    reader: &mut Reader<A, N>,
    meters: &Meters,
    request: Request,
) -> Result<String, Unanswered>
    requires reader { IsSome N.disk → Among reader.old pass.old.past.blocks }
    ensures reader { IsSome N.disk → Among reader.new pass.new.past.blocks }
    ensures replied { IfOk result (λ text. IsReplyOver (IsSome N.disk) pass.new request (string_bytes text)) }
    ensures found { OnOk result (NamesOneOf shared.now.collectors request) }
    ensures refused { IfErr result (IsRefusedOver (IsSome N.disk) shared.now.collectors pass.new request) }
    ensures sees { SeesBy request pass.old pass.new }
    ensures not_refused { IsSome N.disk → IfErr result (IsNotBelow pass.old request) }
{
    let running = meters.begin(rt, &request);
    let reply = reply_to(rt, alloc, shared, pass, reader, running.number, request);
    meters.end(rt, &running);
    reply
}
