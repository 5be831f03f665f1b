//! A question of a history under way.

ghost use Rattle.std.specs.Prelude.{◌≡◌, ◌⊎◌, ◌++◌, ◌∷◌, [], ◌-◌, ◌/◌, ◌^◌, ◌<◌, ◌≤◌, suc, ℕ, List, Option, Some, None, map, option_map, filter, drop, length, nat_lt, nat_eq, IfOk, IfSome, OnOk, OnErr};
ghost use Rattle.std.specs.List.{AllByRecursion};
ghost use Rattle.route_model.specs.Admission.{Admitted};
ghost use Rattle.route_model.specs.declared.change.Change.{Change as ChangeValue};
ghost use Rattle.route_model.specs.Keys.{key_number, session_number};
ghost use Rattle.route_model.specs.Moments.{IsMoment};
ghost use Rattle.route_meaning.specs.Merged.{Placed, by_time};
ghost use Rattle.version_model.specs.Versions.{Version};
ghost use Rattle.version_model.specs.Ranges.{end_or};
ghost use Rattle.version_model.specs.Looks.{IsPart};
ghost use Rattle.version_model.specs.Entries.{versions_of};
ghost use Rattle.tsb_walk.specs.Looked.{ReportsFrom};
ghost use Rattle.route_history.specs.Stamps.{last_stamp, stamp_of};
ghost use Rattle.route_history.specs.Walks.{Rose};
ghost use Rattle.route_history.specs.Spans.{event_in, before, version_at, subject_key, stamp_in, IsChangeIn, IsEventIn, HasEvent, AreStamped, IsReporting, ReportsEvents, HasReported, HasReportedSo, IsSameReporting};

use route_meaning::{Event, EventsQuestion, MAX_ROWS};
use route_model::{Change, Moment, Route, SharedRoute};
use std::alloc::{AllocError, Global};
use tsb_walk::KeyVersions;
use version_model::{Entry, Stamp};

/// An event with the stamp of its version.
#[derive(Debug, Drop)]
struct Stamped {
    stamp: Stamp,
    event: Event,
}

/// Whose versions: those of the prefix, or those of the peer's session.
#[derive(Clone, Copy, Debug)]
enum Subject {
    OfPrefix,
    OfSession,
}

// The moment of a stamp.
fn moment_of(stamp: Stamp) -> Option<Moment>
    ensures moment { IfSome result (λ moment. moment ≡ stamp / 2 ^ 64) }
    ensures none { result ≡ None → IsMoment (stamp / 2 ^ 64) → ⊥ }
{
    Moment::new(stamp.time())
}

// The change that a version of the prefix stands for.
fn prefix_change(
    alloc: Global,
    question: &EventsQuestion,
    value: Option<&Vec<u8>>,
) -> Result<Option<Change>, AllocError>
    ensures { IfOk result (λ change. IsChangeIn question.now.peer question.now.prefix (option_map (λ v. v.now.items) value.entry) change) }
{
    let Some(octets) = value else {
        return Ok(Some(Change::Withdraw(question.peer, question.prefix)));
    };
    let Some(route) = Route::decode(alloc, octets)? else {
        return Ok(None);
    };
    let route = SharedRoute::new(alloc, route)?;
    Ok(Some(Change::Announce(question.peer, question.prefix, route)))
}

// The value of a version.
fn value_in(entry: &Entry) -> Option<&Vec<u8>>
    ensures { option_map (λ v. v.now.items) result ≡ option_map (λ v. v.items) entry.now.value }
{
    entry.value.as_ref()
}

// The event that a version of the prefix stands for.
fn prefix_event(
    alloc: Global,
    question: &EventsQuestion,
    entry: &Entry,
) -> Result<Option<Event>, AllocError>
    ensures { IfOk result (λ event. IsEventIn question.now.peer question.now.prefix (version_at (key_number question.now.peer question.now.prefix) entry.now) event) }
{
    let _len = question.peer.encoded_len();
    let _address = question.prefix.address();
    let Some(time) = moment_of(entry.stamp) else {
        return Ok(None);
    };
    let Some(change) = prefix_change(alloc, question, value_in(entry))? else {
        return Ok(None);
    };
    Ok(Some(Event { time, change }))
}

// The event that a version of the peer's session stands for.
fn session_event(question: &EventsQuestion, entry: &Entry) -> Option<Event>
    ensures { IsEventIn question.now.peer question.now.prefix (version_at (session_number question.now.peer) entry.now) result }
{
    let Some(time) = moment_of(entry.stamp) else {
        return None;
    };
    Some(Event {
        time,
        change: Change::Down(question.peer),
    })
}

// The event that a version stands for. A version that stands for none is none that an archive has.
fn event_of(
    alloc: Global,
    question: &EventsQuestion,
    subject: Subject,
    entry: &Entry,
) -> Result<Option<Event>, AllocError>
    ensures { IfOk result (λ event. IsEventIn question.now.peer question.now.prefix (version_at (subject_key question.now subject) entry.now) event) }
{
    match subject {
        Subject::OfPrefix => prefix_event(alloc, question, entry),
        Subject::OfSession => Ok(session_event(question, entry)),
    }
}

// Is the stamp before the other?
fn is_before(stamp: Stamp, to: Stamp) -> bool
    ensures { result ≡ nat_lt stamp to }
{
    stamp < to
}

// Are the stamps the same?
fn is_same(stamp: Stamp, other: Stamp) -> bool
    ensures { result ≡ nat_eq stamp other }
{
    stamp == other
}

// Appends the event of a version to the others, if the version is before a stamp.
fn put_event(
    alloc: Global,
    question: &EventsQuestion,
    subject: Subject,
    to: Stamp,
    entry: &Entry,
    news: &mut Vec<Stamped>,
) -> Result<(), AllocError>
    ensures { (vs : List Version) → HasEvent question.now.peer question.now.prefix (version_at (subject_key question.now subject) entry.now) → AreStamped question.now vs news.old.items → OnOk result (AreStamped question.now (vs ++ filter (before to) (version_at (subject_key question.now subject) entry.now ∷ [])) news.new.items) }
{
    let stamp = entry.stamp;
    if !is_before(stamp, to) {
        return Ok(());
    }
    let Some(event) = event_of(alloc, question, subject, entry)? else {
        return Ok(());
    };
    news.push(Stamped { stamp, event })?;
    Ok(())
}

// The events of the versions before a stamp.
fn events_before(
    alloc: Global,
    question: &EventsQuestion,
    subject: Subject,
    entries: &[Entry],
    to: Stamp,
) -> Result<Vec<Stamped>, AllocError>
    ensures { AllByRecursion (HasEvent question.now.peer question.now.prefix) (map (version_at (subject_key question.now subject)) entries.now) → IfOk result (λ news. AreStamped question.now (filter (before to) (map (version_at (subject_key question.now subject)) entries.now)) news.items) }
{
    let mut news = Vec::new(alloc);
    for entry in entries {
        put_event(alloc, question, subject, to, entry, &mut news)?;
    }
    Ok(news)
}

// The events of both keys before a stamp, in the order of their stamps.
fn news_of(
    alloc: Global,
    question: &EventsQuestion,
    route: &[Entry],
    session: &[Entry],
    to: Stamp,
) -> Result<Vec<Stamped>, AllocError>
    ensures { AllByRecursion (HasEvent question.now.peer question.now.prefix) (map (version_at (key_number question.now.peer question.now.prefix)) route.now) → AllByRecursion (HasEvent question.now.peer question.now.prefix) (map (version_at (session_number question.now.peer)) session.now)
        → IfOk result (λ news. AreStamped question.now (by_time stamp_in (filter (before to) (map (version_at (key_number question.now.peer question.now.prefix)) route.now) ++ filter (before to) (map (version_at (session_number question.now.peer)) session.now))) news.items) }
{
    let mut news = events_before(alloc, question, Subject::OfPrefix, route, to)?;
    let mut ends = events_before(alloc, question, Subject::OfSession, session, to)?;
    news.append(&mut ends)?;
    news.sort_by_key(|one| one.stamp)?;
    Ok(news)
}

// The events without the first ones.
fn fresh_of(alloc: Global, news: Vec<Stamped>, left: u64) -> Result<Vec<Event>, AllocError>
    ensures { IfOk result (λ fresh. fresh.items ≡ map event_in (drop left news.items)) }
{
    news.into_iter()
        .skip(left as usize)
        .map(|one| one.event)
        .collect(alloc)
}

// The lesser of a stamp, if there is one, and another.
fn lesser(reported: &Option<Stamp>, to: Stamp) -> Stamp
    ensures low { result ≤ end_or reported.now }
    ensures high { result ≤ to }
    ensures above { (at : ℕ) → at < end_or reported.now → at < to → at < result }
    ensures one { (result ≡ end_or reported.now) ⊎ (result ≡ to) }
{
    let _fits = to.number();
    match reported {
        Some(reported) if *reported < to => *reported,
        _ => to,
    }
}

// The stamp after the last of the moment.
fn end_of(moment: Moment) -> Stamp
    ensures end { result ≡ suc (last_stamp moment) }
{
    Stamp::new(moment.number() + 1, 0)
}

// The first stamp of the moment.
fn start_of(moment: Moment) -> Stamp
    ensures { result ≡ stamp_of moment 0 }
{
    Stamp::new(moment.number(), 0)
}

/// A question of a history under way: how far its walk over the stamps has come, how many events are still to be left out, and
/// the events so far.
#[derive(Debug, Drop)]
pub struct EventsCursor {
    pub question: EventsQuestion,
    /// The least stamp not yet looked at; None once the walk is over.
    pub at: Option<Stamp>,
    /// How many events are still to be left out.
    pub left: u64,
    pub reported: Vec<Event>,
    pub more: bool,
}

impl EventsCursor {
    /// The start of a question of a history. It waits for nothing.
    pub fn start(alloc: Global, question: EventsQuestion) -> EventsCursor
        ensures question { result.question ≡ question }
        ensures nothing { (all : List Version) (ps : List (Placed Admitted)) → ReportsEvents all ps question → HasReportedSo all ps result }
    {
        let _len = question.peer.encoded_len();
        let _address = question.prefix.address();
        let at = start_of(question.from);
        let is_empty = !is_before(at, end_of(question.to));
        EventsCursor {
            question,
            at: if is_empty { None } else { Some(at) },
            left: question.skip,
            reported: Vec::new(alloc),
            more: false,
        }
    }

    // Takes in the versions of the prefix and of the peer's session from this stamp on.
    pub(crate) fn take(
        &mut self,
        alloc: Global,
        at: Stamp,
        route: &KeyVersions,
        session: &KeyVersions,
    ) -> Result<(), AllocError>
        ensures reported { (all : List Version) (ps : List (Placed Admitted)) → ReportsEvents all ps self.old.question → IsReporting all self.old.question at self.old.left self.old.reported.items self.old.more → IsPart all (key_number self.old.question.peer self.old.question.prefix) at (versions_of route.now.entries.items) route.now.reported → IsPart all (session_number self.old.question.peer) at (versions_of session.now.entries.items) session.now.reported → OnOk result (HasReportedSo all ps self.new × Rose (Some at) self.new.at) }
        ensures rose { ReportsFrom at route.now → ReportsFrom at session.now → OnOk result (Rose (Some at) self.new.at) }
        ensures question { self.new.question ≡ self.old.question }
        ensures same { OnErr result (IsSameReporting self.old self.new) }
    {
        let _len = self.question.peer.encoded_len();
        let _address = self.question.prefix.address();
        let end = end_of(self.question.to);
        let to = lesser(&route.reported, lesser(&session.reported, end));
        let news = news_of(alloc, &self.question, &route.entries, &session.entries, to)?;
        let count = news.len() as u64;
        let mut fresh = fresh_of(alloc, news, self.left)?;
        self.reported.append(&mut fresh)?;
        self.left = self.left.saturating_sub(count);
        if self.reported.len() > MAX_ROWS {
            self.reported.truncate(MAX_ROWS);
            self.more = true;
            self.at = None;
        } else if is_same(to, end) {
            self.at = None;
        } else {
            self.at = Some(to);
        }
        Ok(())
    }
}
