//! The meaning of each record of a feed.

ghost use Rattle.std.specs.Prelude.{◌≡◌, ◌∷◌, ◌++◌, [], List, Some, None, Err, IfOk, OnOk, OnErr, IsTrue, ◌↔◌};
ghost use Rattle.mrt_records.specs.Values.{Reported, reported};
ghost use Rattle.resolve.specs.Tables.{LastTable};
ghost use Rattle.resolve.specs.Records.{MessageGives, StateGives, RibGives, RibGivesUnder, Gives, state_changes, left_out, counted};

use crate::entries::{entry_changes, peer_of_neighbor};
use crate::fault::ResolveFault;
use crate::messages::{add, message_changes};
use crate::without_hop::WithoutHop;
use bgp_update::read_message;
use mrt_records::{AsWidth, Item, Neighbor, RibEntries};
use route_model::{Admission, Change, Moment, Peer, Prefix};
use std::alloc::{AllocError, Global};
use std::marker::Model;

/// The type and the subtype of a peer table (RFC 6396 section 4.3.1).
const TABLE_DUMP_V2: u16 = 13;

const PEER_INDEX_TABLE: u16 = 1;

/// The state Established (RFC 4271 section 8.2.2).
const ESTABLISHED: u16 = 6;

/// The state of a feed of a collector: its peer table, which later records need, and how many entries were left out.
#[derive(Debug, Drop)]
pub struct Resolver {
    collector: u8,
    peers: Option<Vec<Neighbor>>,
    left_out: u64,
}

/// Whether these are the type and the subtype of a peer table.
fn is_peer_table(kind: u16, subtype: u16) -> bool
    ensures { IsTrue result ↔ (kind ≡ 13) × (subtype ≡ 1) }
{
    kind == TABLE_DUMP_V2 && subtype == PEER_INDEX_TABLE
}

/// What a message changes.
fn of_message(
    alloc: Global,
    peer: &Peer,
    time: Moment,
    width: AsWidth,
    octets: &[u8],
) -> Result<Option<Admission>, ResolveFault>
    ensures { MessageGives peer.now time width octets.now result }
{
    let message = read_message(alloc, octets, width)?;
    let changes = message_changes(alloc, peer, message)?;
    Ok(Some(Admission::new(time, changes)?))
}

/// The changes of a change of the session's state.
fn state_changes(alloc: Global, peer: &Peer, state: u16) -> Result<Vec<Change>, AllocError>
    ensures { IfOk result (λ v. v.items ≡ state_changes peer.now state) }
{
    let mut changes = Vec::new(alloc);
    if state != ESTABLISHED {
        add(&mut changes, Change::Down(*peer))?;
    }
    Ok(changes)
}

/// What a change of the session's state changes.
fn of_state(
    alloc: Global,
    peer: &Peer,
    time: Moment,
    state: u16,
) -> Result<Option<Admission>, ResolveFault>
    ensures { StateGives peer.now time state result }
{
    let changes = state_changes(alloc, peer, state)?;
    Ok(Some(Admission::new(time, changes)?))
}

/// Whether there are entries but no changes.
fn are_all_left_out(entries: &RibEntries, changes: &Vec<Change>) -> bool
    ensures { IsTrue result ↔ (changes.now.items ≡ []) × (entries.now ≡ [] → ⊥) }
{
    changes.is_empty() && !entries.is_empty()
}

/// What a RIB record announces, under these peers.
fn of_rib(
    alloc: Global,
    rule: WithoutHop,
    collector: u8,
    peers: &[Neighbor],
    time: Moment,
    prefix: &Prefix,
    entries: &RibEntries,
) -> Result<Option<Admission>, ResolveFault>
    ensures { RibGives rule collector peers.now time prefix.now entries.now result }
{
    let changes = entry_changes(alloc, rule, collector, peers, prefix, entries)?;
    if are_all_left_out(entries, &changes) {
        return Ok(None);
    }
    Ok(Some(Admission::new(time, changes)?))
}

/// How many entries of a record of this meaning are left out.
fn left_out_of(item: &Item, meaning: &Result<Option<Admission>, ResolveFault>) -> u64
    ensures { result ≡ left_out (reported item.now) meaning.now }
{
    match item {
        Item::Rib { entries, .. } => match meaning {
            Ok(Some(admission)) => entries.len().saturating_sub(admission.changes().len()) as u64,
            Ok(None) => entries.len() as u64,
            Err(_) => 0,
        },
        Item::Message { .. }
        | Item::StateChange { .. }
        | Item::PeerTable(_)
        | Item::Skipped { .. }
        | Item::Malformed { .. } => 0,
    }
}

impl Model for Resolver {
    ghost use Rattle.resolve.specs.Tables.{Feed, table_reported};

    ghost Value = { Feed };

    ghost view = { λ r. record { collector = r.collector; table = table_reported r.peers; left_out = r.left_out } };
}

impl Resolver {
    /// The feed of a collector, before its first record.
    pub fn new(collector: u8) -> Resolver
        ensures collector { result.collector ≡ collector }
        ensures none { result.table ≡ None }
        ensures left_out { result.left_out ≡ 0 }
    {
        Resolver {
            collector,
            peers: None,
            left_out: 0,
        }
    }

    /// How many entries of the records so far were left out; the count stops at 18446744073709551615.
    pub fn left_out(&self) -> u64
        ensures { result ≡ self.now.left_out }
    {
        self.left_out
    }

    /// What a RIB record announces.
    fn of_rib(
        &self,
        alloc: Global,
        rule: WithoutHop,
        time: Moment,
        prefix: &Prefix,
        entries: &RibEntries,
    ) -> Result<Option<Admission>, ResolveFault>
        ensures { RibGivesUnder rule self.now.collector self.now.table time prefix.now entries.now result }
    {
        let Some(peers) = &self.peers else {
            return Err(ResolveFault::NoPeerTable);
        };
        of_rib(alloc, rule, self.collector, peers, time, prefix, entries)
    }

    /// Keeps a copy of a peer table for the records after it.
    fn keep(&mut self, alloc: Global, peers: &[Neighbor]) -> Result<(), AllocError>
        ensures collector { self.new.collector ≡ self.old.collector }
        ensures kept { OnOk result (self.new.table ≡ Some peers.now) }
        ensures same { OnErr result (self.new.table ≡ self.old.table) }
        ensures left_out { self.new.left_out ≡ self.old.left_out }
    {
        let mut copy = Vec::with_capacity(alloc, peers.len())?;
        copy.extend_from_slice(peers)?;
        self.peers = Some(copy);
        Ok(())
    }

    /// The meaning of the next record of the feed; nothing is counted yet.
    fn meaning(
        &mut self,
        alloc: Global,
        rule: WithoutHop,
        item: &Item,
    ) -> Result<Option<Admission>, ResolveFault>
        ensures collector { self.new.collector ≡ self.old.collector }
        ensures gives { Gives rule self.old.collector self.old.table (reported item.now) result }
        ensures table { (result ≡ Err ResolveFault.OutOfMemory → ⊥) → (before : List Reported) → LastTable before self.old.table → LastTable (before ++ reported item.now ∷ []) self.new.table }
        ensures kept { result ≡ Err ResolveFault.OutOfMemory → self.new.table ≡ self.old.table }
        ensures left_out { self.new.left_out ≡ self.old.left_out }
    {
        match item {
            Item::Message {
                time,
                peer,
                width,
                octets,
            } => {
                of_message(
                    alloc,
                    &peer_of_neighbor(self.collector, peer),
                    *time,
                    *width,
                    octets,
                )
            }
            Item::StateChange { time, peer, state } => {
                of_state(
                    alloc,
                    &peer_of_neighbor(self.collector, peer),
                    *time,
                    *state,
                )
            }
            Item::Rib {
                time,
                prefix,
                entries,
            } => self.of_rib(alloc, rule, *time, prefix, entries),
            Item::PeerTable(peers) => {
                self.keep(alloc, peers)?;
                Ok(None)
            }
            Item::Skipped { .. } => Ok(None),
            Item::Malformed { kind, subtype } => {
                if is_peer_table(*kind, *subtype) {
                    self.peers = None;
                    return Err(ResolveFault::Malformed);
                }
                Err(ResolveFault::Malformed)
            }
        }
    }
    /// The meaning of the next record of the feed: an admission, nothing, or why it is refused. An entry of a RIB record
    /// that has no next hop is taken by `rule`: the record is refused, or the entry is left out and counted. A record of which all
    /// entries are left out means nothing.
    pub fn record(
        &mut self,
        alloc: Global,
        rule: WithoutHop,
        item: &Item,
    ) -> Result<Option<Admission>, ResolveFault>
        ensures collector { self.new.collector ≡ self.old.collector }
        ensures gives { Gives rule self.old.collector self.old.table (reported item.now) result }
        ensures table { (result ≡ Err ResolveFault.OutOfMemory → ⊥) → (before : List Reported) → LastTable before self.old.table → LastTable (before ++ reported item.now ∷ []) self.new.table }
        ensures kept { result ≡ Err ResolveFault.OutOfMemory → self.new.table ≡ self.old.table }
        ensures counted { self.new.left_out ≡ counted self.old.left_out (left_out (reported item.now) result) }
    {
        let meaning = self.meaning(alloc, rule, item);
        let more = left_out_of(item, &meaning);
        self.left_out = self.left_out.saturating_add(more);
        meaning
    }
}
