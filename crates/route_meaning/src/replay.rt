//! The rows of a question over a list of admissions, by a replay of their changes.

ghost use Rattle.std.specs.Prelude.{◌≡◌, ◌∷◌, ◌++◌, [], ℕ, List, map, filter, cond, nat_lt, None, IfOk, OnOk};
ghost use Rattle.std.specs.BTreeMap.{get, keys};
ghost use Rattle.std.specs.Ordering.{is_eq};
ghost use Rattle.route_model.specs.declared.change.Change.{Change};
ghost use Rattle.route_model.specs.Admission.{IsChange};
ghost use Rattle.route_model.specs.Prefix.{IsPrefix};
ghost use Rattle.route_meaning.specs.declared.question.Spot.{Spot};
ghost use Rattle.route_meaning.specs.Holds.{same_peer, until, changes_of};
ghost use Rattle.route_meaning.specs.Rows.{spot_number, AreRows, IsAnswer};
ghost use Rattle.route_meaning.specs.inner.Replay.{IsSpot, covers, selects, is_above, is_within, is_expected, spot_cmp, IsTable, row_at};

use crate::placed::PlacedAdmission;
use crate::question::{MAX_ROWS, Row, RowsAnswer, RowsQuestion, RowsRange, Select, Spot};
use route_model::{Address, Admission, Change, Key, Moment, Peer, Prefix, SharedRoute};
use std::alloc::{AllocError, Global};
use std::collections::BTreeMap;

// The routes that hold, by prefix of a peer.
type Table = BTreeMap<Spot, SharedRoute>;

// Does the prefix contain the address?
fn covers(prefix: &Prefix, address: &Address) -> bool
    requires { IsPrefix prefix.now }
    ensures { result ≡ covers prefix.now address.now }
{
    let _octets = address.as_slice();
    prefix.address().family() == address.family()
        && Prefix::containing(*address, prefix.length()) == *prefix
}

// Does the first spot stand below the second?
fn is_below(low: &Spot, high: &Spot) -> bool
    ensures { result ≡ nat_lt (spot_number low.now) (spot_number high.now) }
{
    Key::prefix(&low.peer, &low.prefix) < Key::prefix(&high.peer, &high.prefix)
}

impl RowsRange {
    fn selects(&self, spot: &Spot) -> bool
        requires { IsSpot spot.now }
        ensures { result ≡ selects self.now.select spot.now.peer spot.now.prefix }
    {
        match &self.select {
            Select::Route(peer, prefix) => spot.peer == *peer && spot.prefix == *prefix,
            Select::ByPrefix(prefix) => spot.prefix == *prefix,
            Select::Covering(address) => covers(&spot.prefix, address),
            Select::PeerTable(peer) => spot.peer == *peer,
            Select::All => true,
        }
    }

    fn is_above(&self, spot: &Spot) -> bool
        ensures { result ≡ is_above self.now.low (spot_number spot.now) }
    {
        match &self.low {
            Some(low) => is_below(low, spot),
            None => true,
        }
    }

    fn is_within(&self, spot: &Spot) -> bool
        ensures { result ≡ is_within self.now.high (spot_number spot.now) }
    {
        match &self.high {
            Some(high) => !is_below(high, spot),
            None => true,
        }
    }

    // Is the spot selected, above low and not above high?
    fn has(&self, spot: &Spot) -> bool
        requires { IsSpot spot.now }
        ensures { result ≡ is_expected self.now spot.now }
    {
        self.selects(spot) && self.is_above(spot) && self.is_within(spot)
    }
}

// The spots of the peer in the table.
fn spots_of(alloc: Global, table: &Table, peer: &Peer) -> Result<Vec<Spot>, AllocError>
    ensures { IfOk result (λ spots. spots.items ≡ filter (λ s. same_peer s.peer peer.now) (keys table.now)) }
{
    table
        .keys()
        .filter(|spot| spot.peer == *peer)
        .copied()
        .collect(alloc)
}

// Takes the route at the spot out of the table.
fn take_out(table: &mut Table, spot: &Spot)
    ensures { (s : Spot) → get spot_cmp table.new s ≡ cond (is_eq (spot_cmp spot.now s)) None (get spot_cmp table.old s) }
{
    let _route = table.remove(spot);
}

// Takes all routes of the peer out of the table.
fn end_peer(alloc: Global, table: &mut Table, peer: &Peer) -> Result<(), AllocError>
    ensures { OnOk result ((s : Spot) → get spot_cmp table.new s ≡ cond (same_peer peer.now s.peer) None (get spot_cmp table.old s)) }
{
    let spots = spots_of(alloc, table, peer)?;
    for spot in &spots {
        take_out(table, spot);
    }
    Ok(())
}

// Takes one change into the table.
fn take_change(
    alloc: Global,
    table: &mut Table,
    range: &RowsRange,
    change: &Change,
) -> Result<(), AllocError>
    requires { IsChange change.now }
    ensures { OnOk result ((changes : List Change) → IsTable range.now changes table.old → IsTable range.now (changes ++ change.now ∷ []) table.new) }
{
    match change {
        Change::Announce(peer, prefix, route) => {
            let spot = Spot {
                peer: *peer,
                prefix: *prefix,
            };
            if range.has(&spot) {
                table.insert(spot, route.share()?)?;
            }
        }
        Change::Withdraw(peer, prefix) => {
            let spot = Spot {
                peer: *peer,
                prefix: *prefix,
            };
            take_out(table, &spot);
        }
        Change::Down(peer) => end_peer(alloc, table, peer)?,
    }
    Ok(())
}

// Takes the changes of one admission into the table.
fn take_admission(
    alloc: Global,
    table: &mut Table,
    range: &RowsRange,
    admission: &Admission,
) -> Result<(), AllocError>
    ensures { OnOk result ((changes : List Change) → IsTable range.now changes table.old → IsTable range.now (changes ++ admission.now.changes) table.new) }
{
    for change in admission.changes() {
        take_change(alloc, table, range, change)?;
    }
    Ok(())
}

// The routes of the range that hold at the moment.
fn table_at(
    alloc: Global,
    list: &[PlacedAdmission],
    moment: Moment,
    range: &RowsRange,
) -> Result<Table, AllocError>
    ensures { IfOk result (IsTable range.now (changes_of (until moment list.now))) }
{
    let mut table = BTreeMap::new(alloc);
    for placed in list {
        if placed.counts_at(moment) {
            take_admission(alloc, &mut table, range, placed.admission())?;
        }
    }
    Ok(table)
}

// Puts the rows of the table at the end, in its order.
fn put_rows(rows: &mut Vec<Row>, table: &Table) -> Result<(), AllocError>
    ensures { OnOk result (rows.new.items ≡ rows.old.items ++ map (λ e. row_at e.0 e.1) table.now.entries) }
{
    for (spot, route) in table {
        rows.push(Row {
            peer: spot.peer,
            prefix: spot.prefix,
            route: route.share()?,
        })?;
    }
    Ok(())
}

/// The rows of the range at the moment: all, in their order. The list is in the one order of the
/// collectors, as [`crate::merge`] gives it.
pub fn rows_in(
    alloc: Global,
    list: &[PlacedAdmission],
    moment: Moment,
    range: &RowsRange,
) -> Result<Vec<Row>, AllocError>
    ensures rows { IfOk result (λ rows. AreRows list.now moment range.now.select range.now.low range.now.high rows.items) }
{
    let table = table_at(alloc, list, moment, range)?;
    let mut rows = Vec::with_capacity(alloc, table.len())?;
    put_rows(&mut rows, &table)?;
    Ok(rows)
}

/// The answer to the question: the first rows above its spot, at most [`MAX_ROWS`], and whether more
/// follow. The list is in the one order of the collectors, as [`crate::merge`] gives it.
pub fn answer_rows(
    alloc: Global,
    list: &[PlacedAdmission],
    question: &RowsQuestion,
) -> Result<RowsAnswer, AllocError>
    ensures answer { IfOk result (λ answer. IsAnswer list.now question.now answer.rows.items answer.more) }
{
    let range = RowsRange {
        select: question.select,
        low: question.after,
        high: None,
    };
    let mut rows = rows_in(alloc, list, question.moment, &range)?;
    let more = rows.len() > MAX_ROWS;
    rows.truncate(MAX_ROWS);
    Ok(RowsAnswer { rows, more })
}
