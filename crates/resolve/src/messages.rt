//! What messages change.

ghost use Rattle.std.specs.Prelude.{◌≡◌, ◌∷◌, ◌++◌, [], not, map, filter, IfOk, OnOk};
ghost use Rattle.std.specs.BTreeSet.{contains, IsFromIterResult};
ghost use Rattle.route_model.specs.Prefix.{IpPrefix};
ghost use Rattle.route_model.specs.contracts.prefix.PrefixOrd.TheImpl as prefix_ord;
ghost use Rattle.bgp_update.specs.Messages.{option_reported, changes_reported, reported};
ghost use Rattle.resolve.specs.Changes.{is_among, withdrawals, announcements, update_changes, message_changes};

use bgp_update::{Announcement, Message, Update};
use route_model::{Change, Peer, Prefix, SharedRoute};
use std::alloc::{AllocError, Global};
use std::collections::BTreeSet;

/// These prefixes as a set.
fn set_of(alloc: Global, prefixes: &[Prefix]) -> Result<BTreeSet<Prefix>, AllocError>
    ensures { IfOk result (IsFromIterResult (prefix_ord.cmp-value).it prefixes.now) }
{
    prefixes.iter().copied().collect(alloc)
}

/// The prefixes that are announced, as a set in which others are looked up.
fn prefixes_of(
    alloc: Global,
    announced: &Option<Announcement>,
) -> Result<BTreeSet<Prefix>, AllocError>
    ensures { IfOk result (λ set. (x : IpPrefix) → contains (prefix_ord.cmp-value).it set x ≡ is_among (option_reported announced.now) x) }
{
    match announced {
        None => Ok(BTreeSet::new(alloc)),
        Some(announcement) => set_of(alloc, &announcement.prefixes),
    }
}

/// Adds a change.
pub(crate) fn add(changes: &mut Vec<Change>, change: Change) -> Result<(), AllocError>
    ensures { OnOk result (changes.new.items ≡ changes.old.items ++ change ∷ []) }
{
    changes.push(change)?;
    Ok(())
}

/// Adds a withdrawal of each of the prefixes.
fn withdraw(changes: &mut Vec<Change>, peer: &Peer, prefixes: &[Prefix]) -> Result<(), AllocError>
    ensures { OnOk result (changes.new.items ≡ changes.old.items ++ withdrawals peer.now prefixes.now) }
{
    for prefix in prefixes {
        add(changes, Change::Withdraw(*peer, *prefix))?;
    }
    Ok(())
}

/// Adds a withdrawal of each of the prefixes that isn't announced too.
fn withdraw_others(
    alloc: Global,
    changes: &mut Vec<Change>,
    peer: &Peer,
    prefixes: &[Prefix],
    announced: &Option<Announcement>,
) -> Result<(), AllocError>
    ensures { OnOk result (changes.new.items ≡ changes.old.items ++ withdrawals peer.now (filter (λ x. not (is_among (option_reported announced.now) x)) prefixes.now)) }
{
    if prefixes.is_empty() {
        return Ok(());
    }
    let others = prefixes_of(alloc, announced)?;
    for prefix in prefixes {
        if !others.contains(prefix) {
            add(changes, Change::Withdraw(*peer, *prefix))?;
        }
    }
    Ok(())
}

/// Adds an announcement of each of the prefixes; they share one route.
fn announce_all(
    changes: &mut Vec<Change>,
    peer: &Peer,
    prefixes: &[Prefix],
    route: &SharedRoute,
) -> Result<(), AllocError>
    ensures { OnOk result (changes.new.items ≡ changes.old.items ++ map (λ x. Change.Announce peer.now x route.now) prefixes.now) }
{
    for prefix in prefixes {
        add(changes, Change::Announce(*peer, *prefix, route.share()?))?;
    }
    Ok(())
}

fn announce(
    alloc: Global,
    changes: &mut Vec<Change>,
    peer: &Peer,
    announced: Option<Announcement>,
) -> Result<(), AllocError>
    ensures { OnOk result (changes.new.items ≡ changes.old.items ++ announcements peer.now (option_reported announced)) }
{
    let Some(announcement) = announced else {
        return Ok(());
    };
    let route = SharedRoute::new(alloc, announcement.route)?;
    announce_all(changes, peer, &announcement.prefixes, &route)
}

/// The changes of an UPDATE, in this order:
///
/// 1. The withdrawn routes, but for prefixes that NLRI announces: these count as not withdrawn (RFC 4271 section 4.3).
/// 2. The withdrawals of MP_UNREACH_NLRI (RFC 4760 section 4).
/// 3. The announcements of NLRI (RFC 4271 section 4.3).
/// 4. The announcements of MP_REACH_NLRI (RFC 4760 section 3).
fn update_changes(alloc: Global, peer: &Peer, update: Update) -> Result<Vec<Change>, AllocError>
    ensures { IfOk result (λ v. v.items ≡ update_changes peer.now (changes_reported update)) }
{
    let mut changes = Vec::new(alloc);
    withdraw_others(
        alloc,
        &mut changes,
        peer,
        &update.withdrawn,
        &update.announced,
    )?;
    withdraw(&mut changes, peer, &update.unreachable)?;
    announce(alloc, &mut changes, peer, update.announced)?;
    announce(alloc, &mut changes, peer, update.reachable)?;
    Ok(changes)
}

/// The changes of a message.
pub(crate) fn message_changes(
    alloc: Global,
    peer: &Peer,
    message: Message,
) -> Result<Vec<Change>, AllocError>
    ensures { IfOk result (λ v. v.items ≡ message_changes peer.now (reported message)) }
{
    let mut changes = Vec::new(alloc);
    match message {
        Message::Update(update) => return update_changes(alloc, peer, update),
        Message::Notification => add(&mut changes, Change::Down(*peer))?,
        Message::Other(_) => {}
    }
    Ok(changes)
}
