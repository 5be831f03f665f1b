//! What the entries of RIB records announce (RFC 6396 section 4.3.4).

ghost use Rattle.std.specs.Prelude.{◌≡◌, ◌++◌, ◌↔◌, IsTrue, IfOk, IfSome, OnOk};
ghost use Rattle.std.specs.Option.{option_to_list};
ghost use Rattle.resolve.specs.Changes.{peer_of_neighbor};
ghost use Rattle.resolve.specs.Entries.{family_of, EntryGives, EntriesGive, entry_shown, HasNoHop, IsWithoutHop, RouteRead, IsKnown, Gave};

use crate::fault::ResolveFault;
use crate::messages::add;
use crate::without_hop::WithoutHop;
use bgp_update::{MessageFault, PathAttributes, attributes_are_one, entry_route, read_attributes};
use mrt_records::{AsWidth, Family, Neighbor, RibEntries, RibEntry};
use route_model::{Address, Change, Peer, Prefix, Route, SharedRoute};
use std::alloc::{AllocError, Global};

/// The neighbor as a peer of the collector.
pub(crate) fn peer_of_neighbor(collector: u8, neighbor: &Neighbor) -> Peer
    ensures { result ≡ peer_of_neighbor collector neighbor.now }
{
    Peer {
        collector,
        address: neighbor.address,
        as_number: neighbor.as_number,
    }
}

fn family_of(address: &Address) -> Family
    ensures { result ≡ family_of address.now }
{
    match address {
        Address::V4(_) => Family::Ipv4,
        Address::V6(_) => Family::Ipv6,
    }
}

/// Whether an entry with these attributes has no next hop.
fn has_no_hop(attributes: &PathAttributes<'_>) -> bool
    ensures { IsTrue result ↔ HasNoHop attributes.now }
{
    attributes.next_hop.is_none() && attributes.reach.is_none()
}

/// Whether an entry with these attributes is left out.
fn is_left_out(rule: WithoutHop, attributes: &PathAttributes<'_>) -> bool
    ensures { IsTrue result ↔ IsWithoutHop rule attributes.now }
{
    match rule {
        WithoutHop::Refused => false,
        WithoutHop::LeftOut => has_no_hop(attributes),
    }
}

/// The route that the attributes of an entry give, none if the entry is left out.
fn route_of(
    alloc: Global,
    rule: WithoutHop,
    prefix: &Prefix,
    attributes: &[u8],
) -> Result<Option<Route>, MessageFault>
    ensures { RouteRead rule (family_of prefix.now.address) attributes.now result }
{
    let attributes = read_attributes(alloc, attributes, AsWidth::Four)?;
    if is_left_out(rule, &attributes) {
        return Ok(None);
    }
    let route = entry_route(alloc, attributes, family_of(&prefix.address()))?;
    Ok(Some(route))
}

/// A route that was read, and the attributes that gave it: the next entry often has the same ones.
#[derive(Drop)]
struct KnownRoute<'a> {
    attributes: &'a [u8],
    route: SharedRoute,
}

/// The known route, if these attributes gave it.
fn known_route(
    known: &Option<KnownRoute<'_>>,
    attributes: &[u8],
) -> Result<Option<SharedRoute>, AllocError>
    ensures { IfOk result (λ o. IfSome o (λ route. Gave known.now attributes.now route)) }
{
    let Some(known) = known else {
        return Ok(None);
    };
    // Others mostly end in another octet, which is quick to compare.
    if known.attributes.last() != attributes.last() {
        return Ok(None);
    }
    if known.attributes != attributes {
        return Ok(None);
    }
    Ok(Some(known.route.share()?))
}

/// The announcement of an entry, none if it is left out. Its route is known from then on.
fn change_of<'a>(
    alloc: Global,
    rule: WithoutHop,
    collector: u8,
    peers: &[Neighbor],
    prefix: &Prefix,
    entry: &RibEntry<'a>,
    known: &mut Option<KnownRoute<'a>>,
) -> Result<Option<Change>, ResolveFault>
    requires { IsKnown rule (family_of prefix.now.address) known.old }
    ensures gives { EntryGives rule collector peers.now prefix.now (entry_shown entry.now) result }
    ensures known { IsKnown rule (family_of prefix.now.address) known.new }
{
    let Some(neighbor) = peers.get(entry.peer_index as usize) else {
        return Err(ResolveFault::BadPeerIndex);
    };
    let peer = peer_of_neighbor(collector, neighbor);
    if let Some(shared) = known_route(known, entry.attributes)? {
        return Ok(Some(Change::Announce(peer, *prefix, shared)));
    }
    let Some(route) = route_of(alloc, rule, prefix, entry.attributes)? else {
        return Ok(None);
    };
    let route = SharedRoute::new(alloc, route)?;
    *known = Some(KnownRoute {
        attributes: entry.attributes,
        route: route.share()?,
    });
    Ok(Some(Change::Announce(peer, *prefix, route)))
}

/// Adds the change, if there is one.
fn add_some(changes: &mut Vec<Change>, change: Option<Change>) -> Result<(), AllocError>
    ensures { OnOk result (changes.new.items ≡ changes.old.items ++ option_to_list change) }
{
    match change {
        Some(change) => add(changes, change),
        None => Ok(()),
    }
}

/// The announcements of the entries that aren't left out, or the fault of the first that has one.
pub(crate) fn entry_changes(
    alloc: Global,
    rule: WithoutHop,
    collector: u8,
    peers: &[Neighbor],
    prefix: &Prefix,
    entries: &RibEntries,
) -> Result<Vec<Change>, ResolveFault>
    ensures { EntriesGive rule collector peers.now prefix.now entries.now result }
{
    let mut changes = Vec::with_capacity(alloc, entries.len())?;
    let mut known = None;
    let mut index = 0;
    while let Some(entry) = entries.get(index) {
        let change = change_of(alloc, rule, collector, peers, prefix, &entry, &mut known)?;
        add_some(&mut changes, change)?;
        index += 1;
    }
    Ok(changes)
}
