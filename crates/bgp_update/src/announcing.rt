//! The announcements of an UPDATE.

ghost use Rattle.std.specs.Prelude.{◌≡◌, Option};
ghost use Rattle.route_model.specs.Reading.{Exactly};
ghost use Rattle.bgp_update.specs.Readings.{AreAttributes};
ghost use Rattle.bgp_update.specs.Routes.{route_of, four_hop};
ghost use Rattle.bgp_update.specs.Messages.{Announced, IsAnnounced, option_reported};

use crate::attributes::read_attributes;
use crate::reading::PathAttributes;
use crate::route::route_with;
use crate::update::Announcement;
use route_model::octets::ReadFault;
use route_model::wire::AsWidth;
use route_model::{Address, NextHop, Prefix};
use std::alloc::Global;

/// The announcement of these prefixes, none if there are none.
fn announced_by(
    attributes: PathAttributes<'_>,
    next_hop: Option<NextHop>,
    prefixes: Vec<Prefix>,
) -> Result<Option<Announcement>, ReadFault>
    ensures { Exactly option_reported (IsAnnounced prefixes.items (route_of attributes.entry next_hop)) result }
{
    if prefixes.is_empty() {
        return Ok(None);
    }
    let Some(route) = route_with(attributes, next_hop) else {
        return Err(ReadFault::Malformed);
    };
    Ok(Some(Announcement { route, prefixes }))
}

/// The next hop of NEXT_HOP.
pub(crate) fn four_hop_of(attributes: &PathAttributes<'_>) -> Option<NextHop>
    ensures { result ≡ four_hop attributes.now.next_hop }
{
    let octets = attributes.next_hop?;
    Some(NextHop::One(Address::V4(octets)))
}

/// Where the prefixes of an UPDATE are, and what they share.
#[derive(Debug, Drop)]
pub(crate) struct Announcing<'a> {
    pub(crate) attributes: PathAttributes<'a>,
    pub(crate) announced: Vec<Prefix>,
    pub(crate) next_hop: Option<NextHop>,
    pub(crate) reached: Vec<Prefix>,
}

/// The announcements of NLRI and of MP_REACH_NLRI. A route owns what it has of the attributes: if both
/// announce, they are read once more.
pub(crate) fn announcements(
    alloc: Global,
    of: Announcing<'_>,
    field: &[u8],
    width: AsWidth,
) -> Result<(Option<Announcement>, Option<Announcement>), ReadFault>
    requires { AreAttributes width field.now of.attributes }
    ensures { Exactly (λ r. (option_reported r.0, option_reported r.1)) (λ (r : Option Announced × Option Announced). IsAnnounced of.entry.announced.items (route_of of.entry.attributes (four_hop of.entry.attributes.next_hop)) r.0 × IsAnnounced of.entry.reached.items (route_of of.entry.attributes of.entry.next_hop) r.1) result }
{
    let four = four_hop_of(&of.attributes);
    if of.announced.is_empty() {
        let reachable = announced_by(of.attributes, of.next_hop, of.reached)?;
        return Ok((None, reachable));
    }
    if of.reached.is_empty() {
        let announced = announced_by(of.attributes, four, of.announced)?;
        return Ok((announced, None));
    }
    let again = read_attributes(alloc, field, width)?;
    let announced = announced_by(of.attributes, four, of.announced)?;
    let reachable = announced_by(again, of.next_hop, of.reached)?;
    Ok((announced, reachable))
}
