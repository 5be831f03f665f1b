//! The item of a record.

ghost use Rattle.std.specs.Prelude.{◌≡◌, ◌<◌, ◌≤◌, ℕ, length, IfOk};
ghost use Rattle.route_model.specs.Reading.{Exactly};
ghost use Rattle.route_model.specs.Moments.{micros_a_second};
ghost use Rattle.mrt_records.specs.Records.{IsRecord, body, micros, kind as kind_of};
ghost use Rattle.mrt_records.specs.Values.{reported};
ghost use Rattle.mrt_records.specs.Bodies.{Body, IsReported};

use crate::form::{Form, form_of};
use crate::front::HEADER;
use crate::item::Item;
use crate::peer_table::read_peer_table;
use crate::rib::read_rib;
use crate::session::{read_message, read_state_change};
use route_model::Moment;
use route_model::octets::{ReadFault, u16_at, u32_at};
use std::alloc::{AllocError, Global};

/// How many octets the microseconds of a record with them have (RFC 6396 section 3).
const MICROSECONDS: usize = 4;

/// The most microseconds within a second.
const MOST_MICROSECONDS: u32 = 999_999;

const BGP4MP_ET: u16 = 17;

/// The octets after a record's header and microseconds; none if it is too short for them.
fn body_of(kind: u16, bytes: &[u8]) -> &[u8]
    requires header { 12 ≤ length bytes.now }
    requires kind { kind ≡ kind_of bytes.now }
    ensures body { result.now ≡ body bytes.now }
{
    let rest = bytes.split_at(HEADER).1;
    if kind != BGP4MP_ET {
        return rest;
    }
    rest.split_at(MICROSECONDS.min(rest.len())).1
}

/// The microseconds after a record's header, at most 999,999; 0 if it has none, or ends within them.
fn micros_of(kind: u16, bytes: &[u8]) -> u32
    requires header { 12 ≤ length bytes.now }
    requires kind { kind ≡ kind_of bytes.now }
    ensures micros { result ≡ micros bytes.now }
    ensures within { result < micros_a_second }
{
    if kind != BGP4MP_ET || bytes.len() < HEADER + MICROSECONDS {
        return 0;
    }
    u32_at(bytes, HEADER).min(MOST_MICROSECONDS)
}

/// The item of a body of this form.
fn read_body(alloc: Global, form: Form, time: Moment, bytes: &[u8]) -> Result<Item, ReadFault>
    requires { length bytes.now ≤ 131072 }
    ensures { Exactly reported (IsReported form time bytes.now) result }
{
    match form {
        Form::Message(width) => {
            let (peer, octets) = read_message(alloc, width, bytes)?;
            Ok(Item::Message {
                time,
                peer,
                width,
                octets,
            })
        }
        Form::StateChange(width) => {
            let Some((peer, state)) = read_state_change(width, bytes) else {
                return Err(ReadFault::Malformed);
            };
            Ok(Item::StateChange { time, peer, state })
        }
        Form::PeerTable => Ok(Item::PeerTable(read_peer_table(alloc, bytes)?)),
        Form::Rib(family) => {
            let (prefix, entries) = read_rib(alloc, family, bytes)?;
            Ok(Item::Rib {
                time,
                prefix,
                entries,
            })
        }
    }
}

/// The item of a record.
pub(crate) fn item_of(alloc: Global, bytes: &[u8]) -> Result<Item, AllocError>
    requires { IsRecord bytes.now }
    ensures { IfOk result (λ item. Body bytes.now (reported item)) }
{
    let kind = u16_at(bytes, 4);
    let subtype = u16_at(bytes, 6);
    let Some(form) = form_of(kind, subtype) else {
        return Ok(Item::Skipped { kind, subtype });
    };
    let time = Moment::within(u32_at(bytes, 0), micros_of(kind, bytes));
    match read_body(alloc, form, time, body_of(kind, bytes)) {
        Ok(item) => Ok(item),
        Err(ReadFault::Malformed) => Ok(Item::Malformed { kind, subtype }),
        Err(ReadFault::OutOfMemory) => Err(AllocError),
    }
}
