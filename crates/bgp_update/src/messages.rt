//! The reader of messages (RFC 4271 section 4).

ghost use Rattle.std.specs.Prelude.{◌≡◌, ◌==◌, ℕ, IfSome, IfNone, IfErr, IsTrue, ◌↔◌};
ghost use Rattle.std.specs.List.{list_all};
ghost use Rattle.route_model.specs.Reading.{Exactly};
ghost use Rattle.route_model.specs.declared.octets.ReadFault.TheVariants.{OutOfMemory};
ghost use Rattle.bgp_update.specs.Messages.{IsHeader, IsMessage, IsLarge, HasLarge, AnswersMessage, reported, option_reported};

use crate::fault::MessageFault;
use crate::message::Message;
use crate::update::Announcement;
use crate::updating::read_update;
use route_model::MAX_ROUTE_LEN;
use route_model::octets::{ReadFault, u16_at};
use route_model::wire::AsWidth;
use std::alloc::Global;

/// How many octets a header has.
const HEADER: usize = 19;

/// The most octets that a message has, its header counted.
const LONGEST: usize = 4096;

const UPDATE: u8 = 2;

const NOTIFICATION: u8 = 3;

const KEEPALIVE: u8 = 4;

/// Whether each octet has all bits set.
fn all_ones(bytes: &[u8]) -> bool
    ensures { result ≡ list_all (λ b. b == 255) bytes.now }
{
    bytes.iter().all(|b| *b == 255)
}

/// The type in the header, or none if it isn't the header of these octets. Its fields (RFC 4271 section 4.1):
///
/// 1. The marker, sixteen octets, each of which has all bits set.
/// 2. The length, two octets: 19 to 4096, and exactly that of the octets.
/// 3. The type, one octet, of any value.
fn kind_of(bytes: &[u8]) -> Option<u8>
    ensures found { IfSome result (λ kind. IsHeader bytes.now kind) }
    ensures none { IfNone result ((kind : ℕ) → IsHeader bytes.now kind → ⊥) }
{
    if bytes.len() < HEADER || bytes.len() > LONGEST {
        return None;
    }
    if !all_ones(bytes.split_at(16).0) {
        return None;
    }
    if u16_at(bytes, 16) as usize != bytes.len() {
        return None;
    }
    Some(bytes[18])
}

/// Reads the message in all of the octets, however large its routes. After the header, by its type:
///
/// 1. An UPDATE (2) is read whole (RFC 4271 section 4.3).
/// 2. A NOTIFICATION (3) ends the session (section 4.5). Its rest isn't read.
/// 3. A KEEPALIVE (4) has nothing after the header (section 4.4).
/// 4. The rest of an OPEN (1), or of a message of another type, isn't read.
fn message_of(alloc: Global, bytes: &[u8], width: AsWidth) -> Result<Message, ReadFault>
    ensures message { Exactly reported (IsMessage width bytes.now) result }
    ensures memory { IfErr result (λ e. e ≡ OutOfMemory → IsHeader bytes.now 2) }
{
    let Some(kind) = kind_of(bytes) else {
        return Err(ReadFault::Malformed);
    };
    if kind == UPDATE {
        let update = read_update(alloc, bytes.split_at(HEADER).1, width)?;
        return Ok(Message::Update(update));
    }
    if kind == NOTIFICATION {
        return Ok(Message::Notification);
    }
    if kind == KEEPALIVE && bytes.len() != HEADER {
        return Err(ReadFault::Malformed);
    }
    Ok(Message::Other(kind))
}

/// Whether a route is too large for an admission.
fn is_large(announcement: &Option<Announcement>) -> bool
    ensures { IsTrue result ↔ IsLarge (option_reported announcement.now) }
{
    match announcement {
        None => false,
        Some(announcement) => announcement.route.encoded_len() > MAX_ROUTE_LEN,
    }
}

fn has_large(message: &Message) -> bool
    ensures { IsTrue result ↔ HasLarge (reported message.now) }
{
    match message {
        Message::Update(update) => is_large(&update.announced) || is_large(&update.reachable),
        Message::Notification => false,
        Message::Other(_) => false,
    }
}

/// Reads the message in all of the octets, at the width of AS numbers that the session used (RFC 4271 section 4, RFC
/// 4760, RFC 6793). `Malformed` if it isn't one; `RouteTooLarge` if it announces a route whose
/// encoding has more than 3,072 octets; `OutOfMemory` if an allocation failed, which only an UPDATE needs.
pub fn read_message(alloc: Global, bytes: &[u8], width: AsWidth) -> Result<Message, MessageFault>
    ensures message { AnswersMessage width bytes.now result }
{
    let message = message_of(alloc, bytes, width)?;
    if has_large(&message) {
        return Err(MessageFault::RouteTooLarge);
    }
    Ok(message)
}
