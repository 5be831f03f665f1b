//! Messages.

use crate::update::Update;

/// A BGP message (RFC 4271 section 4).
#[derive(Debug, Drop)]
pub enum Message {
    Update(Update),
    /// A NOTIFICATION: the session ends.
    Notification,
    /// A message of another type, of which only the header is read: 1 is OPEN, 4 is KEEPALIVE.
    Other(u8),
}
