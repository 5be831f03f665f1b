//! Why a message or an entry gives no routes.

ghost use Rattle.std.specs.Prelude.{◌≡◌};
ghost use Rattle.bgp_update.specs.Faults.{message_fault};

use route_model::octets::ReadFault;
use thiserror::Error;

/// Why a message or the attributes of a RIB entry are refused.
#[derive(Clone, Copy, Debug, Error, PartialEq, Eq)]
pub enum MessageFault {
    /// They are malformed.
    #[error("the message is malformed")]
    Malformed,
    /// A route that they announce has an encoding of more than 3,072 octets.
    #[error("a route has more than 3072 octets")]
    RouteTooLarge,
    /// An allocation failed.
    #[error("out of memory")]
    OutOfMemory,
}

impl From<ReadFault> for MessageFault {
    ghost from_gives = { λ e f. f ≡ message_fault e };

    fn from(e: ReadFault) -> MessageFault {
        match e {
            ReadFault::Malformed => MessageFault::Malformed,
            ReadFault::OutOfMemory => MessageFault::OutOfMemory,
        }
    }
}
