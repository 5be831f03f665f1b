//! Why a record gives no admission.

ghost use Rattle.std.specs.Prelude.{◌≡◌};
ghost use Rattle.resolve.specs.Faults.{of_message, of_admission, of_memory};

use bgp_update::MessageFault;
use route_model::AdmissionError;
use std::alloc::AllocError;
use thiserror::Error;

/// Why a record gives no admission. Such a record is lost alone; a malformed peer table also leaves the feed
/// without one.
#[derive(Clone, Copy, Debug, Error, PartialEq, Eq)]
pub enum ResolveFault {
    /// The record, or a message or attributes in it, is malformed.
    #[error("the record is malformed")]
    Malformed,
    /// A route that it announces has an encoding of more than 3,072 octets.
    #[error("a route has more than 3072 octets")]
    RouteTooLarge,
    /// A RIB record came, and the feed has no peer table.
    #[error("there is no peer table")]
    NoPeerTable,
    /// An entry names a peer that the peer table doesn't have.
    #[error("an entry names no peer of the peer table")]
    BadPeerIndex,
    /// The admission has an encoding of more than 131,072 octets.
    #[error("the admission has more than 131072 octets")]
    AdmissionTooLarge,
    /// An allocation failed.
    #[error("out of memory")]
    OutOfMemory,
}

impl From<AllocError> for ResolveFault {
    ghost from_gives = { λ e f. f ≡ of_memory };

    fn from(_: AllocError) -> ResolveFault {
        ResolveFault::OutOfMemory
    }
}

impl From<MessageFault> for ResolveFault {
    ghost from_gives = { λ e f. f ≡ of_message e };

    fn from(e: MessageFault) -> ResolveFault {
        match e {
            MessageFault::Malformed => ResolveFault::Malformed,
            MessageFault::RouteTooLarge => ResolveFault::RouteTooLarge,
            MessageFault::OutOfMemory => ResolveFault::OutOfMemory,
        }
    }
}

impl From<AdmissionError> for ResolveFault {
    ghost from_gives = { λ e f. f ≡ of_admission e };

    fn from(e: AdmissionError) -> ResolveFault {
        match e {
            AdmissionError::RouteTooLarge => ResolveFault::RouteTooLarge,
            AdmissionError::AdmissionTooLarge => ResolveFault::AdmissionTooLarge,
        }
    }
}
