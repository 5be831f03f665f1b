//! Why a request isn't answered before the archive is asked.

use crate::status::Status;
use std::alloc::AllocError;

/// Why a request isn't answered before the archive is asked.
#[derive(Clone, Copy, Debug, PartialEq, Eq)]
pub(crate) enum Fault {
    /// The octets are no request of HTTP/1.x.
    NotHttp,
    /// The head is too long, or has too many fields.
    LongHead,
    /// The method is neither GET nor HEAD.
    OtherMethod,
    /// The request has a body.
    HasBody,
    /// There is no such path.
    NoPath,
    /// A parameter is unknown, missing, given twice, or isn't a text of its kind.
    BadQuery,
    /// An allocation failed.
    OutOfMemory,
}

impl Fault {
    pub(crate) fn status(self) -> Status {
        match self {
            Fault::NotHttp | Fault::HasBody | Fault::BadQuery => Status::BadRequest,
            Fault::LongHead => Status::LongHead,
            Fault::OtherMethod => Status::OtherMethod,
            Fault::NoPath => Status::NotFound,
            Fault::OutOfMemory => Status::Unavailable,
        }
    }

    /// What is wrong.
    pub(crate) fn message(self) -> &'static str {
        match self {
            Fault::NotHttp => "this is no request of HTTP/1.x",
            Fault::LongHead => "a head has at most 8192 octets and 64 fields",
            Fault::OtherMethod => "only GET and HEAD are answered",
            Fault::HasBody => "a request has no body here",
            Fault::NoPath => "there is no such path",
            Fault::BadQuery => "a parameter is unknown, missing, given twice or not of its kind",
            Fault::OutOfMemory => "ask again later",
        }
    }
}

impl From<AllocError> for Fault {
    fn from(_why: AllocError) -> Fault {
        Fault::OutOfMemory
    }
}
