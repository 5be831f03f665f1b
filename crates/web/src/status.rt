//! Status codes of answers (RFC 9110, RFC 6585).

/// How a request ended.
#[derive(Clone, Copy, Debug, PartialEq, Eq)]
pub enum Status {
    /// It is answered.
    Done,
    /// It asks nothing.
    BadRequest,
    /// Its path, or its collector, isn't there.
    NotFound,
    /// Its method isn't taken.
    OtherMethod,
    /// Its moment isn't below the watermark.
    Conflict,
    /// Its head is too long.
    LongHead,
    /// The archive couldn't answer it.
    Failed,
    /// It can be made again later.
    Unavailable,
}

impl Status {
    /// Its code and its name.
    pub(crate) fn text(self) -> &'static str {
        match self {
            Status::Done => "200 OK",
            Status::BadRequest => "400 Bad Request",
            Status::NotFound => "404 Not Found",
            Status::OtherMethod => "405 Method Not Allowed",
            Status::Conflict => "409 Conflict",
            Status::LongHead => "431 Request Header Fields Too Large",
            Status::Failed => "500 Internal Server Error",
            Status::Unavailable => "503 Service Unavailable",
        }
    }
}
