//! What a request is answered.

ghost use Rattle.std.specs.Prelude.{◌≡◌};

use crate::fault::Fault;
use crate::page::page_text;
use crate::refusals::{advice_on, block_of, page_of, settled_of, status_of};
use crate::status::Status;
use dates::Seconds;
use serde::Serialize;
use service::Refusal;
use std::alloc::Global;

/// What the body of an answer is.
#[derive(Clone, Copy, Debug, PartialEq, Eq)]
pub enum Form {
    Json,
    /// Prometheus' text form 0.0.4.
    Metrics,
    /// The page for people.
    Page,
}

/// Where the text of a body is.
#[derive(Debug, Drop)]
enum Body {
    Text(String),
    /// The page. It needs no memory.
    Page,
    /// That memory was refused. It needs none.
    OutOfMemory,
}

/// What a request is answered.
#[derive(Debug, Drop)]
pub struct Answer {
    pub status: Status,
    pub form: Form,
    body: Body,
}

/// The body of an answer for which there was no memory.
const OUT_OF_MEMORY: &str =
    "{\"error\":{\"number\":27,\"name\":\"OutOfMemory\",\"message\":\"ask again later\"}}";

/// What an object says of an error.
#[derive(Debug, Drop, Serialize)]
struct ErrorObject {
    number: u8,
    name: &'static str,
    #[serde(skip_serializing_if = "Option::is_none")]
    settled: Option<Seconds>,
    #[serde(skip_serializing_if = "Option::is_none")]
    block: Option<u64>,
    #[serde(skip_serializing_if = "Option::is_none")]
    page: Option<u64>,
    message: &'static str,
}

#[derive(Debug, Drop, Serialize)]
struct ErrorBody {
    error: ErrorObject,
}

fn text_of(alloc: Global, body: &ErrorBody) -> Option<String> {
    serde_json::to_string(alloc, body).ok()
}

/// What is said of a request that isn't answered before the archive is asked.
fn fault_body(fault: Fault) -> ErrorBody {
    ErrorBody {
        error: ErrorObject {
            number: Refusal::BadRequest.number(),
            name: Refusal::BadRequest.name(),
            settled: None,
            block: None,
            page: None,
            message: fault.message(),
        },
    }
}

/// What is said of a question that is refused.
fn refusal_body(refusal: &Refusal) -> ErrorBody {
    ErrorBody {
        error: ErrorObject {
            number: refusal.number(),
            name: refusal.name(),
            settled: settled_of(refusal),
            block: block_of(refusal),
            page: page_of(refusal),
            message: advice_on(refusal),
        },
    }
}

impl Answer {
    /// An answer with this body.
    pub(crate) fn of(form: Form, text: String) -> Answer {
        Answer {
            status: Status::Done,
            form,
            body: Body::Text(text),
        }
    }

    /// The page.
    pub(crate) fn page() -> Answer
        ensures page { result.form ≡ Form.Page }
    {
        Answer {
            status: Status::Done,
            form: Form::Page,
            body: Body::Page,
        }
    }

    /// The answer for which there was no memory.
    pub(crate) fn out_of_memory() -> Answer {
        Answer {
            status: Status::Unavailable,
            form: Form::Json,
            body: Body::OutOfMemory,
        }
    }

    /// An answer that says why there is no other.
    fn refused(status: Status, text: Option<String>) -> Answer {
        match text {
            Some(text) => Answer {
                status,
                form: Form::Json,
                body: Body::Text(text),
            },
            None => Answer::out_of_memory(),
        }
    }

    /// The answer to a request that isn't answered before the archive is asked.
    pub(crate) fn to_fault(alloc: Global, fault: Fault) -> Answer {
        match fault {
            Fault::OutOfMemory => Answer::out_of_memory(),
            _ => Answer::refused(fault.status(), text_of(alloc, &fault_body(fault))),
        }
    }

    /// The answer to a question that is refused.
    pub(crate) fn to_refusal(alloc: Global, refusal: &Refusal) -> Answer {
        match refusal {
            Refusal::BadRequest => Answer::to_fault(alloc, Fault::BadQuery),
            _ => Answer::refused(status_of(refusal), text_of(alloc, &refusal_body(refusal))),
        }
    }

    /// Its body.
    pub fn body(&self) -> &str {
        match &self.body {
            Body::Text(text) => text.as_str(),
            Body::Page => page_text(),
            Body::OutOfMemory => OUT_OF_MEMORY,
        }
    }
}
