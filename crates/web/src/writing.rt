//! Answers, written.

use crate::answers::{Answer, Form};
use crate::page::policy;
use crate::status::Status;
use service::Output;
use std::io::Write;

/// The value of `Content-Type`.
fn type_of(form: Form) -> &'static str {
    match form {
        Form::Json => "application/json",
        Form::Metrics => "text/plain; version=0.0.4; charset=utf-8",
        Form::Page => "text/html; charset=utf-8",
    }
}

/// Writes the head of an answer, after which the connection ends or not. No answer is to be stored: a settled one stays the same, but another
/// archive may be served at its address later.
fn write_head<W: Write>(out: &mut Output<W>, answer: &Answer, ends: bool) {
    out.text("HTTP/1.1 ");
    out.text(answer.status.text());
    out.text("\r\nContent-Type: ");
    out.text(type_of(answer.form));
    out.text("\r\nContent-Length: ");
    out.number(answer.body().len() as u64);
    out.text("\r\nCache-Control: no-store\r\nX-Content-Type-Options: nosniff\r\n");
    if answer.form == Form::Page {
        out.text("Content-Security-Policy: ");
        out.text(policy());
        out.text("\r\n");
    }
    if answer.status == Status::OtherMethod {
        out.text("Allow: GET, HEAD\r\n");
    }
    if ends {
        out.text("Connection: close\r\n");
    }
    out.text("\r\n");
}

/// Writes an answer out, after which the connection ends or not. An answer to HEAD has no body.
pub(crate) fn write_answer<W: Write>(
    out: &mut Output<W>,
    answer: &Answer,
    has_body: bool,
    ends: bool,
) {
    write_head(out, answer, ends);
    if has_body {
        out.text(answer.body());
    }
    out.flush();
}
