//! Laws of request lines.

ghost use Rattle.service.specs.RequestLaws.{OneRequest};

/// No line is two requests: [`read_request`](crate::read_request) is the one reading of a line.
pub fn lines_are_one_request()
    ensures one { OneRequest }
{}
