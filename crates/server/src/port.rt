//! What a port takes of the lines that come over it.

ghost use Rattle.std.specs.Prelude.{◌≡◌, ◌↔◌, IsTrue, true, codes};
ghost use Rattle.server.specs.Ports.{ClosesAfter, EndsIn, Takes};

use crate::command::Command;

/// What a port takes.
#[derive(Clone, Copy, Debug, PartialEq, Eq)]
pub struct Port {
    /// It takes no `feed`, `mark` or `stop`: they are no lines there.
    pub read_only: bool,
    /// A line of HTTP, which a web page can make a browser send, ends the connection.
    pub closes_http: bool,
}

impl Port {
    /// Whether the port takes a command.
    pub(crate) fn takes(self, command: &Command) -> bool
        ensures takes { IsTrue result ↔ Takes self command.now }
    {
        match command {
            Command::Request(_) | Command::Quit => true,
            Command::Mark(_, _) | Command::Feed(_, _) | Command::Stop => !self.read_only,
        }
    }

    /// Whether the connection ends after a line, since it is one of HTTP.
    pub(crate) fn closes_after(self, line: &[u8]) -> bool
        ensures closes { IsTrue result ↔ ClosesAfter self line.now }
    {
        self.closes_http && (ends_in(line, b" HTTP/1.1") || ends_in(line, b" HTTP/1.0"))
    }
}

/// Whether a line ends in this text.
fn ends_in(line: &[u8], text: &[u8]) -> bool
    ensures ends { IsTrue result ↔ EndsIn line.now text.now }
{
    line.ends_with(text)
}
