//! Laws of the lines of a connection.

ghost use Rattle.server.specs.CommandLaws.{OneCommand};

/// No line asks two things: [`read_command`](crate::read_command) is the one reading of a line.
pub fn lines_are_one_command()
    ensures one { OneCommand }
{}
