//! Laws of ports.

ghost use Rattle.std.specs.Prelude.{IsSome};
ghost use Rattle.server.specs.PortLaws.{ReadOnlyConnections, ReadOnlyLines};

use query_threads::OnDisk;

/// A line that is answered over a read-only port never sets a mark, announces a feed or stops the server.
pub fn read_only_ports_change_nothing<D, N: OnDisk<D>>()
    ensures lines { ReadOnlyLines (IsSome N.disk) }
    ensures connections { ReadOnlyConnections (IsSome N.disk) }
{}
