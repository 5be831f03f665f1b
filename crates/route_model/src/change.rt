//! Changes of routes.

ghost use Rattle.std.specs.Prelude.{◌≡◌, IfOk};

use crate::peer::Peer;
use crate::prefix::Prefix;
use crate::shared::SharedRoute;
use std::alloc::AllocError;

/// What a peer said about its routes.
#[derive(Debug, Drop)]
pub enum Change {
    /// The peer has this route for the prefix.
    Announce(Peer, Prefix, SharedRoute),
    /// The peer has no route for the prefix any more.
    Withdraw(Peer, Prefix),
    /// The peer's session ended, and all of its routes with it.
    Down(Peer),
}

impl Change {
    ghost use Rattle.route_model.specs.Admission.{peer_of};

    /// The peer that said it.
    pub fn peer(&self) -> Peer
        ensures peer { result ≡ peer_of self.now }
    {
        match self {
            Change::Announce(peer, _, _) => *peer,
            Change::Withdraw(peer, _) => *peer,
            Change::Down(peer) => *peer,
        }
    }

    /// The same change; its route is shared.
    pub fn share(&self) -> Result<Change, AllocError>
        ensures same { IfOk result (λ change. change ≡ self.now) }
    {
        Ok(match self {
            Change::Announce(peer, prefix, route) => {
                Change::Announce(*peer, *prefix, route.share()?)
            }
            Change::Withdraw(peer, prefix) => Change::Withdraw(*peer, *prefix),
            Change::Down(peer) => Change::Down(*peer),
        })
    }
}
