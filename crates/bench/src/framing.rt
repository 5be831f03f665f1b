//! Counts the items of a file by kind: a measure of the framer's speed.

use crate::reading::{Counter, more};
use mrt_records::Item;
use std::alloc::Global;
use std::io;

/// How many items of each kind there were.
#[derive(Drop)]
pub struct Framing {
    messages: u64,
    message_octets: u64,
    state_changes: u64,
    tables: u64,
    peers: u64,
    ribs: u64,
    entries: u64,
    skipped: u64,
    malformed: u64,
}

impl Framing {
    pub const NONE: Framing = Framing {
        messages: 0,
        message_octets: 0,
        state_changes: 0,
        tables: 0,
        peers: 0,
        ribs: 0,
        entries: 0,
        skipped: 0,
        malformed: 0,
    };

    fn count_item(&mut self, item: &Item) {
        match item {
            Item::Message { octets, .. } => {
                more(&mut self.messages, 1);
                more(&mut self.message_octets, octets.len());
            }
            Item::StateChange { .. } => more(&mut self.state_changes, 1),
            Item::PeerTable(peers) => {
                more(&mut self.tables, 1);
                more(&mut self.peers, peers.len());
            }
            Item::Rib { entries, .. } => {
                more(&mut self.ribs, 1);
                more(&mut self.entries, entries.len());
            }
            Item::Skipped { .. } => more(&mut self.skipped, 1),
            Item::Malformed { .. } => more(&mut self.malformed, 1),
        }
    }

    pub fn print(&self, rt: &HostRuntime) -> io::Result<()> {
        println!(rt;
            "messages {} of {} octets",
            self.messages, self.message_octets
        )?;
        println!(rt; "state changes {}", self.state_changes)?;
        println!(rt; "peer tables {} of {} peers", self.tables, self.peers)?;
        println!(rt; "RIB records {} of {} entries", self.ribs, self.entries)?;
        println!(rt; "skipped {}", self.skipped)?;
        println!(rt; "malformed {}", self.malformed)
    }
}

impl Counter for Framing {
    fn count(&mut self, _alloc: Global, items: &[Item]) {
        for item in items {
            self.count_item(item);
        }
    }
}
