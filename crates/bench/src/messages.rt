//! Reads the messages and the routes of the RIB entries of a file: a measure of the readers' speed.

use crate::reading::{Counter, more};
use bgp_update::{Announcement, Message, Update, entry_route, read_attributes, read_message};
use mrt_records::{AsWidth, Family, Item, RibEntries};
use std::alloc::Global;
use std::io;

/// How many there were of each.
#[derive(Drop)]
pub struct Messages {
    /// How often each message and each entry is read.
    times: u32,
    updates: u64,
    others: u64,
    faults: u64,
    withdrawn: u64,
    announced: u64,
    entries: u64,
}

fn prefixes_of(announcement: &Option<Announcement>) -> usize {
    match announcement {
        Some(announcement) => announcement.prefixes.len(),
        None => 0,
    }
}

/// Whether the entry's attributes give a route.
fn has_route(alloc: Global, octets: &[u8], family: Family) -> bool {
    let Ok(attributes) = read_attributes(alloc, octets, AsWidth::Four) else {
        return false;
    };
    entry_route(alloc, attributes, family).is_ok()
}

impl Messages {
    pub fn new(times: u32) -> Self {
        Messages {
            times,
            updates: 0,
            others: 0,
            faults: 0,
            withdrawn: 0,
            announced: 0,
            entries: 0,
        }
    }

    fn count_update(&mut self, update: &Update) {
        more(&mut self.updates, 1);
        more(&mut self.withdrawn, update.withdrawn.len());
        more(&mut self.withdrawn, update.unreachable.len());
        more(&mut self.announced, prefixes_of(&update.announced));
        more(&mut self.announced, prefixes_of(&update.reachable));
    }

    fn count_message(&mut self, alloc: Global, octets: &[u8], width: AsWidth) {
        match read_message(alloc, octets, width) {
            Ok(Message::Update(update)) => self.count_update(&update),
            Ok(_) => more(&mut self.others, 1),
            Err(_) => more(&mut self.faults, 1),
        }
    }

    fn count_entries(&mut self, alloc: Global, entries: &RibEntries, family: Family) {
        for index in 0..entries.len() {
            let Some(entry) = entries.get(index) else {
                continue;
            };
            if has_route(alloc, entry.attributes, family) {
                more(&mut self.entries, 1);
            } else {
                more(&mut self.faults, 1);
            }
        }
    }

    fn count_item(&mut self, alloc: Global, item: &Item) {
        match item {
            Item::Message { octets, width, .. } => self.count_message(alloc, octets, *width),
            Item::Rib {
                prefix,
                entries,
                ..
            } => {
                let family = if prefix.address().family() == 4 {
                    Family::Ipv4
                } else {
                    Family::Ipv6
                };
                self.count_entries(alloc, entries, family);
            }
            _ => {}
        }
    }

    pub fn print(&self, rt: &HostRuntime) -> io::Result<()> {
        println!(rt; "UPDATEs {}", self.updates)?;
        println!(rt; "other messages {}", self.others)?;
        println!(rt; "withdrawn prefixes {}", self.withdrawn)?;
        println!(rt; "announced prefixes {}", self.announced)?;
        println!(rt; "entries with a route {}", self.entries)?;
        println!(rt; "faults {}", self.faults)
    }
}

impl Counter for Messages {
    fn count(&mut self, alloc: Global, items: &[Item]) {
        for _ in 0..self.times {
            for item in items {
                self.count_item(alloc, item);
            }
        }
    }
}
