//! Resolves the records of a file: a measure of all that stands between a file and its admissions.

use crate::reading::{Counter, more};
use mrt_records::Item;
use resolve::{Resolver, WithoutHop};
use route_model::{Admission, Change};
use std::alloc::Global;
use std::io;

/// How many there were of each.
#[derive(Drop)]
pub struct Admissions {
    resolver: Resolver,
    records: u64,
    admissions: u64,
    announced: u64,
    withdrawn: u64,
    ended: u64,
    refused: u64,
}

impl Admissions {
    pub fn new() -> Self {
        Admissions {
            resolver: Resolver::new(0),
            records: 0,
            admissions: 0,
            announced: 0,
            withdrawn: 0,
            ended: 0,
            refused: 0,
        }
    }

    fn count_admission(&mut self, admission: &Admission) {
        more(&mut self.admissions, 1);
        for change in admission.changes() {
            match change {
                Change::Announce(_, _, _) => more(&mut self.announced, 1),
                Change::Withdraw(_, _) => more(&mut self.withdrawn, 1),
                Change::Down(_) => more(&mut self.ended, 1),
            }
        }
    }

    pub fn print(&self, rt: &HostRuntime) -> io::Result<()> {
        println!(rt; "records {}", self.records)?;
        println!(rt; "admissions {}", self.admissions)?;
        println!(rt; "announced {}", self.announced)?;
        println!(rt; "withdrawn {}", self.withdrawn)?;
        println!(rt; "ended {}", self.ended)?;
        println!(rt; "refused {}", self.refused)
    }
}

impl Counter for Admissions {
    fn count(&mut self, alloc: Global, items: &[Item]) {
        for item in items {
            more(&mut self.records, 1);
            match self.resolver.record(alloc, WithoutHop::Refused, item) {
                Ok(Some(admission)) => self.count_admission(&admission),
                Ok(None) => {}
                Err(_) => more(&mut self.refused, 1),
            }
        }
    }
}
