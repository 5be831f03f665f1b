//! What a load reports besides its lines.

use crate::be;
use crate::pure::Pure;
use crate::samples::{
    EARLIER, LONG_PREFIX, PEER_TABLE, RIB_OF_THREE, RIB_WITHOUT_HOP, UPDATE, stream,
};
use route_model::{Mark, Moment};
use service::{
    FeedCounts, FeedSettings, FileLoad, LoadReport, LoadSettings, Output, Refusal, WithoutHop, load,
};
use std::alloc::Global;

/// Records that are loaded into an archive of one collector, and what is reported.
struct Reported {
    collector: u8,
    rule: WithoutHop,
    mark: u32,
    records: &'static [&'static str],
    /// How many records, and how many of these are admitted, late and refused.
    counts: Option<[u64; 4]>,
    left_out: u64,
    refusal: Option<Refusal>,
}

/// The counts of a feed of which nothing was skipped.
fn counted(counts: [u64; 4]) -> FeedCounts {
    let [records, admitted, late, refused] = counts;
    FeedCounts {
        records,
        admitted,
        late,
        refused,
        skipped: 0,
    }
}

const REPORTS: [Reported; 5] = [
    Reported {
        collector: 0,
        rule: WithoutHop::Refused,
        mark: 1_704_067_201,
        records: &[UPDATE, EARLIER, LONG_PREFIX],
        counts: Some([3, 1, 1, 1]),
        left_out: 0,
        refusal: None,
    },
    Reported {
        collector: 0,
        rule: WithoutHop::Refused,
        mark: 1_704_067_201,
        records: &[],
        counts: Some([0, 0, 0, 0]),
        left_out: 0,
        refusal: None,
    },
    Reported {
        collector: 0,
        rule: WithoutHop::LeftOut,
        mark: 1_704_067_201,
        records: &[PEER_TABLE, RIB_OF_THREE, RIB_WITHOUT_HOP],
        counts: Some([3, 1, 0, 0]),
        left_out: 3,
        refusal: None,
    },
    Reported {
        collector: 0,
        rule: WithoutHop::Refused,
        mark: 1,
        records: &[UPDATE],
        counts: Some([1, 1, 0, 0]),
        left_out: 0,
        refusal: Some(Refusal::MarkBack),
    },
    Reported {
        collector: 1,
        rule: WithoutHop::Refused,
        mark: 1_704_067_201,
        records: &[UPDATE],
        counts: None,
        left_out: 0,
        refusal: Some(Refusal::NoCollector),
    },
];

/// What a load of the records reports.
fn report_of(alloc: Global, it: &Reported) -> Option<LoadReport> {
    let mut archive = Pure::new(alloc, 1)?;
    let how = LoadSettings {
        feed: FeedSettings {
            collector: it.collector,
            limit: 1000,
            rule: it.rule,
        },
        mark: Some(Mark::at(Moment::from(it.mark))),
        resume: false,
        strict: false,
    };
    let octets = stream(alloc, it.records)?;
    let mut files = [FileLoad::new(octets.as_slice())];
    let mut out: Vec<u8> = Vec::new(alloc);
    let mut err: Vec<u8> = Vec::new(alloc);
    let mut lines = Output::new(&mut out);
    let mut refusals = Output::new(&mut err);
    let _ = load(
        alloc,
        &mut archive,
        how,
        &mut files,
        &mut lines,
        &mut refusals,
    );
    let file = files.first()?;
    Some(file.report)
}

/// Whether a load of the records reports this.
fn is_reported(alloc: Global, it: &Reported) -> bool {
    let counts = it.counts.map(counted);
    match report_of(alloc, it) {
        Some(report) => {
            report.counts == counts
                && report.left_out == it.left_out
                && report.refusal == it.refusal
        }
        None => false,
    }
}

#[test]
fn a_load_reports_its_counts_and_its_refusal(rt: HostRuntime) {
    for it in &REPORTS {
        be(&rt, is_reported(rt.alloc(), it), "a report");
    }
}
