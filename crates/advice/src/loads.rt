//! Advice about a load.

use crate::files::{FileAdvice, advise_file};
use crate::limits::LimitAdvice;
use crate::loaded::Loaded;
use crate::marks::MarkAdvice;
use crate::saying::advise;
use archive_calls::RouteArchive;
use archive_facts::Sizes;
use service::{LoadReport, Output, Refusal, is_far};
use std::alloc::Global;
use std::io::Write;

/// Prints how large a full archive is, and what helps.
fn advise_full<E: Write>(
    alloc: Global,
    refusal: Refusal,
    sizes: Sizes,
    collector: u8,
    collectors: u8,
    err: &mut Output<E>,
) {
    match refusal {
        Refusal::PagesFull => advise(alloc, &LimitAdvice::Pages(sizes.pages), err),
        Refusal::OnceFull => advise(alloc, &LimitAdvice::Blocks(sizes.blocks), err),
        Refusal::IntakeFull => {
            let pages = sizes.ring;
            advise(
                alloc,
                &LimitAdvice::Ring {
                    collector,
                    collectors,
                    pages,
                },
                err,
            );
        }
        _ => {}
    }
}

/// Prints what the mark of a collector is, which can't be set back.
fn advise_back<A: RouteArchive, E: Write>(
    alloc: Global,
    archive: &A,
    collector: u8,
    err: &mut Output<E>,
) {
    if let Some(present) = archive.resume(collector) {
        let mark = present.mark;
        advise(alloc, &MarkAdvice::Present { collector, mark }, err);
    }
}

/// Prints what helps if a load was refused.
fn advise_refused<A: RouteArchive, E: Write>(
    alloc: Global,
    archive: &A,
    refusal: Refusal,
    loaded: &Loaded<'_>,
    err: &mut Output<E>,
) {
    let (collector, collectors) = (loaded.collector, archive.collectors());
    match refusal {
        Refusal::NoCollector => advise(alloc, &MarkAdvice::Collectors(collectors), err),
        Refusal::MarkBack => advise_back(alloc, archive, collector, err),
        _ => {
            if let Some(sizes) = loaded.sizes {
                advise_full(alloc, refusal, sizes, collector, collectors, err);
            }
        }
    }
}

/// Prints that a file ends inside a record, if it does and nothing else is known of it.
fn advise_cut<E: Write>(alloc: Global, loaded: &Loaded<'_>, err: &mut Output<E>) {
    let LoadReport {
        present,
        refusal,
        ..
    } = loaded.report;
    if let (None, None, None) = (present, refusal, loaded.packing) {
        advise(alloc, &FileAdvice::Cut { file: loaded.file }, err);
    }
}

/// Prints that a mark lies far ahead, if it was set or held back, and that a load that is strict was held back.
fn advise_held<E: Write>(alloc: Global, loaded: &Loaded<'_>, err: &mut Output<E>) {
    let LoadReport {
        present,
        is_held,
        ..
    } = loaded.report;
    if let (Some(mark), Some(present), None) = (loaded.mark, present, loaded.report.refusal) {
        if is_far(Some(mark), present) {
            advise(
                alloc,
                &MarkAdvice::Far {
                    mark,
                    present,
                    is_held,
                },
                err,
            );
        }
    }
    if is_held {
        advise(alloc, &MarkAdvice::Held, err);
    }
}

/// Prints what a person may not expect of the load of a file: that the file isn't MRT, that nothing of it, or little, was taken, that
/// the mark lies far ahead; and what helps if it was refused.
pub fn advise_load<A: RouteArchive, E: Write>(
    alloc: Global,
    archive: &A,
    loaded: &Loaded<'_>,
    err: &mut Output<E>,
) {
    if let Some(counts) = &loaded.report.counts {
        advise_file(alloc, loaded, counts, err);
        advise_cut(alloc, loaded, err);
        advise_held(alloc, loaded, err);
    }
    let (file, count) = (loaded.file, loaded.report.left_out);
    if count > 0 {
        advise(alloc, &FileAdvice::LeftOut { file, count }, err);
    }
    if let Some(refusal) = loaded.report.refusal {
        advise_refused(alloc, archive, refusal, loaded, err);
    }
}
