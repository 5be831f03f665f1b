//! How far an archive has come, and which questions were asked, in Prometheus' text form 0.0.4.

use crate::standing::{Lane, Room, Standing};
use dates::Seconds;
use server::{KINDS, Kind, Meters};
use std::alloc::{AllocError, Global};

/// A metric: its name, its type, and what it is.
#[derive(Clone, Copy)]
struct Metric {
    name: &'static str,
    kind: &'static str,
    help: &'static str,
}

/// What of a collector a metric has.
#[derive(Clone, Copy)]
enum Field {
    Admitted,
    Offered,
    RingUsed,
    Ring,
}

fn gauge(name: &'static str, help: &'static str) -> Metric {
    Metric {
        name,
        kind: "gauge",
        help,
    }
}

fn counter(name: &'static str, help: &'static str) -> Metric {
    Metric {
        name,
        kind: "counter",
        help,
    }
}

/// Writes the lines before the values of a metric.
fn write_heading(out: &mut String, metric: Metric) -> Result<(), AllocError> {
    let Metric { name, kind, help } = metric;
    writeln!(out, "# HELP {name} {help}")?;
    writeln!(out, "# TYPE {name} {kind}")
}

/// Writes a metric of the whole archive, if its value is known.
fn write_value(out: &mut String, metric: Metric, value: Option<u64>) -> Result<(), AllocError> {
    let Some(value) = value else {
        return Ok(());
    };
    write_heading(out, metric)?;
    let name = metric.name;
    writeln!(out, "{name} {value}")
}

/// Writes a time of the whole archive, if it is known.
fn write_time(out: &mut String, metric: Metric, time: Option<Seconds>) -> Result<(), AllocError> {
    let Some(time) = time else {
        return Ok(());
    };
    write_heading(out, metric)?;
    let name = metric.name;
    writeln!(out, "{name} {time}")
}

impl Lane {
    fn value(&self, field: Field) -> Option<u64> {
        match field {
            Field::Admitted => Some(self.admitted),
            Field::Offered => self.offered,
            Field::RingUsed => used_in(self.ring),
            Field::Ring => size_in(self.ring),
        }
    }
}

fn used_in(room: Option<Room>) -> Option<u64> {
    room.map(|it| it.used)
}

fn size_in(room: Option<Room>) -> Option<u64> {
    room.map(|it| it.of)
}

/// Writes what comes before the value of a collector.
fn write_label(out: &mut String, name: &str, collector: u8) -> Result<(), AllocError> {
    out.push_str(name)?;
    out.push_str("{collector=\"")?;
    write!(out, "{collector}")?;
    out.push_str("\"} ")
}

/// Writes the mark of each collector whose mark is known.
fn write_marks(out: &mut String, lanes: &[Lane]) -> Result<(), AllocError> {
    let metric = gauge(
        "rha_mark_seconds",
        "The mark of a collector, in seconds since 1970.",
    );
    write_heading(out, metric)?;
    for lane in lanes {
        if let Some(mark) = lane.mark {
            write_label(out, metric.name, lane.collector)?;
            writeln!(out, "{mark}")?;
        }
    }
    Ok(())
}

/// Writes a metric of each collector whose value is known.
fn write_lanes(
    out: &mut String,
    metric: Metric,
    lanes: &[Lane],
    field: Field,
) -> Result<(), AllocError> {
    write_heading(out, metric)?;
    let name = metric.name;
    for lane in lanes {
        if let Some(value) = lane.value(field) {
            let collector = lane.collector;
            write_label(out, name, collector)?;
            writeln!(out, "{value}")?;
        }
    }
    Ok(())
}

/// Writes what is known of the collectors.
fn write_collectors(out: &mut String, lanes: &[Lane]) -> Result<(), AllocError> {
    let metric = counter(
        "rha_admitted_records_total",
        "Records of a collector that are admitted.",
    );
    write_lanes(out, metric, lanes, Field::Admitted)?;
    let metric = counter(
        "rha_offered_records_total",
        "Records of a collector that were offered, late ones too.",
    );
    write_lanes(out, metric, lanes, Field::Offered)?;
    write_marks(out, lanes)?;
    let metric = gauge(
        "rha_ring_used_bytes",
        "What pending admissions use of a collector's ring.",
    );
    write_lanes(out, metric, lanes, Field::RingUsed)?;
    let metric = gauge("rha_ring_bytes", "The size of a collector's ring.");
    write_lanes(out, metric, lanes, Field::Ring)
}

/// Writes how much of both disks is used.
fn write_rooms(out: &mut String, standing: &Standing) -> Result<(), AllocError> {
    let metric = gauge("rha_pages_used", "Home pages that were ever used.");
    write_value(out, metric, used_in(standing.pages))?;
    let metric = gauge("rha_pages", "Home pages.");
    write_value(out, metric, size_in(standing.pages))?;
    let metric = gauge(
        "rha_blocks_used",
        "Blocks of the write-once disk that were ever tried.",
    );
    write_value(out, metric, used_in(standing.blocks))?;
    let metric = gauge("rha_blocks", "Blocks of the write-once disk.");
    write_value(out, metric, size_in(standing.blocks))
}

/// Writes what comes before the value of a kind of questions.
fn write_kind(out: &mut String, metric: Metric, kind: Kind) -> Result<(), AllocError> {
    out.push_str(metric.name)?;
    out.push_str("{kind=\"")?;
    out.push_str(kind.word())?;
    out.push_str("\"} ")
}

/// Writes how many questions of each kind were answered, and how many seconds that took.
fn write_questions(out: &mut String, meters: &Meters) -> Result<(), AllocError> {
    let metric = counter(
        "rha_questions_total",
        "Questions that were answered or refused since the server began.",
    );
    write_heading(out, metric)?;
    for kind in &KINDS {
        let count = meters.of(*kind).count();
        write_kind(out, metric, *kind)?;
        writeln!(out, "{count}")?;
    }
    let metric = counter(
        "rha_question_seconds_total",
        "Seconds from the reading of these questions to their replies.",
    );
    write_heading(out, metric)?;
    for kind in &KINDS {
        let time = meters.of(*kind).time();
        let (seconds, nanoseconds) = (time.as_secs(), time.subsec_nanos());
        write_kind(out, metric, *kind)?;
        writeln!(out, "{seconds}.{nanoseconds:09}")?;
    }
    Ok(())
}

impl Standing {
    /// It and the questions that were asked. What isn't known while the archive isn't open is left out. Memory alone refuses it.
    pub(crate) fn metrics(&self, alloc: Global, meters: &Meters) -> Result<String, AllocError> {
        let mut text = String::new(alloc);
        let metric = gauge(
            "rha_settled_seconds",
            "The settled watermark, in seconds since 1970.",
        );
        write_time(&mut text, metric, Some(self.settled))?;
        let metric = counter("rha_applied_changes_total", "Changes that are applied.");
        write_value(&mut text, metric, self.changes)?;
        let metric = gauge(
            "rha_last_change_seconds",
            "The time of the last change that is applied, in seconds since 1970.",
        );
        write_time(&mut text, metric, self.last)?;
        write_rooms(&mut text, self)?;
        write_collectors(&mut text, &self.collectors)?;
        write_questions(&mut text, meters)?;
        Ok(text)
    }
}
