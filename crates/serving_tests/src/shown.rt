//! Tests of what stands on the terminal.

use crate::be;
use crate::screen::Screen;
use progress::{ClearedWriter, Counts, Meter, RowMeter, WatchedReader};
use std::io::{Read, Write};

#[test]
fn a_line_says_what_was_counted(rt: HostRuntime) {
    let counts = Counts {
        octets: 81_499_880,
        records: 806_188,
        applied: 1_000_000,
        milliseconds: 2_500,
    };
    let line = format!(in rt.alloc(); "{counts}").expect(&rt, "memory for the line");
    let expected =
        "octets 81499880, records 806188, changes applied 1000000, octets a second 32599952";
    be(
        &rt,
        line.as_str() == expected,
        "a line says what was counted",
    );
}

// The clock is read as the load begins and at each count: from 100 to 500 milliseconds.
#[test]
fn a_line_is_written_anew_after_a_fifth_of_a_second(rt: HostRuntime) {
    let screen = Screen::new(rt.alloc());
    let meter = Meter::new(Some(&screen));
    let octets: &[u8] = &[7; 30];
    let mut reader = WatchedReader::new(octets, &meter);
    let mut piece = [0; 20];
    be(
        &rt,
        reader.read(&mut piece).ok() == Some(20) && screen.shows(""),
        "no line is written at once",
    );
    be(
        &rt,
        reader.read(&mut piece).ok() == Some(10),
        "ten octets are left",
    );
    let first = "\roctets 30, records 0, changes applied 0, octets a second 150\u{1b}[K";
    be(&rt, screen.shows(first), "a line is written");
    meter.count_records(3);
    be(
        &rt,
        screen.shows(first),
        "none is written a tenth of a second later",
    );
    meter.count_applied(2);
    let both =
        "\roctets 30, records 0, changes applied 0, octets a second 150\u{1b}[K\roctets 30, records 3, changes applied 2, octets a second 75\u{1b}[K";
    be(
        &rt,
        screen.shows(both),
        "a line is written anew after a fifth of a second",
    );
}

#[test]
fn a_line_is_gone_before_others_are_written(rt: HostRuntime) {
    let screen = Screen::new(rt.alloc());
    let meter = Meter::new(Some(&screen));
    let mut lines = Vec::new(rt.alloc());
    let mut out = ClearedWriter::new(&mut lines, Some(meter.line()));
    out.write_all(b"first\n").expect(&rt, "a line is written");
    be(
        &rt,
        screen.shows(""),
        "a line is gone before others are written",
    );
    meter.count_applied(1);
    meter.count_applied(2);
    out.write_all(b"second\n").expect(&rt, "a line is written");
    out.write_all(b"third\n").expect(&rt, "a line is written");
    drop(out);
    let expected = "\roctets 0, records 0, changes applied 2, octets a second 0\u{1b}[K\r\u{1b}[K";
    be(
        &rt,
        screen.shows(expected),
        "a line is gone before others are written",
    );
    be(
        &rt,
        lines.as_slice() == "first\nsecond\nthird\n".as_bytes(),
        "a line is gone before others are written",
    );
}

// The clock is read as the question begins and at each count: at 100, 200, 300 and 400 milliseconds.
#[test]
fn rows_are_counted_on_a_line_of_their_own(rt: HostRuntime) {
    let screen = Screen::new(rt.alloc());
    let meter = RowMeter::new(Some(&screen));
    for count in [256, 200, 44] {
        meter.count(count);
    }
    meter.line().clear();
    let expected = "\rrows 456, rows a second 2280\u{1b}[K\r\u{1b}[K";
    be(&rt, screen.shows(expected), "rows are counted");
}

#[test]
fn nothing_is_shown_where_there_is_no_terminal(rt: HostRuntime) {
    let screen = Screen::new(rt.alloc());
    let none: Option<&Screen> = None;
    let meter = Meter::new(none);
    meter.count_octets(20);
    meter.count_records(1);
    meter.line().clear();
    be(
        &rt,
        screen.shows(""),
        "nothing is shown where there is no terminal",
    );
    be(
        &rt,
        screen.reads() == 0,
        "nothing is shown where there is no terminal",
    );
}
