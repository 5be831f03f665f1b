//! Where the line at the front of some octets ends.

ghost use Rattle.std.specs.Prelude.{◌<◌, ◌≤◌, length, take, IfSome, IfNone};
ghost use Rattle.std.specs.Str.Lines.{StripsCarriageReturn};
ghost use Rattle.line_reader.specs.Lines.{HasNoEnd};
ghost use Rattle.line_reader.specs.inner.Ends.{EndsAt};

/// How many octets a line has without its end, and with it.
#[derive(Clone, Copy)]
pub(crate) struct LineEnd {
    pub(crate) text: usize,
    pub(crate) whole: usize,
}

/// How many octets the line has that is written so, before its line feed.
fn text_len(written: &[u8]) -> usize
    ensures text { StripsCarriageReturn written.now (take result written.now) }
    ensures within { result ≤ length written.now }
{
    match written.split_last() {
        Some((b'\r', text)) => text.len(),
        _ => written.len(),
    }
}

/// Where the line at the front of the octets ends, if a line feed is among them.
pub(crate) fn line_end(octets: &[u8]) -> Option<LineEnd>
    requires few { length octets.now ≤ 4096 }
    ensures found { IfSome result (EndsAt octets.now) }
    ensures none { IfNone result (HasNoEnd octets.now) }
{
    let at = octets.iter().position(|octet| *octet == b'\n')?;
    Some(LineEnd {
        text: text_len(&octets[..at]),
        whole: at + 1,
    })
}
