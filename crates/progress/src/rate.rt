//! How many of something there are a second.

/// How many a second, of as many in this time; 0 in the first millisecond.
pub(crate) fn rate(count: u64, milliseconds: u64) -> u64 {
    let milliseconds = milliseconds.max(1);
    let whole = (count / milliseconds).saturating_mul(1000);
    whole.saturating_add((count % milliseconds).saturating_mul(1000) / milliseconds)
}
