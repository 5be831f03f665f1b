//! What a batch of a feed may have.

/// The most admissions of a batch, 0 counting as 1, and the most octets: for each admission those of its encoding and 4
/// more.
#[derive(Clone, Copy, Debug, PartialEq, Eq)]
pub struct BatchLimits {
    pub records: usize,
    pub octets: usize,
}
