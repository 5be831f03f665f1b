//! A load that has ended.

use crate::packed::Packing;
use archive_facts::Sizes;
use route_model::Mark;
use service::LoadReport;

/// A load that has ended.
#[derive(Clone, Copy, Debug)]
pub struct Loaded<'a> {
    pub file: &'a str,
    /// What the file is, if it isn't MRT.
    pub packing: Option<Packing>,
    pub collector: u8,
    /// Whether entries without a next hop were left out.
    pub lose_entries: bool,
    /// The mark that was to be set after it.
    pub mark: Option<Mark>,
    pub report: LoadReport,
    /// None if they can't be read.
    pub sizes: Option<Sizes>,
}
