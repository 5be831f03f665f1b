//! What the words of a request line are, and what they look like.

use route_text::{read_address, read_moment, read_number, read_prefix};
use service::LAST_COLLECTOR;
use std::fmt;

/// What a word of a request line has to be.
#[derive(Clone, Copy, Debug, PartialEq, Eq)]
pub enum Form {
    /// The first word.
    Command,
    /// What is asked of a moment.
    Select,
    Moment,
    Collector,
    Address,
    AsNumber,
    Prefix,
    Number,
    /// `after`, or no word more.
    After,
    /// `skip`, or no word more.
    Skip,
    /// No word more.
    End,
}

impl Form {
    /// Whether the word has this form, if it isn't a word of the grammar itself.
    pub(crate) fn fits(self, word: &str) -> bool {
        match self {
            Form::Moment => read_moment(word).is_ok(),
            Form::Collector => read_number(word, LAST_COLLECTOR).is_ok(),
            Form::Address => read_address(word).is_ok(),
            Form::AsNumber => read_number(word, u64::from(u32::MAX)).is_ok(),
            Form::Prefix => read_prefix(word).is_ok(),
            Form::Number => read_number(word, u64::MAX).is_ok(),
            Form::Command | Form::Select | Form::After | Form::Skip | Form::End => false,
        }
    }

    /// In words.
    fn words(self) -> &'static str {
        match self {
            Form::Command => "a question: at, history, changed, watermark or durable",
            Form::Select => "what is asked of a moment: route, prefix, cover, peer or all",
            Form::Moment =>
                "a moment: seconds since 1970, 0 to 4294967295.999999, or a timestamp as 2024-01-01T00:15:00Z",
            Form::Collector => "a collector's number, 0 to 15",
            Form::Address => "an address, as 192.0.2.1 or 2001:db8::1",
            Form::AsNumber => "an AS number, 0 to 4294967295, without AS before it",
            Form::Prefix =>
                "a prefix: an address, a slash and a length, as 10.0.0.0/8 or 2001:db8::/32",
            Form::Number => "a number, 0 to 18446744073709551615",
            Form::After => "after, or the end of the line",
            Form::Skip => "skip, or the end of the line",
            Form::End => "the end of the line",
        }
    }
}

impl fmt::Display for Form {
    fn fmt<W: fmt::Write>(&self, f: &mut fmt::Formatter<W>) -> fmt::Result {
        f.write_str(self.words())
    }
}
