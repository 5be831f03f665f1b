//! Parameters of a query string, by name.

use crate::fault::Fault;
use percent_encoding::percent_decode;
use std::alloc::Global;

/// The text before the first `mark`, and the text after it; all of it and nothing, if there is none.
pub(crate) fn cut(text: &str, mark: char) -> (&str, &str) {
    match text.split_once(mark) {
        Some(parts) => parts,
        None => (text, ""),
    }
}

/// The value of the first parameter of this name, as it is written.
fn value_of<'a>(query: &'a str, name: &str) -> Option<&'a str> {
    for pair in query.split('&') {
        let (its, value) = cut(pair, '=');
        if its == name {
            return Some(value);
        }
    }
    None
}

/// Writes the value of a parameter, decoded. No octet of it may be a space, or one that isn't printed: so it is one word of a line.
pub(crate) fn write_value(
    alloc: Global,
    out: &mut String,
    query: &str,
    name: &str,
) -> Result<(), Fault> {
    let Some(written) = value_of(query, name) else {
        return Err(Fault::BadQuery);
    };
    let mut octets = Vec::new(alloc);
    percent_decode(written.as_bytes()).append_to(&mut octets)?;
    for &octet in &octets {
        if !matches!(octet, b'!'..=b'~') {
            return Err(Fault::BadQuery);
        }
        out.push(char::from(octet))?;
    }
    Ok(())
}

/// How many parameters there are.
pub(crate) fn parameters_in(query: &str) -> usize {
    let mut count = 0usize;
    for _ in query.split('&') {
        count = count.saturating_add(1);
    }
    count
}
