//! Octets that are put together.

use std::alloc::Global;
use test_octets::octets;

/// Octets that are put together, and whether there was memory for all of them.
#[derive(Drop)]
pub(crate) struct Gathered {
    pub(crate) alloc: Global,
    pub(crate) octets: Vec<u8>,
    pub(crate) is_whole: bool,
}

/// A text, and how often it stands.
#[derive(Drop)]
pub(crate) struct Times<'a> {
    pub(crate) count: u16,
    pub(crate) of: &'a str,
}

impl<'a> Times<'a> {
    /// The number before a sign, and the text after it.
    pub(crate) fn read(text: &'a str, sign: &str) -> Option<Times<'a>> {
        let (count, of) = text.split_once(sign)?;
        let count = count.parse::<u16>().ok()?;
        Some(Times { count, of })
    }
}

impl Gathered {
    pub(crate) fn new(alloc: Global) -> Gathered {
        Gathered {
            alloc,
            octets: Vec::new(alloc),
            is_whole: true,
        }
    }

    pub(crate) fn add(&mut self, octets: &[u8]) {
        self.is_whole &= self.octets.extend_from_slice(octets).is_ok();
    }

    /// Adds a text.
    pub(crate) fn add_text(&mut self, text: &str) {
        self.add(text.as_bytes());
    }

    /// Adds four hexadecimal digits, those of a number.
    fn add_digits(&mut self, number: u16) {
        match format!(in self.alloc; "{number:04X}") {
            Ok(text) => self.add_text(text.as_str()),
            Err(_) => self.is_whole = false,
        }
    }

    /// Adds a text once for each number from 1 to a count, whose digits take the place of `#`.
    fn add_numbered(&mut self, times: &Times<'_>) {
        let Some((front, rest)) = times.of.split_once('#') else {
            self.is_whole = false;
            return;
        };
        for number in 0..times.count {
            self.add_text(front);
            self.add_digits(number.saturating_add(1));
            self.add_text(rest);
        }
    }

    fn add_times(&mut self, text: &str) {
        if let Some(times) = Times::read(text, " each ") {
            return self.add_numbered(&times);
        }
        let Some(times) = Times::read(text, " x ") else {
            self.is_whole = false;
            return;
        };
        for _ in 0..times.count {
            self.add_text(times.of);
        }
    }

    /// Adds a text in which `<3 x ab>` stands for `ababab`, and `<2 each ab#>` for `ab0001ab0002`.
    pub(crate) fn add_written_out(&mut self, text: &str) {
        for piece in text.split('>') {
            match piece.split_once('<') {
                Some((before, times)) => {
                    self.add_text(before);
                    self.add_times(times);
                }
                None => self.add_text(piece),
            }
        }
    }

    /// The octets that hexadecimal digits stand for, which are written as such a text.
    pub(crate) fn read(&mut self, text: &str) -> Vec<u8> {
        match octets_of(self.alloc, text) {
            Some(octets) => octets,
            None => {
                self.is_whole = false;
                Vec::new(self.alloc)
            }
        }
    }

    /// Adds the octets that hexadecimal digits stand for.
    pub(crate) fn add_hex(&mut self, text: &str) {
        let octets = self.read(text);
        self.add(&octets);
    }

    /// Adds the decimal digits of a number.
    pub(crate) fn add_number(&mut self, number: u16) {
        match format!(in self.alloc; "{number}") {
            Ok(text) => self.add_text(text.as_str()),
            Err(_) => self.is_whole = false,
        }
    }

    /// The octets, where there was memory for all.
    pub(crate) fn end(self) -> Option<Vec<u8>> {
        if self.is_whole {
            Some(self.octets)
        } else {
            None
        }
    }
}

/// The octets that hexadecimal digits stand for, in which `<3 x AB>` stands for `ABABAB`.
pub(crate) fn octets_of(alloc: Global, text: &str) -> Option<Vec<u8>> {
    let mut digits = Gathered::new(alloc);
    digits.add_written_out(text);
    let digits = digits.end()?;
    octets(alloc, str::from_utf8(&digits).ok()?).ok()
}
