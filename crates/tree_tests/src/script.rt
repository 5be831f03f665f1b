//! Texts that tests play: lines of numbers and capital letters. Whatever else stands in a line only parts numbers, and a `;` ends a line
//! too.

use crate::answers::{Answer, NOTHING, set};
use crate::octets::{add, add_key, add_number};
use std::alloc::Global;

/// The end of a line among the numbers of a text. A letter is such a number too, below 2^64 - 1 by its octet.
pub(crate) const END: u64 = u64::MAX - 10;

/// The numbers of a text, and how many were taken.
#[derive(Drop)]
pub(crate) struct Script {
    numbers: Vec<u64>,
    taken: usize,
}

/// Reads an octet of a text, after the digits of a number, if it follows some. It returns the number to which more digits may come.
fn read(numbers: &mut Vec<u64>, number: Option<u64>, octet: u8) -> Option<Option<u64>> {
    if octet.is_ascii_digit() {
        let digit = u64::from(octet.wrapping_sub(b'0'));
        return Some(Some(number.unwrap_or(0).wrapping_mul(10).wrapping_add(digit)));
    }
    if let Some(number) = number {
        numbers.push(number).ok()?;
    }
    if octet == b'\n' || octet == b';' {
        numbers.push(END).ok()?;
    } else if octet.is_ascii_uppercase() {
        numbers.push(!u64::from(octet)).ok()?;
    }
    Some(None)
}

impl Script {
    /// The script that a text is, whose last line ends like the others.
    pub(crate) fn of(alloc: Global, text: &str) -> Option<Script> {
        let mut numbers = Vec::new(alloc);
        let mut number = None;
        for octet in text.as_bytes() {
            number = read(&mut numbers, number, *octet)?;
        }
        Some(Script { numbers, taken: 0 })
    }

    /// Whether all was taken.
    pub(crate) fn is_done(&self) -> bool {
        self.taken >= self.numbers.len()
    }

    /// The next number, letter or end.
    pub(crate) fn take(&mut self) -> u64 {
        let number = self.numbers.get(self.taken).copied().unwrap_or(END);
        self.taken = self.taken.saturating_add(1);
        number
    }

    /// Whether a line ends here: its end was the last that was taken, or is the next.
    pub(crate) fn ends_line(&mut self) -> bool {
        let last = self.taken.saturating_sub(1);
        self.numbers.get(last).copied() == Some(END) || self.take() == END
    }

    /// The next number, where it is below 256.
    pub(crate) fn take_octet(&mut self) -> u8 {
        u8::try_from(self.take()).unwrap_or(0)
    }

    /// What a lookup is to return: the numbers up to the line's end, of which letters say what they are.
    pub(crate) fn take_answer(&mut self) -> Answer {
        let mut answer = NOTHING;
        let mut place = 0usize;
        for _ in 0..64u32 {
            let number = self.take();
            if number == END {
                return answer;
            }
            place = self.put(&mut answer, place, number);
        }
        answer
    }

    /// Puts a number into an answer, or what a letter says. It returns the place of the next one.
    fn put(&mut self, answer: &mut Answer, place: usize, number: u64) -> usize {
        match number {
            BAD => set(answer, 0, 1),
            DAMAGED => set(answer, 0, 2),
            IN => 2,
            UNTIL => 5,
            KEY => set(answer, 8, 1),
            PAST => set(answer, 8, 2),
            ENDS => set(answer, 8, 3),
            VERSION => place.max(9),
            NONE => place.saturating_add(1),
            OCTET => {
                let octet = self.take();
                set(answer, place, octet.saturating_add(256))
            }
            _ => set(answer, place, number),
        }
    }

    /// The octets that a line says.
    pub(crate) fn take_octets(&mut self, alloc: Global) -> Option<Vec<u8>> {
        let mut octets = Vec::new(alloc);
        for _ in 0..self.numbers.len() {
            let number = self.take();
            if number == END {
                return Some(octets);
            }
            self.add(&mut octets, number)?;
        }
        None
    }

    /// Adds an octet, or those that a letter stands for.
    fn add(&mut self, octets: &mut Vec<u8>, number: u64) -> Option<()> {
        match number {
            KEY => add_key(octets, u16::try_from(self.take()).ok()?, 38),
            STAMP => {
                add_number(octets, self.take())?;
                add_number(octets, self.take())
            }
            NUMBER => add_number(octets, self.take()),
            FULL => add(octets, 255, self.take() as usize),
            ZEROS => add(octets, 0, self.take() as usize),
            _ => add(octets, u8::try_from(number).ok()?, 1),
        }
    }
}

// The letters of an answer. A page that is bad, and a block that is damaged, with its number.
const BAD: u64 = u64::MAX - 66;

const DAMAGED: u64 = u64::MAX - 68;

// A block, and of its place the start, the end and the highest key; the time up to which versions are reported.
const IN: u64 = u64::MAX - 73;

const UNTIL: u64 = u64::MAX - 85;

// The next key with its stamp and value, the key below which there is none, and no key.
const KEY: u64 = u64::MAX - 75;

const PAST: u64 = u64::MAX - 80;

const ENDS: u64 = u64::MAX - 69;

// A version, by its stamp and value; a value of one octet; no value.
const VERSION: u64 = u64::MAX - 86;

const OCTET: u64 = u64::MAX - 79;

const NONE: u64 = u64::MAX - 78;

// The letters of octets: a key by its last octet, a stamp, a number of eight octets, as many octets of 255, and of 0.
const STAMP: u64 = u64::MAX - 83;

const NUMBER: u64 = u64::MAX - 78;

const FULL: u64 = u64::MAX - 70;

const ZEROS: u64 = u64::MAX - 90;
