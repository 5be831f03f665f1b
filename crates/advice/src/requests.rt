//! Where a line stops being a request.

use crate::forms::Form;
use std::fmt;
use std::str::Split;

/// The first word of a line that isn't what it has to be there; none if the line ends there.
#[derive(Clone, Copy, Debug, PartialEq, Eq)]
pub struct Misread<'a> {
    pub word: Option<&'a str>,
    pub expected: Form,
}

impl fmt::Display for Misread<'_> {
    fn fmt<W: fmt::Write>(&self, f: &mut fmt::Formatter<W>) -> fmt::Result {
        match self.word {
            Some("") => f.write_str("two words are separated by exactly one space")?,
            Some(word) => write!(f, "\"{word}\" isn't understood")?,
            None => f.write_str("the line ends too early")?,
        }
        write!(f, "; expected here: {}", self.expected)
    }
}

/// What stands after a word of the grammar: words of these forms, and then one of the grammar.
#[derive(Clone, Copy)]
struct Part {
    forms: &'static [Form],
    next: Form,
}

const PEER: [Form; 3] = [Form::Collector, Form::Address, Form::AsNumber];

const SPOT: [Form; 4] = [Form::Collector, Form::Address, Form::AsNumber, Form::Prefix];

const PAST: [Form; 6] = [
    Form::Moment,
    Form::Moment,
    Form::Collector,
    Form::Address,
    Form::AsNumber,
    Form::Prefix,
];

const SPAN: [Form; 4] = [Form::Moment, Form::Moment, Form::Prefix, Form::Prefix];

/// How many words of the grammar a line has at most: `at`, what is asked, `after`.
const GRAMMAR_WORDS: usize = 3;

/// What stands after this word, if a line may begin with it.
fn after_command(word: &str) -> Option<Part> {
    match word {
        "at" => Some(Part {
            forms: &[Form::Moment],
            next: Form::Select,
        }),
        "history" => Some(Part {
            forms: &PAST,
            next: Form::Skip,
        }),
        "changed" => Some(Part {
            forms: &SPAN,
            next: Form::After,
        }),
        "watermark" => Some(Part {
            forms: &[],
            next: Form::End,
        }),
        "durable" => Some(Part {
            forms: &[Form::Collector],
            next: Form::End,
        }),
        _ => None,
    }
}

/// What stands after this word, if it may say what is asked of a moment.
fn after_select(word: &str) -> Option<Part> {
    match word {
        "route" => Some(Part {
            forms: &SPOT,
            next: Form::End,
        }),
        "prefix" => Some(Part {
            forms: &[Form::Prefix],
            next: Form::After,
        }),
        "cover" => Some(Part {
            forms: &[Form::Address],
            next: Form::After,
        }),
        "peer" => Some(Part {
            forms: &PEER,
            next: Form::After,
        }),
        "all" => Some(Part {
            forms: &[],
            next: Form::After,
        }),
        _ => None,
    }
}

/// What stands after this word of the grammar, if one of this form may stand there.
fn part_after(form: Form, word: &str) -> Option<Part> {
    match (form, word) {
        (Form::Command, _) => after_command(word),
        (Form::Select, _) => after_select(word),
        (Form::After, "after") => Some(Part {
            forms: &SPOT,
            next: Form::End,
        }),
        (Form::Skip, "skip") => Some(Part {
            forms: &[Form::Number],
            next: Form::End,
        }),
        _ => None,
    }
}

/// The first of the next words that doesn't have the form that it has to have.
fn misfit<'a>(words: &mut Split<'a, char>, forms: &[Form]) -> Option<Misread<'a>> {
    for expected in forms {
        let word = words.next();
        if !word.is_some_and(|it| expected.fits(it)) {
            return Some(Misread {
                word,
                expected: *expected,
            });
        }
    }
    None
}

/// The first word of the line that keeps it from being a request; None if it is one.
pub fn first_misread(line: &str) -> Option<Misread<'_>> {
    let mut words = line.split(' ');
    let mut expected = Form::Command;
    for _ in 0..GRAMMAR_WORDS {
        let Some(word) = words.next() else {
            return match expected {
                Form::Command | Form::Select => Some(Misread {
                    word: None,
                    expected,
                }),
                _ => None,
            };
        };
        let Some(part) = part_after(expected, word) else {
            return Some(Misread {
                word: Some(word),
                expected,
            });
        };
        if let Some(it) = misfit(&mut words, part.forms) {
            return Some(it);
        }
        expected = part.next;
    }
    words.next().map(|word| Misread {
        word: Some(word),
        expected,
    })
}
