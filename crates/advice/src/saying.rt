//! A line for a person.

ghost use Rattle.service.specs.Outputs.{Reports};
ghost use Rattle.advice.specs.Advice.{MaySay, advice_line};

use service::Output;
use std::alloc::Global;
use std::fmt::Display;
use std::io::Write;

/// Writes a line with these words.
fn write_line<E: Write>(err: &mut Output<E>, words: &str)
    ensures line { Reports err.old err.new (advice_line words.now) }
{
    err.text("rha: ");
    err.text(words);
    err.text("\n");
}

/// Prints advice for a person, on a line of its own: `rha: WORDS`. If there is no memory for the words, nothing is printed.
pub fn advise<D: Display, E: Write>(alloc: Global, words: &D, err: &mut Output<E>)
    ensures said { MaySay err.old err.new }
{
    if let Ok(text) = format!(in alloc; "{words}") {
        write_line(err, text.as_str());
    }
}
