//! How rows and events are written.

/// How a row is written, each as a line of its own.
#[derive(Clone, Copy, Debug, PartialEq, Eq)]
pub enum Form {
    /// As an answer has it.
    Lines,
    /// The same, with dates and with communities as texts, for a person.
    Human,
    /// As `bgpdump -m` prints a table.
    Bgpdump,
    /// As an object of JSON.
    Json,
}

impl Form {
    /// The form of a table that the word names.
    pub fn named(word: &str) -> Option<Form> {
        match word {
            "lines" => Some(Form::Lines),
            "bgpdump" => Some(Form::Bgpdump),
            "json" => Some(Form::Json),
            _ => None,
        }
    }

    /// Whether the lines of an answer come after the last row, and those of a refusal.
    pub(crate) fn has_end(self) -> bool {
        match self {
            Form::Lines | Form::Human => true,
            Form::Bgpdump | Form::Json => false,
        }
    }
}
