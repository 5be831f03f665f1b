//! The words of a board.

/// A word of a board.
#[derive(Clone, Copy, Debug, PartialEq, Eq)]
pub enum Word {
    /// The settled watermark, in microseconds since 1970: a question of an earlier moment is answered.
    Watermark,
    /// How many admissions of this collector are durable.
    Durable(u8),
}

impl Word {
    ghost use Rattle.std.specs.Prelude.{◌≡◌, ◌<◌, ◌≤◌, ◌+◌};
    ghost use Rattle.board.specs.Words.{place_of};

    // Its place among the words.
    pub(crate) fn place(self) -> usize
        ensures { result ≡ place_of self }
    {
        match self {
            Word::Watermark => 0,
            Word::Durable(collector) => usize::from(collector) + 1,
        }
    }
}
