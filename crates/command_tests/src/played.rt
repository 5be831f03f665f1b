//! How commands ended.

/// The exit status of a load, and of a question after it.
#[derive(Clone, Copy, Debug, PartialEq, Eq)]
pub struct Filled {
    pub loaded: u8,
    pub answered: u8,
}

/// The exit status of each command.
#[derive(Clone, Copy, Debug, PartialEq, Eq)]
pub struct Played {
    pub created: u8,
    pub filled: Filled,
}
