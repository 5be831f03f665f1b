//! Why calls on the files of an archive fail, for a person who reads it.

use crate::error::Part;
use std::alloc::{AllocError, Global};
use std::io::ErrorKind;
use std::sync::OnceLock;
use std::{fmt, io};

/// What was asked of a file.
#[derive(Clone, Copy, Debug, PartialEq, Eq)]
pub enum Call {
    Open,
    Create,
    Look,
    Lock,
    Resize,
    Read,
    Write,
    Sync,
    Remove,
}

impl Call {
    /// Its name.
    pub fn name(self) -> &'static str {
        match self {
            Call::Open => "open",
            Call::Create => "create",
            Call::Look => "stat",
            Call::Lock => "lock",
            Call::Resize => "resize",
            Call::Read => "read",
            Call::Write => "write",
            Call::Sync => "sync",
            Call::Remove => "remove",
        }
    }

    /// Whether a disk is broken for good where this fails.
    fn breaks(self) -> bool {
        matches!(self, Call::Write | Call::Sync)
    }
}

impl fmt::Display for Call {
    fn fmt<W: fmt::Write>(&self, f: &mut fmt::Formatter<W>) -> fmt::Result {
        f.write_str(self.name())
    }
}

/// The reason that the system gives, or what was found instead of what the call should have done.
#[derive(Clone, Copy, Debug, PartialEq, Eq)]
pub enum Reason {
    /// The system's error of this number.
    System(i32),
    /// An error of this kind, which has no number.
    Kind(ErrorKind),
    /// The file is shorter than it is to be.
    Cut,
    /// The file is shared, so that it is only read.
    Shared,
}

impl Reason {
    /// The reason that an error has.
    pub fn of(error: &io::Error) -> Reason {
        match error.raw_os_error() {
            Some(number) => Reason::System(number),
            None => Reason::Kind(error.kind()),
        }
    }
}

impl fmt::Display for Reason {
    fn fmt<W: fmt::Write>(&self, f: &mut fmt::Formatter<W>) -> fmt::Result {
        match *self {
            Reason::System(number) => write!(f, "{}", io::Error::from_raw_os_error(number)),
            Reason::Kind(kind) => write!(f, "{kind}"),
            Reason::Cut => f.write_str("the file is shorter than it should be"),
            Reason::Shared => f.write_str("the file was opened for reading alone"),
        }
    }
}

/// A call on a file of an archive that failed, and why.
#[derive(Clone, Copy, Debug, PartialEq, Eq)]
pub struct Failure {
    pub part: Part,
    pub call: Call,
    pub reason: Reason,
}

impl fmt::Display for Failure {
    fn fmt<W: fmt::Write>(&self, f: &mut fmt::Formatter<W>) -> fmt::Result {
        write!(f, "{}: {}: {}", self.part, self.call, self.reason)
    }
}

/// Why calls on the files of a folder failed first. Threads may share it. It is text for a person: no clause states what is in it.
#[derive(Drop)]
pub struct Failures {
    folder: String,
    // a write or a sync, after which nothing is written any more
    breaking: OnceLock<Failure>,
    other: OnceLock<Failure>,
}

impl Failures {
    /// Of the files of this folder, of which none has failed yet.
    pub fn new(alloc: Global, folder: &str) -> Result<Failures, AllocError> {
        Ok(Failures {
            folder: String::from_str(alloc, folder)?,
            breaking: OnceLock::new(),
            other: OnceLock::new(),
        })
    }

    /// Of the same files, of which none has failed yet.
    pub fn renewed(&self, alloc: Global) -> Result<Failures, AllocError> {
        Failures::new(alloc, self.folder.as_str())
    }

    /// Keeps a failure, if it is the first of its sort. No memory is needed.
    pub(crate) fn note(&self, failure: Failure) {
        let kept = if failure.call.breaks() {
            &self.breaking
        } else {
            &self.other
        };
        let _ = kept.try_set(failure);
    }

    /// The first write or sync that failed; if none did, the first other call.
    pub fn first(&self) -> Option<Failure> {
        match (self.breaking.get(), self.other.get()) {
            (Some(failure), _) | (None, Some(failure)) => Some(*failure),
            (None, None) => None,
        }
    }

    /// The same with the name of the folder, as `a/pages.rha: write: No space left on device (os error 28)`. None if nothing failed,
    /// or there is no memory for the text.
    pub fn text(&self, alloc: Global) -> Option<String> {
        let failure = self.first()?;
        format!(in alloc; "{}/{failure}", self.folder).ok()
    }
}
