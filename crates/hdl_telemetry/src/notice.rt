//! Lines of a server on standard error, each said once, by a thread of its own.

use std::alloc::{AllocError, Global};
use std::sync::atomic::AtomicBool;
use std::sync::atomic::Ordering::SeqCst;

/// A line that is printed once. Raising it waits for nothing: a thread of its own prints it.
#[derive(Drop)]
pub struct Notice {
    line: String,
    is_raised: AtomicBool,
    is_printed: AtomicBool,
}

impl Notice {
    /// A notice of these words, which have no LF.
    pub fn new(alloc: Global, words: &str) -> Result<Notice, AllocError> {
        Ok(Notice {
            line: format!(in alloc; "{words}\n")?,
            is_raised: AtomicBool::new(false),
            is_printed: AtomicBool::new(false),
        })
    }

    /// Raises the notice: its line is to be printed once.
    pub fn raise(&self) {
        self.is_raised.store(true, SeqCst);
    }

    /// Whether it was raised.
    pub fn is_raised(&self) -> bool {
        self.is_raised.load(SeqCst)
    }

    /// Whether it was raised, and not printed yet.
    pub fn is_due(&self) -> bool {
        self.is_raised() && !self.is_printed.load(SeqCst)
    }

    /// Says it on standard error by one call, if it is due. One thread alone does.
    pub fn print_if_due<R: Eprint>(&self, rt: &R) {
        if self.is_due() {
            let line = self.line.as_str();
            let _ = eprint!(rt; "{line}");
            self.is_printed.store(true, SeqCst);
        }
    }
}
