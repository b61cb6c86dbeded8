//! How far a long task is, in a line that is written over.

use std::io::Write;
use std::time::{Clock, Instant};

/// Where a long task tells how far it is.
pub trait Progress {
    /// Tells how much is done, and of how much where that is known.
    fn show(&mut self, done: u64, all: Option<u64>);

    /// Tells what is done before anything can be counted.
    fn say(&mut self, words: &str);

    /// Ends the line.
    fn end(&mut self);
}

/// Tells nothing.
#[derive(Clone, Copy, Debug)]
pub struct Untold;

impl Progress for Untold {
    fn show(&mut self, _done: u64, _all: Option<u64>) {}

    fn say(&mut self, _words: &str) {}

    fn end(&mut self) {}
}

/// A line on a terminal, with the rate and the time that is left. Where it cannot be written nobody reads it, and the task goes on.
#[derive(Drop)]
pub struct ProgressLine<'a, W, C> {
    writer: W,
    // Whether somebody reads it.
    is_shown: bool,
    // What is counted.
    unit: &'static str,
    clock: &'a C,
    // When the first count was told, since one fell, and the last one.
    begun: Option<Instant>,
    last: u64,
    // Whether a count stands in the line.
    has_count: bool,
}

impl<'a, W: Write, C: Clock> ProgressLine<'a, W, C> {
    /// Nothing is told. `unit` is what is counted, as `entries`; with `is_shown` false nothing is ever told.
    pub fn new(
        writer: W,
        is_shown: bool,
        unit: &'static str,
        clock: &'a C,
    ) -> ProgressLine<'a, W, C> {
        ProgressLine {
            writer,
            is_shown,
            unit,
            clock,
            begun: None,
            last: 0,
            has_count: false,
        }
    }

    /// What was written, where it can be asked for.
    pub fn into_writer(self) -> W {
        self.writer
    }

    /// Whether a count stands in the line, which is then to be ended.
    pub fn has_count(&self) -> bool {
        self.has_count
    }

    // The seconds since the first count, at least one.
    fn seconds(&mut self) -> Option<u64> {
        match &self.begun {
            Some(begun) => match begun.elapsed(self.clock) {
                Ok(time) => Some(time.as_secs().max(1)),
                Err(_) => None,
            },
            None => {
                self.begun = Instant::now(self.clock).ok();
                None
            }
        }
    }

    fn show_count(&mut self, done: u64, all: Option<u64>) {
        let unit = self.unit;
        if done < self.last {
            // (another file, or the same once more)
            self.begun = None;
        }
        self.last = done;
        let _ = match all {
            Some(all) => write!(self.writer, "\r{done} of {all} {unit}"),
            None => write!(self.writer, "\r{done} {unit}"),
        };
        let Some(seconds) = self.seconds() else {
            return;
        };
        let rate = done.checked_div(seconds).unwrap_or(done);
        let _ = write!(self.writer, ", {rate} a second");
        if let Some(all) = all {
            if done < all && rate > 0 {
                let left = (all - done) / rate;
                let _ = write!(self.writer, ", {left} s left");
            }
        }
    }
}

impl<W: Write, C: Clock> Progress for ProgressLine<'_, W, C> {
    fn show(&mut self, done: u64, all: Option<u64>) {
        if self.is_shown {
            self.show_count(done, all);
            // (what is left of a longer line is erased)
            let _ = self.writer.write_all(b"\x1b[K");
            let _ = self.writer.flush();
            self.has_count = true;
        }
    }

    fn say(&mut self, words: &str) {
        if self.is_shown {
            let _ = writeln!(self.writer, "{words}");
        }
    }

    fn end(&mut self) {
        if self.is_shown && self.has_count {
            let _ = writeln!(self.writer);
            self.has_count = false;
        }
    }
}
