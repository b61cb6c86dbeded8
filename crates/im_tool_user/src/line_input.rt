//! Lines of an input, and whether the next one is there already.

use std::io;
use std::io::{BufRead, BufReader, Read};

/// A reader of lines that knows whether a whole line waits in it, so that nothing has to be waited for to read it.
pub trait LineInput {
    /// Whether the next line is there.
    fn has_line(&self) -> bool;

    /// Reads a line after what the buffer has, with its newline. It answers false at the end of the input.
    fn next_line(&mut self, line: &mut Vec<u8>) -> io::Result<bool>;
}

impl<R: Read + Drop> LineInput for BufReader<R> {
    fn has_line(&self) -> bool {
        self.buffer().contains(&b'\n')
    }

    fn next_line(&mut self, line: &mut Vec<u8>) -> io::Result<bool> {
        Ok(self.read_until(b'\n', line)? > 0)
    }
}

/// The line without its newline, and without the carriage return in front of it.
pub fn without_newline(line: &[u8]) -> &[u8] {
    match line {
        [front @ .., b'\r', b'\n'] => front,
        [front @ .., b'\n'] => front,
        whole => whole,
    }
}
