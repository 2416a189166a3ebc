//! Where the lines of a station go, and the texts of its record.

use station_lines::LineSink;
use std::io::{self, ErrorKind, Write};

/// Prints each line of a text behind a word.
pub fn print_lines(rt: &impl Print, word: &str, text: &[u8]) {
    let Ok(text) = str::from_utf8(text) else {
        return;
    };
    for line in text.lines() {
        let _ = println!(rt; "{word} {line}");
    }
}

/// An output, whose lines are printed behind a word.
#[derive(Drop)]
pub struct PrintingLines<R> {
    pub rt: R,
    pub word: &'static str,
}

impl<R: Print> LineSink for PrintingLines<R> {
    fn line(&mut self, text: &[u8]) {
        print_lines(&self.rt, self.word, text);
    }

    fn state(&mut self, text: &[u8]) -> bool {
        print_lines(&self.rt, self.word, text);
        true
    }
}

/// A record with room for some texts.
#[derive(Drop)]
pub struct PrintingRecord<R> {
    pub rt: R,
    pub room: u64,
}

impl<R: Print> Write for PrintingRecord<R> {
    fn write(&mut self, text: &[u8]) -> io::Result<usize> {
        if self.room == 0 {
            return Err(io::Error::from(ErrorKind::WriteZero));
        }
        self.room -= 1;
        print_lines(&self.rt, "record", text);
        Ok(text.len())
    }

    fn flush(&mut self) -> io::Result<()> {
        Ok(())
    }
}
