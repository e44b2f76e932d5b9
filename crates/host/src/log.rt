// The steps of the program, as it prints them.
use board::Answer;
use std::fmt::Display;
use std::io;

// A program that holds a draft may not end where printing fails, so the log keeps the first failure up to its end.
#[derive(Drop)]
pub struct Log<'a> {
    rt: &'a HostRuntime,
    printed: io::Result<()>,
}

impl<'a> Log<'a> {
    pub fn new(rt: &'a HostRuntime) -> Self {
        Log {
            rt,
            printed: Ok(()),
        }
    }

    pub fn note<T: Display + Drop>(&mut self, text: T) {
        if self.printed.is_ok() {
            self.printed = println!(self.rt; "{text}");
        }
    }

    // A step with its answer. This host reads no map and attests nothing, so no answer has more than one word.
    pub fn step<T: Display + Drop, A: Into<Answer>>(&mut self, step: T, answer: A) {
        match answer.into() {
            Answer::Word(word) => self.note(format_args!("{step}: 0, word {word:08x}")),
            Answer::Declined(decline) => {
                let number = decline.number();
                self.note(format_args!("{step}: {number}, declined"));
            }
            Answer::Done | Answer::Mapped(_) | Answer::Attested(_) => {
                self.note(format_args!("{step}: 0"));
            }
        }
    }

    // What came of the printing.
    pub fn end(self) -> io::Result<()> {
        self.printed
    }
}
