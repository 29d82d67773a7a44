//! Answers of cases, written part by part.

use std::alloc::{AllocError, Global};
use std::fmt::{Debug, Display};

/// An answer while it is written. It keeps the first thing that goes wrong, and what is written after that counts for nothing:
/// so whoever writes it goes on, and need not ask after each part.
#[derive(Drop)]
pub struct Answer {
    alloc: Global,
    text: String,
    is_settled: bool,
    is_refused: bool,
}

impl Answer {
    pub fn new(alloc: Global) -> Answer {
        Answer {
            alloc,
            text: String::new(alloc),
            is_settled: false,
            is_refused: false,
        }
    }

    pub fn alloc(&self) -> Global {
        self.alloc
    }

    /// What is written so far.
    pub fn text(&self) -> &str {
        self.text.as_str()
    }

    /// Whether it stays as it is, whatever is written.
    pub fn is_settled(&self) -> bool {
        self.is_settled
    }

    /// Whether memory was refused.
    pub fn is_refused(&self) -> bool {
        self.is_refused
    }

    /// Notes that memory was refused.
    pub fn refuse(&mut self) {
        self.is_refused = true;
    }

    /// Notes that memory was refused to a call, which has to leave things as they were.
    pub fn refuse_if(&mut self, is_unchanged: bool) {
        if is_unchanged {
            self.refuse();
        } else {
            self.settle("changed where memory was refused");
        }
    }

    /// Notes whether memory was refused.
    pub fn note(&mut self, done: Result<(), AllocError>) {
        self.is_refused = self.is_refused || done.is_err();
    }

    /// What was made, or where memory was refused the other.
    pub fn kept<T: Drop>(&mut self, made: Result<T, AllocError>, other: T) -> T {
        self.is_refused = self.is_refused || made.is_err();
        made.unwrap_or(other)
    }

    /// What the value prints.
    pub fn printed<T: Display>(&mut self, value: &T) -> String {
        let printed = value.to_string(self.alloc);
        self.kept(printed, String::new(self.alloc))
    }

    /// What was made; none where memory was refused.
    pub fn made<'a, T>(&mut self, made: &'a Result<T, AllocError>) -> Option<&'a T> {
        self.is_refused = self.is_refused || made.is_err();
        made.as_ref().ok()
    }

    /// What was found, if anything was; none where memory was refused.
    pub fn found<'a, T>(&mut self, found: &'a Result<Option<T>, AllocError>) -> Option<&'a T> {
        match found {
            Ok(found) => found.as_ref(),
            Err(_) => {
                self.refuse();
                None
            }
        }
    }

    pub fn push(&mut self, part: &str) {
        if !self.is_settled {
            let written = self.text.push_str(part);
            self.note(written);
        }
    }

    pub fn show<T: Display>(&mut self, value: &T) {
        if !self.is_settled {
            let written = write!(self.text, "{value}");
            self.note(written);
        }
    }

    pub fn debug<T: Debug>(&mut self, value: &T) {
        if !self.is_settled {
            let written = write!(self.text, "{value:?}");
            self.note(written);
        }
    }

    /// The value, or the word where there is none.
    pub fn show_or<T: Display>(&mut self, value: &Option<T>, word: &str) {
        match value {
            Some(value) => self.show(value),
            None => self.push(word),
        }
    }

    /// Begins an item of a list that is the whole answer.
    pub fn item(&mut self, separator: &str) {
        if !self.text.is_empty() {
            self.push(separator);
        }
    }

    /// Begins a line `LABEL: ..`.
    pub fn line(&mut self, label: &str) {
        self.item("\n");
        self.push(label);
        self.push(": ");
    }

    /// Begins the item at the index of a line `LABEL: ITEM + ITEM`; there is no line where there is no item.
    pub fn item_of_line(&mut self, label: &str, index: usize) {
        if index == 0 {
            self.line(label);
        } else {
            self.push(" + ");
        }
    }

    /// The word, where nothing is written.
    pub fn or_word(&mut self, word: &str) {
        if self.text.is_empty() {
            self.push(word);
        }
    }

    /// The words where they hold.
    pub fn push_if(&mut self, holds: bool, words: &str) {
        if holds {
            self.push(words);
        }
    }

    /// Answers this alone, whatever was written before and is written after.
    pub fn settle(&mut self, text: &str) {
        if !self.is_settled {
            self.text.clear();
            self.push(text);
            self.is_settled = true;
        }
    }

    /// Answers this error alone, whatever was written before and is written after.
    pub fn fail<T: Display>(&mut self, error: &T) {
        if !self.is_settled {
            self.text.clear();
            self.show(error);
            self.is_settled = true;
        }
    }

    /// The text of the case names no such thing, as `no such row`.
    pub fn no_such(&mut self, what: &str) {
        if !self.is_settled {
            self.text.clear();
            self.push("no such ");
            self.push(what);
            self.is_settled = true;
        }
    }

    /// The text, unless memory was refused.
    pub fn finish(self) -> Result<String, AllocError> {
        if self.is_refused {
            return Err(AllocError);
        }
        Ok(self.text)
    }
}
