//! What scenes tell: a line for each answer, behind what was asked.

use std::alloc::{AllocError, Global};
use std::result;
use walrus::Result;

/// The lines that a scene tells.
#[derive(Drop)]
pub struct Page {
    alloc: Global,
    text: String,
}

fn add_line(text: &mut String, what: &str, answer: &str) -> result::Result<(), AllocError> {
    text.push_str("  ")?;
    text.push_str(what)?;
    text.push_str(": ")?;
    text.push_str(answer)?;
    text.push_str("\n")
}

impl Page {
    /// No lines yet.
    pub fn new(alloc: Global) -> Page {
        Page {
            alloc,
            text: String::new(alloc),
        }
    }

    /// Where scenes take their memory.
    pub fn alloc(&self) -> Global {
        self.alloc
    }

    /// The lines.
    pub fn text(&self) -> &str {
        &self.text
    }

    /// Tells this answer.
    pub fn line(&mut self, what: &str, answer: &str) -> Result<()> {
        add_line(&mut self.text, what, answer)?;
        Ok(())
    }

    /// Tells a number.
    pub fn number(&mut self, what: &str, number: usize) -> Result<()> {
        let answer = format!(in self.alloc; "{number}")?;
        self.line(what, &answer)
    }

    /// Tells whether something holds.
    pub fn holds(&mut self, what: &str, holds: bool) -> Result<()> {
        self.line(what, if holds { "yes" } else { "no" })
    }

    /// Tells how a call ended: that it was done, or why it was refused.
    pub fn ended<T: Drop>(&mut self, what: &str, answer: Result<T>) -> Result<()> {
        match answer {
            Ok(_) => self.line(what, "done"),
            Err(refusal) => self.line(what, refusal.text()),
        }
    }
}
