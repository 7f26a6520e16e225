//! What is told of the bytes that emission answers.

use crate::page::Page;
use std::alloc::{AllocError, Global};
use std::result;
use walrus::{Error, Result};

fn add_byte(alloc: Global, text: &mut String, byte: u8) -> result::Result<(), AllocError> {
    let word = format!(in alloc; "{byte:02X}")?;
    if !text.is_empty() {
        text.push_str(" ")?;
    }
    text.push_str(&word)
}

fn hexadecimal(alloc: Global, bytes: &[u8]) -> result::Result<String, AllocError> {
    let mut text = String::new(alloc);
    for byte in bytes {
        add_byte(alloc, &mut text, *byte)?;
    }
    Ok(text)
}

fn tell_bytes(page: &mut Page, bytes: &[u8]) -> Result<()> {
    let text = hexadecimal(page.alloc(), bytes)?;
    page.line("written", &text)
}

/// Tells the bytes that were written, or why they weren't.
pub fn tell_written(page: &mut Page, answer: Result<Vec<u8>>) -> Result<()> {
    match answer {
        Ok(bytes) => tell_bytes(page, &bytes),
        Err(refusal) => page.line("written", refusal.text()),
    }
}

/// Tells whether writing was refused for one of two reasons, both of which stand: that an item isn't live, or that a form can't be written.
pub fn tell_either(page: &mut Page, answer: Result<Vec<u8>>) -> Result<()> {
    let is_refused = matches!(answer, Err(Error::DeadItem | Error::NotWritable));
    page.holds("not written for one of the two reasons", is_refused)
}

// How many bytes stand before the sections.
const HEADER: usize = 8;

// Tells a section, whose size takes one byte: its number, and how many bytes it has with this and its size.
fn tell_section(page: &mut Page, number: u8, size: u8) -> Result<()> {
    let what = format!(in page.alloc(); "section {number}")?;
    page.number(&what, usize::from(size) + 2)
}

fn tell_sections(page: &mut Page, bytes: &[u8]) -> Result<()> {
    let mut rest = bytes.get(HEADER..).unwrap_or(&[]);
    for _turn in 0..bytes.len() {
        match rest {
            [number, size, behind @ ..] => {
                tell_section(page, *number, *size)?;
                rest = behind.get(usize::from(*size)..).unwrap_or(&[]);
            }
            _ => break,
        }
    }
    Ok(())
}

fn tell_all(page: &mut Page, bytes: &[u8]) -> Result<()> {
    page.number("bytes", bytes.len())?;
    tell_sections(page, bytes)
}

/// Tells how long what was written is, and each of its sections, where the size of none takes more than a byte.
pub fn tell_lengths(page: &mut Page, answer: Result<Vec<u8>>) -> Result<()> {
    match answer {
        Ok(bytes) => tell_all(page, &bytes),
        Err(refusal) => page.line("written", refusal.text()),
    }
}
