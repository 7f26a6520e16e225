//! Tables of modules that the program is run on: what goes in and what has to come out, byte for byte.

use crate::program::{ended, is_invalid, run, words_of};
use std::alloc::Global;
use std::test::Fail;
use test_support::{bytes_of, demand, demand_bytes};

/// Fails where the program makes something else of this input than this output, and tells the first byte that differs.
pub fn demand_comes_out(
    alloc: Global,
    words: &[String],
    input: &str,
    output: &str,
) -> Result<(), Fail> {
    let bytes = bytes_of(alloc, input)?;
    let outcome = run(alloc, words, &bytes);
    demand(ended(&outcome, 0, ""), input)?;
    demand_bytes(alloc, &outcome.output, output, input)
}

/// Fails where an input comes to something else than its output.
pub fn each_comes_out(alloc: Global, words: &[String], rows: &[(&str, &str)]) -> Result<(), Fail> {
    for (input, output) in rows {
        demand_comes_out(alloc, words, input, output)?;
    }
    Ok(())
}

/// The same by these words, with a comma between them.
pub fn each_comes_out_by(alloc: Global, text: &str, rows: &[(&str, &str)]) -> Result<(), Fail> {
    let words = words_of(alloc, text)?;
    each_comes_out(alloc, &words, rows)
}

/// Fails where a module comes to something else than itself by these words, with a comma between them.
pub fn each_stays_by(alloc: Global, text: &str, rows: &[&str]) -> Result<(), Fail> {
    let words = words_of(alloc, text)?;
    for row in rows {
        demand_comes_out(alloc, &words, row, row)?;
    }
    Ok(())
}

/// Fails where an input isn't refused as invalid by these words, with a comma between them.
pub fn each_is_refused_by(alloc: Global, text: &str, rows: &[&str]) -> Result<(), Fail> {
    let words = words_of(alloc, text)?;
    for input in rows {
        let bytes = bytes_of(alloc, input)?;
        demand(is_invalid(&run(alloc, &words, &bytes)), input)?;
    }
    Ok(())
}
