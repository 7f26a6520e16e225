//! Bodies of functions, one behind another ("Binary Format > Modules > Code Section").
ghost use Rattle.std.specs.Prelude.{◌≤◌, length, sum_by};
ghost use Rattle.wasm_writer.specs.Measuring.{size_with_count};

/// The bodies of functions as they are written.
#[derive(Drop)]
pub struct WrittenBodies {
    /// Their bytes, those of one behind those of another, each behind its size.
    pub bytes: Vec<u8>,
    /// How many bytes each has.
    pub lengths: Vec<usize>,
    ghost within: { sum_by size_with_count lengths.items ≤ length bytes.items },
}
