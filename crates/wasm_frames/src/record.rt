//! The records that a module's bytes are read to and written from.

use wasm_entries::{
    RawData, RawElement, RawExport, RawGlobal, RawGroup, RawImport, RawLimits, RawTable,
};

/// A function's body: its bytes (its size not among them), and the place of the first of them in the input
/// (Binary Format > Modules > Code Section).
#[derive(Clone, Copy, Debug, PartialEq, Eq)]
pub struct RawBody<'a> {
    pub start: usize,
    pub bytes: &'a [u8],
}

/// A custom section: its name, and the bytes behind that (Binary Format > Modules > Custom Section).
#[derive(Clone, Copy, Debug, PartialEq, Eq)]
pub struct RawCustom<'a> {
    pub name: &'a str,
    pub bytes: &'a [u8],
}

/// What the sections of a module hold, and the ids of those that aren't custom as they stand. The entries of a section
/// that stands twice follow those of the earlier one (Binary Format > Modules).
#[derive(Drop)]
pub struct Raw<'a> {
    pub order: Vec<u8>,
    pub types: Vec<RawGroup>,
    pub imports: Vec<RawImport<'a>>,
    pub functions: Vec<u32>,
    pub tables: Vec<RawTable>,
    pub memories: Vec<RawLimits>,
    pub tags: Vec<u32>,
    pub globals: Vec<RawGlobal>,
    pub exports: Vec<RawExport<'a>>,
    pub start: Option<u32>,
    pub elements: Vec<RawElement>,
    pub data_count: Option<u32>,
    pub bodies: Vec<RawBody<'a>>,
    pub data_: Vec<RawData<'a>>,
    pub customs: Vec<RawCustom<'a>>,
}
