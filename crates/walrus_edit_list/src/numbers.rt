//! The bytes of edits, behind those of sections, and of what they are of.

/// A function is added: its type and its body.
pub const FUNCTION: u8 = 16;
/// Something is written anew: what it is, its id and what it is to be.
pub const SET: u8 = 17;
/// Something goes: what it is and its id.
pub const DELETE: u8 = 18;
/// An item of the module's own comes to be imported: of which kind it is, its id and two names.
pub const BRING: u8 = 19;
/// Something gets a name, or loses it: what it is, its id and the name if it has one.
pub const NAME: u8 = 20;
/// A producer comes: its field, its name and its version.
pub const PRODUCER: u8 = 21;
/// All producers go.
pub const NO_PRODUCERS: u8 = 22;
/// Operators come to stand in front of a body: the function and the operators.
pub const FRONT: u8 = 23;

// What an edit is of: the id of its section (Binary Format > Modules > Sections).
pub const OF_CUSTOM: u8 = 0;

pub const OF_TYPE: u8 = 1;

pub const OF_IMPORT: u8 = 2;

pub const OF_TABLE: u8 = 4;

pub const OF_MEMORY: u8 = 5;

pub const OF_GLOBAL: u8 = 6;

pub const OF_EXPORT: u8 = 7;

pub const OF_START: u8 = 8;

pub const OF_ELEMENT: u8 = 9;
/// A function, by the section of bodies.
pub const OF_FUNCTION: u8 = 10;

pub const OF_DATA: u8 = 11;

pub const OF_TAG: u8 = 13;
/// The module, which no section has the id of.
pub const OF_MODULE: u8 = 255;
