//! The scenes: what is read, which calls are made then, and what is written in the end.

use crate::steps::{Kind, Step};

/// A scene.
pub struct Scene {
    /// What is told where it doesn't stand.
    pub name: &'static str,
    /// The module that is read.
    pub input: &'static str,
    /// The calls that are made.
    pub steps: &'static [Step],
    /// What is written.
    pub output: &'static str,
    /// What the module shows beside what it showed before where writing it lacked memory: with the segment that declares functions.
    pub declared: &'static str,
    /// Whether producers are written.
    pub produces: bool,
}

const ROW: [Step; 2] = [Step::Collect, Step::Emit];

const ADDS: [Step; 13] = [
    Step::Add(Kind::Type),
    Step::Add(Kind::Group),
    Step::Add(Kind::Local),
    Step::Add(Kind::Function),
    Step::Add(Kind::Table),
    Step::Add(Kind::Memory),
    Step::Add(Kind::Global),
    Step::Add(Kind::Tag),
    Step::Add(Kind::Element),
    Step::Add(Kind::Data),
    Step::Add(Kind::Export),
    Step::Raw,
    Step::Emit,
];

const IMPORTS: [Step; 6] = [
    Step::Import(Kind::Function),
    Step::Import(Kind::Table),
    Step::Import(Kind::Memory),
    Step::Import(Kind::Global),
    Step::Import(Kind::Tag),
    Step::Emit,
];

const PRODUCERS: [Step; 5] = [
    Step::Add(Kind::Language),
    Step::Add(Kind::Tool),
    Step::Add(Kind::Sdk),
    Step::Add(Kind::Sdk),
    Step::Emit,
];

const EXPORTED: [Step; 3] = [Step::Replace(Kind::Export), Step::Collect, Step::Emit];

const IMPORTED: [Step; 2] = [Step::Replace(Kind::Function), Step::Emit];

const BROUGHT: [Step; 2] = [Step::ReplaceBrought, Step::Emit];

const SECTIONS: [Step; 4] = [Step::Raw, Step::Boxed, Step::Collect, Step::Emit];

/// All scenes.
pub const SCENES: [Scene; 13] = [
    Scene {
        name: "two functions, of which the second is exported",
        input: "00 61 73 6D 01 00 00 00 01 04 01 60 00 00 03 03 02 00 00 07 05 01 01 66 00 01 0A 07 02 02 00 0B 02 00 0B",
        steps: &ROW,
        output: "00 61 73 6D 01 00 00 00 01 04 01 60 00 00 03 02 01 00 07 05 01 01 66 00 00 0A 04 01 02 00 0B",
        declared: "",
        produces: false,
    },
    Scene {
        name: "a function that drops a passive data segment",
        input: "00 61 73 6D 01 00 00 00 01 04 01 60 00 00 03 02 01 00 05 03 01 00 01 07 05 01 01 66 00 00 0C 01 01 0A 07 01 05 00 FC 09 00 0B 0B 04 01 01 01 AA",
        steps: &ROW,
        output: "00 61 73 6D 01 00 00 00 01 04 01 60 00 00 03 02 01 00 05 03 01 00 01 07 05 01 01 66 00 00 0C 01 01 0A 07 01 05 00 FC 09 00 0B 0B 04 01 01 01 AA",
        declared: "",
        produces: false,
    },
    Scene {
        name: "a function that a global names and nothing declares",
        input: "00 61 73 6D 01 00 00 00 01 04 01 60 00 00 03 02 01 00 06 06 01 70 00 D2 00 0B 07 05 01 01 67 03 00 0A 04 01 02 00 0B",
        steps: &ROW,
        output: "00 61 73 6D 01 00 00 00 01 04 01 60 00 00 03 02 01 00 06 06 01 70 00 D2 00 0B 07 05 01 01 67 03 00 09 05 01 03 00 01 00 0A 04 01 02 00 0B",
        declared: "function 0\nglobal 0\ndeclared elements 0\nexport 0 g\n",
        produces: false,
    },
    Scene {
        name: "names of items of each kind",
        input: "00 61 73 6D 01 00 00 00 01 04 01 60 00 00 03 02 01 00 05 03 01 00 01 0D 03 01 00 00 07 0D 03 01 66 00 00 01 6D 02 00 01 74 04 00 00 25 04 6E 61 6D 65 01 07 02 00 01 46 09 01 78 02 06 01 00 01 00 01 4C 06 04 01 00 01 4D 0B 04 01 00 01 54 07 05 01 0A 09 01 07 01 01 7F 20 00 1A 0B",
        steps: &ROW,
        output: "00 61 73 6D 01 00 00 00 01 04 01 60 00 00 03 02 01 00 05 03 01 00 01 0D 03 01 00 00 07 0D 03 01 66 00 00 01 6D 02 00 01 74 04 00 0A 09 01 07 01 01 7F 20 00 1A 0B 00 1F 04 6E 61 6D 65 01 04 01 00 01 46 02 06 01 00 01 00 01 4C 06 04 01 00 01 4D 0B 04 01 00 01 54",
        declared: "",
        produces: false,
    },
    Scene {
        name: "sections a and b, debug information, and dynamic linking",
        input: "00 61 73 6D 01 00 00 00 00 03 01 61 01 00 0D 0B 2E 64 65 62 75 67 5F 69 6E 66 6F 02 01 04 01 60 00 00 03 02 01 00 07 05 01 01 66 00 00 00 0A 08 64 79 6C 69 6E 6B 2E 30 03 0A 04 01 02 00 0B 00 03 01 62 04",
        steps: &ROW,
        output: "00 61 73 6D 01 00 00 00 00 0A 08 64 79 6C 69 6E 6B 2E 30 03 01 04 01 60 00 00 03 02 01 00 07 05 01 01 66 00 00 0A 04 01 02 00 0B 00 03 01 61 01 00 03 01 62 04",
        declared: "",
        produces: false,
    },
    Scene {
        name: "a legacy handler whose type is added",
        input: "00 61 73 6D 01 00 00 00 01 08 02 60 00 00 60 01 7F 00 03 02 01 00 0D 03 01 00 01 07 05 01 01 66 00 00 0A 0C 01 0A 00 06 7F 41 00 07 00 0B 1A 0B",
        steps: &ROW,
        output: "00 61 73 6D 01 00 00 00 01 0D 03 60 00 00 60 01 7F 00 60 01 7F 01 7F 03 02 01 00 0D 03 01 00 01 07 05 01 01 66 00 00 0A 0C 01 0A 00 06 7F 41 00 07 00 0B 1A 0B",
        declared: "",
        produces: false,
    },
    Scene {
        name: "an item of each kind that is added",
        input: "00 61 73 6D 01 00 00 00 01 04 01 60 00 00 03 02 01 00 07 05 01 01 66 00 00 0A 04 01 02 00 0B",
        steps: &ADDS,
        output: "00 61 73 6D 01 00 00 00 01 0E 03 60 00 00 60 01 7F 00 4E 02 5F 00 5F 00 03 03 02 01 00 04 04 01 70 00 01 05 03 01 00 01 0D 03 01 00 00 06 06 01 7F 00 41 01 0B 07 09 02 01 66 00 01 01 78 00 01 09 05 01 01 00 01 01 0C 01 01 0A 0A 02 05 00 20 00 1A 0B 02 00 0B 0B 04 01 01 01 AA 00 03 01 72 07",
        declared: "",
        produces: false,
    },
    Scene {
        name: "an import of each kind that is added",
        input: "00 61 73 6D 01 00 00 00 01 04 01 60 00 00",
        steps: &IMPORTS,
        output: "00 61 73 6D 01 00 00 00 01 04 01 60 00 00 02 26 05 01 6D 01 66 00 00 01 6D 01 74 01 70 01 01 02 01 6D 01 79 02 07 03 04 01 6D 01 67 03 7E 01 01 6D 01 65 04 00 00",
        declared: "",
        produces: false,
    },
    Scene {
        name: "producers of each field that are added",
        input: "00 61 73 6D 01 00 00 00",
        steps: &PRODUCERS,
        output: "00 61 73 6D 01 00 00 00 00 42 09 70 72 6F 64 75 63 65 72 73 03 0C 70 72 6F 63 65 73 73 65 64 2D 62 79 02 06 77 61 6C 72 75 73 06 30 2E 32 38 2E 30 01 74 01 32 08 6C 61 6E 67 75 61 67 65 01 01 6C 01 31 03 73 64 6B 01 01 73 01 33",
        declared: "",
        produces: true,
    },
    Scene {
        name: "a section of a caller's own that keeps a function",
        input: "00 61 73 6D 01 00 00 00 01 04 01 60 00 00 03 03 02 00 00 0A 07 02 02 00 0B 02 00 0B",
        steps: &SECTIONS,
        output: "00 61 73 6D 01 00 00 00 01 04 01 60 00 00 03 02 01 00 0A 04 01 02 00 0B 00 03 01 72 07 00 03 01 73 08",
        declared: "",
        produces: false,
    },
    Scene {
        name: "an exported function that is replaced",
        input: "00 61 73 6D 01 00 00 00 01 04 01 60 00 00 03 02 01 00 07 09 01 05 64 75 6D 6D 79 00 00 0A 04 01 02 00 0B",
        steps: &EXPORTED,
        output: "00 61 73 6D 01 00 00 00 01 04 01 60 00 00 03 02 01 00 07 09 01 05 64 75 6D 6D 79 00 00 0A 08 01 06 00 41 E1 21 1A 0B",
        declared: "",
        produces: false,
    },
    Scene {
        name: "an imported function that is replaced",
        input: "00 61 73 6D 01 00 00 00 01 04 01 60 00 00 02 0D 01 03 6D 6F 64 05 64 75 6D 6D 79 00 00 07 05 01 01 66 00 00",
        steps: &IMPORTED,
        output: "00 61 73 6D 01 00 00 00 01 04 01 60 00 00 03 02 01 00 07 05 01 01 66 00 00 0A 08 01 06 00 41 E1 21 1A 0B",
        declared: "",
        produces: false,
    },
    Scene {
        name: "an imported function that is replaced by its import",
        input: "00 61 73 6D 01 00 00 00 01 04 01 60 00 00 02 0D 01 03 6D 6F 64 05 64 75 6D 6D 79 00 00 07 05 01 01 66 00 00",
        steps: &BROUGHT,
        output: "00 61 73 6D 01 00 00 00 01 04 01 60 00 00 03 02 01 00 07 05 01 01 66 00 00 0A 08 01 06 00 41 E1 21 1A 0B",
        declared: "",
        produces: false,
    },
];
