//! The scenes: which module is read, and which steps are taken then.

use crate::steps::{Calls, Step};

/// A scene.
pub struct Scene {
    /// What it shows.
    pub name: &'static str,
    /// The bytes of the module that is read: none where it begins with a module that holds nothing.
    pub input: &'static str,
    /// The steps that are taken.
    pub steps: &'static [Step],
}

const MEMORIES: [Step; 1] = [Step::Make(Calls::CountMemories)];

const TABLES: [Step; 1] = [Step::Make(Calls::FindTable)];

const UNKNOWN: [Step; 1] = [Step::Make(Calls::UnknownExports)];

const DELETED: [Step; 1] = [Step::Make(Calls::DeleteExport)];

const ITEMS: [Step; 1] = [Step::Make(Calls::ExchangeItem)];

const SAME_NAME: [Step; 1] = [Step::Make(Calls::SameExportName)];

const SECOND: [Step; 1] = [Step::Make(Calls::DeleteSecond)];

const EXPORTED: [Step; 2] = [
    Step::Make(Calls::ExportNumber),
    Step::Try(Calls::RefuseExported),
];

const LOCAL: [Step; 2] = [Step::Make(Calls::ImportLocal), Step::Emit];

const FOUND: [Step; 1] = [Step::Make(Calls::FindImport)];

const IMPORTED: [Step; 2] = [
    Step::Make(Calls::ImportFunction),
    Step::Try(Calls::RefuseImported),
];

const SDK: [Step; 1] = [Step::Make(Calls::NameSdkTwice)];

const DEBUG: [Step; 1] = [Step::Make(Calls::AskForDebugInformation)];

const SECTIONS: [Step; 1] = [Step::Make(Calls::TakeSectionsOut)];

const EXCHANGED: [Step; 3] = [Step::Exchange, Step::Collect, Step::Emit];

const ARGUMENT: [Step; 3] = [
    Step::Make(Calls::ArgumentWithoutParameter),
    Step::Collect,
    Step::Emit,
];

const PAST: [Step; 4] = [
    Step::Make(Calls::LocalPastTheLast),
    Step::Search,
    Step::Collect,
    Step::EmitEither,
];

const EQUAL: [Step; 2] = [Step::Collect, Step::Measure];

/// All scenes.
pub const SCENES: [Scene; 18] = [
    Scene {
        name: "how many memories there are, and which is the only one",
        input: "",
        steps: &MEMORIES,
    },
    Scene {
        name: "the only table of functions",
        input: "",
        steps: &TABLES,
    },
    Scene {
        name: "items that nothing exports",
        input: "",
        steps: &UNKNOWN,
    },
    Scene {
        name: "an export that is deleted is found neither by its item nor by its name",
        input: "",
        steps: &DELETED,
    },
    Scene {
        name: "an export that is given another item keeps its id and name",
        input: "",
        steps: &ITEMS,
    },
    Scene {
        name: "a memory and a function under one name",
        input: "",
        steps: &SAME_NAME,
    },
    Scene {
        name: "the second of three exports is deleted",
        input: "",
        steps: &SECOND,
    },
    Scene {
        name: "an exported function is replaced by a closure that says no",
        input: "",
        steps: &EXPORTED,
    },
    Scene {
        name: "an imported function is replaced by a closure that says no",
        input: "",
        steps: &IMPORTED,
    },
    Scene {
        name: "an import of a function that has a body",
        input: "",
        steps: &LOCAL,
    },
    Scene {
        name: "an import is found by its names once another one is deleted",
        input: "",
        steps: &FOUND,
    },
    Scene {
        name: "an SDK in two versions",
        input: "",
        steps: &SDK,
    },
    Scene {
        name: "debug information is asked for and then not",
        input: "",
        steps: &DEBUG,
    },
    Scene {
        name: "a box and raw bytes as custom sections of one name",
        input: "",
        steps: &SECTIONS,
    },
    Scene {
        name: "a function of another module in the place of an exported one",
        input: "00 61 73 6D 01 00 00 00 01 04 01 60 00 00 03 03 02 00 00 07 05 01 01 61 00 00 0A 0A 02 02 00 0B 05 00 41 00 1A 0B",
        steps: &EXCHANGED,
    },
    Scene {
        name: "a function with an argument that its type doesn't have",
        input: "",
        steps: &ARGUMENT,
    },
    Scene {
        name: "a function that reads a local which isn't there",
        input: "",
        steps: &PAST,
    },
    Scene {
        name: "how long the sections are of two functions of equal types",
        input: "00 61 73 6D 01 00 00 00 01 07 02 60 00 00 60 00 00 03 03 02 00 01 07 09 02 01 61 00 00 01 62 00 01 0A 07 02 02 00 0B 02 00 0B",
        steps: &EQUAL,
    },
];
