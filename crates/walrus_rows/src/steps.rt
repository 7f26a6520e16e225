//! The steps of scenes.

/// A step.
#[derive(Clone, Copy)]
pub enum Step {
    /// Makes calls that change the module, or ask it something.
    Make(Calls),
    /// The same, and tells whether they left the module as it was.
    Try(Calls),
    /// Looks for what is used, and tells whether that was refused, and the module left as it was.
    Search,
    /// Drops what nothing reaches, and tells whether anything went.
    Collect,
    /// Writes the module, tells the bytes or the refusal, and whether the module is as it was.
    Emit,
    /// Writes the module, which can be refused for two reasons, either of which may be told.
    EmitEither,
    /// Writes the module, and tells how long each section is.
    Measure,
    /// Puts the second function of another module of the same bytes in the place of the first.
    Exchange,
}

/// Calls that belong together.
#[derive(Clone, Copy)]
pub enum Calls {
    CountMemories,
    FindTable,
    UnknownExports,
    DeleteExport,
    ExchangeItem,
    SameExportName,
    DeleteSecond,
    ExportNumber,
    RefuseExported,
    ImportLocal,
    FindImport,
    ImportFunction,
    RefuseImported,
    NameSdkTwice,
    AskForDebugInformation,
    ArgumentWithoutParameter,
    LocalPastTheLast,
    TakeSectionsOut,
}
