//! What no engine can tell.

ghost use Rattle.walrus_theorem.specs.Engines.{NamesAreAll, OutLooksSame, ReadHasSegments, RunLooksSame, SomeEngineTells, WrittenLooksSame};
ghost use Rattle.walrus_theorem.specs.WorkedEngine.{EngineRuns};

/// An engine that comes to items by references alone has the same notes on what was read and on what is written for it. It can begin
/// on each module that was read, and there is one that tells two modules apart. What it doesn't come to, it doesn't see. `written` asks
/// for the active segments of the module in memory (`Segments`), and that its imports and items name each other (`ImportsMatch`).
pub fn no_engine_tells()
    ensures out { OutLooksSame }
    ensures written { WrittenLooksSame }
    ensures runs { RunLooksSame }
    ensures begins { ReadHasSegments }
    ensures tells { SomeEngineTells }
    ensures names { NamesAreAll }
{}

/// An interpreter of seventeen operators as an engine, on a module, and on the same module with its functions the other way round.
pub fn worked_engine()
    ensures { EngineRuns }
{}
