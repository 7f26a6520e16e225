//! What a second run leaves of what the first one wrote, and the report on a module.

ghost use Rattle.std.specs.Prelude.{ℕ, List, ◌≡◌};
ghost use Rattle.walrus_model.specs.Abstract.{Abstract};
ghost use Rattle.walrus_model.specs.Config.{Config};
ghost use Rattle.walrus_model.specs.Examples.{two_functions};
ghost use Rattle.walrus_theorem.specs.Report.{IsReport, IsReportOf, two_functions_report};
ghost use Rattle.walrus_theorem.specs.SettledLaw.{OutSettles, RunsSettle};

/// What a run wrote, the next one under the same configuration writes again: all of it under one renaming, with no
/// segment and no shape of a type added. So of the steps, taken twice, and so of two runs.
pub fn settles_again()
    ensures steps { OutSettles }
    ensures runs { RunsSettle }
{}

/// The report on a module, how many items of each index space gc keeps and how many it drops, is one text. So is that on what bytes read
/// as.
pub fn one_report()
    ensures modules { (v : Abstract) (text other : List ℕ) → IsReport v text → IsReport v other
        → other ≡ text }
    ensures bytes { (c : Config) (bytes text other : List ℕ) → IsReportOf c bytes text
        → IsReportOf c bytes other → other ≡ text }
{}

/// The report at work, on a module of two functions, of which the second is exported.
pub fn worked_report()
    ensures { IsReport two_functions two_functions_report }
{}
