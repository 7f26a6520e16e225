//! What a module in memory is written as.

ghost use Rattle.walrus_theorem.specs.Needs.{AreNeeded};
ghost use Rattle.walrus_theorem.specs.OkLaws.{OkReads, RulesWritten};
ghost use Rattle.walrus_theorem.specs.Once.{BytesOnce, LivingKeeps, PremisesHold, WrittenOnce};
ghost use Rattle.walrus_theorem.specs.WellMadeLaws.{WrittenHolds};

/// What a module in memory is written as is one module and has one spelling, where nothing in it is named and not there:
/// no order of items or of locals, no name and no merging of types is left open. What is well made keeps these premises,
/// and each of them is needed: without it, one module is written as two.
pub fn written_once()
    ensures once { WrittenOnce }
    ensures premises { PremisesHold }
    ensures living { LivingKeeps }
    ensures bytes { BytesOnce }
    ensures needed { AreNeeded }
{}

/// What is written of a well-made module in which nothing is undeclared keeps the rules on modules ("Validation >
/// Modules").
pub fn written_holds()
    ensures { WrittenHolds }
{}

/// What may be written reads back: where there is no cause to refuse a module in memory, as an answer Ok says, the bytes of
/// what it is written as read as that, and as nothing else, whether it is well made or not. What it is written as keeps the
/// rules where it keeps them itself, and each of its bodies counts the locals that it declares.
pub fn ok_reads()
    ensures reads { OkReads }
    ensures rules { RulesWritten }
{}
