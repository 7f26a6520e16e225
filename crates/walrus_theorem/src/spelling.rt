//! The one spelling of a module ("Binary Format > Modules").

ghost use Rattle.std.specs.Prelude.{ℕ, List, ◌≡◌};
ghost use Rattle.walrus_model.specs.Abstract.{Abstract};
ghost use Rattle.walrus_theorem.specs.Alternatives.{HasAlternatives};
ghost use Rattle.walrus_theorem.specs.Examples.{ExamplesAreRead, AreRefused, one_function, one_function_bytes};
ghost use Rattle.walrus_theorem.specs.Needs.{IsWrittenOnce};
ghost use Rattle.walrus_theorem.specs.OneRun.{ReadFits, ReadsOnce, SpelledFits};
ghost use Rattle.walrus_theorem.specs.SpelledLaws.{SpelledReads, WrittenBodies, WrittenReads};
ghost use Rattle.walrus_theorem.specs.Spelling.{IsSpelledAs, SpelledOnce};

/// A module of one function is spelled and written so. Other bytes that read as the same module, or as one that differs
/// in what nothing needs, are no spelling: a number in more bytes than it takes, a local that nothing uses, an empty group
/// of types, a section of debug information, and others. The bytes of a module of two functions, and of what comes out of
/// it, read as these modules, and the latter is spelled so.
pub fn worked_row()
    ensures read { ExamplesAreRead }
    ensures one { IsSpelledAs one_function one_function_bytes }
    ensures refused { AreRefused }
    ensures written { IsWrittenOnce }
{}

/// Texts may differ and say one module: in the bodies a local type that is declared twice or for no local, or a byte that
/// is no heap type; an empty group of types, more bodies than functions, a flag that nothing takes, the place of a custom
/// section, the order of names. So that a module has one spelling is due to what a spelling has to be beside what it says.
pub fn has_alternatives()
    ensures { HasAlternatives }
{}

/// A module has one text, section by section, and so one spelling: bytes that are spelled as it are these bytes.
pub fn spelled_once()
    ensures once { SpelledOnce }
    ensures bytes { (n : Abstract) (bytes others : List ℕ) → IsSpelledAs n bytes → IsSpelledAs n others
        → others ≡ bytes }
{}

/// No bytes read as two modules: sections, bodies, namings and producers are read in one way. What they read as has
/// counts, limits and numbers of locals that 32 bits hold, since each entry takes bytes.
pub fn reads_once()
    ensures once { ReadsOnce }
    ensures fits { ReadFits }
{}

/// What is spelled reads back: sections that are spelled and read again fit; and the one spelling of a module reads as
/// the module, where its sections fit, its bodies are well formed under the configuration's flags and it keeps the rules.
/// What a well-made module is written as is such, where nothing in it is undeclared.
pub fn spelled_reads()
    ensures fits { SpelledFits }
    ensures back { SpelledReads }
    ensures written { WrittenReads }
    ensures bodies { WrittenBodies }
{}
