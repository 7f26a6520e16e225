//! The steps from the module that bytes read as to the one that is written.

ghost use Rattle.std.specs.Prelude.{◌≡◌, false, true};
ghost use Rattle.walrus_model.specs.Config.{Config};
ghost use Rattle.walrus_theorem.specs.Examples.{one_function_bytes, RowRuns};
ghost use Rattle.walrus_theorem.specs.Headline.{NotBoth, OneOutput, StepsComeOut};
ghost use Rattle.walrus_theorem.specs.OneRun.{HandlersLive, HandlersOnce, KeptLives};
ghost use Rattle.walrus_theorem.specs.SettledLaw.{IsSettled};
ghost use Rattle.walrus_theorem.specs.WellMadeLaws.{BroughtLives};
ghost use Rattle.walrus_theorem.specs.Whole.{PlainComesOut};
ghost use Rattle.walrus_theorem.specs.WorkedDeclared.{declared_bytes, undeclared_bytes};
ghost use Rattle.walrus_theorem.specs.WorkedHandler.{catching_bytes, handled_bytes};
ghost use Rattle.walrus_theorem.specs.WorkedSections.{ComesToAlone, customs_bytes, named_bytes, produced_bytes};

/// What is said of the steps (parsing, gc, the declared segment, writing) gives the relation between the module that was
/// read and the one that came out, which a reader reads.
pub fn steps_come_out()
    ensures { StepsComeOut }
{}

/// The same without gc: of parsing, the declared segment and writing. All that was read comes out.
pub fn plain_comes_out()
    ensures { PlainComesOut }
{}

/// What comes out is one function of what was read, and no run may call too large what another may write. The types that
/// legacy handlers need are found or added in one way and name types that are there, and gc leaves nothing that is named
/// and not there.
pub fn one_run()
    ensures handlers { HandlersOnce }
    ensures handlers_live { HandlersLive }
    ensures lives { KeptLives }
    ensures output { OneOutput }
    ensures not_both { NotBoth }
{}

/// Nothing of what the steps bring a module to is named and not there.
pub fn brought_lives()
    ensures { BroughtLives }
{}

/// The steps at work: where neither names nor producers are written, the bytes of a module of two functions, of which the
/// second is exported, come to those of the module of that one function, to no others, and to nothing that is too large.
pub fn worked_run()
    ensures { (c : Config) → c.writes_names ≡ false → c.writes_producers ≡ false → RowRuns c }
{}

/// The same where the one function names itself by `ref.func`, and nothing declares it: what the bytes come to has a
/// segment more, which declares it.
pub fn worked_declared()
    ensures { (c : Config) → c.writes_names ≡ false → c.writes_producers ≡ false
        → ComesToAlone c undeclared_bytes declared_bytes }
{}

/// The same on a module of one function, which is exported. Where producers are written, this program stands among them.
/// A section of dynamic linking and another custom section stay, in front and behind. Where names are written, those of
/// the module and of its function stay. What a run leaves as it is is settled.
pub fn worked_sections()
    ensures producers { (c : Config) → c.writes_names ≡ false → c.writes_producers ≡ true
        → ComesToAlone c one_function_bytes produced_bytes }
    ensures customs { (c : Config) → c.writes_names ≡ false → c.writes_producers ≡ false
        → ComesToAlone c customs_bytes customs_bytes }
    ensures names { (c : Config) → c.writes_names ≡ true → c.writes_producers ≡ false
        → ComesToAlone c named_bytes named_bytes }
    ensures settled { (c : Config) → c.writes_names ≡ false → c.writes_producers ≡ false
        → IsSettled c customs_bytes customs_bytes }
{}

/// The same on a legacy handler, where legacy exceptions are taken: the function type that it needs isn't there, and what
/// the bytes come to has it behind the others.
pub fn worked_handler()
    ensures { (c : Config) → c.writes_names ≡ false → c.writes_producers ≡ false → c.legacy_exceptions ≡ true
        → ComesToAlone c catching_bytes handled_bytes }
{}
