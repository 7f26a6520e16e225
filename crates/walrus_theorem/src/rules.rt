//! The rules on modules ("Validation > Modules"), on records and on the module that they say.

ghost use Rattle.walrus_theorem.specs.Declared.{ReferencesAgree};
ghost use Rattle.walrus_theorem.specs.Rules.{AcceptsRead, ReadsAgree, RulesAgree};

/// Records whose bodies read as some keep the rules exactly where the module that they say does, the records that aren't
/// custom stand in order, there are as many bodies as functions, and a data count counts the data segments. So what bytes
/// read as keeps the rules exactly where its records do.
pub fn rules_agree()
    ensures records { RulesAgree }
    ensures reads { ReadsAgree }
{}

/// Bytes are accepted exactly where they frame records that keep the rules and each of whose bodies is read: what sections of
/// names and of producers say refuses nothing.
pub fn accepts_read()
    ensures { AcceptsRead }
{}

/// A function is undeclared in the module that records say exactly where `ref.func` names it in a body or in a global's
/// initialiser of the records, and no export and no element segment of them names it.
pub fn references_agree()
    ensures { ReferencesAgree }
{}
