//! The laws of operators that are put through look-ups, as contracts.
ghost use Rattle.walrus_code.specs.Names.{OperatorsLeadBack};

/// Operators that are put through look-ups of their items and locals, and then through others that lead back, are the same
/// operators again.
pub fn named_operators_lead_back()
    ensures { OperatorsLeadBack }
{}
