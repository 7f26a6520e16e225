//! The laws of constant expressions that are put through look-ups, as contracts. Nothing runs here.
ghost use Rattle.walrus_constants.specs.Laws.{ConstantsLeadBack, ConstantsLack, ConstantsInPlace, ConstantsRenamed, ConstantNames, OneRecord, LookUpsRename, GlobalsRead, GlobalsWritten, TablesRead, TablesWritten, ElementsRead, ElementsWritten, ElementsFound, DataRead, DataWritten, DataFound};

/// Constant expressions that are put through a look-up, and then through one that leads back, are the same again.
pub fn constants_lead_back()
    ensures { ConstantsLeadBack }
{}

/// Nothing is found for a constant expression exactly where an item that it names has no number.
pub fn constants_lack()
    ensures { ConstantsLack }
{}

/// A look-up that finds each item under its own number changes no constant expression.
pub fn constants_stay_in_place()
    ensures { ConstantsInPlace }
{}

/// What a look-up finds for a constant expression is that expression under each renaming that agrees with the look-up, and
/// it names the items that were named, renamed.
pub fn constants_are_renamed()
    ensures renamed { ConstantsRenamed }
    ensures names { ConstantNames }
{}

/// A renaming whose numbers are those of a look-up agrees with it.
pub fn look_ups_rename()
    ensures { LookUpsRename }
{}

/// No two constant expressions over indices that bytes can spell say the same operators.
pub fn operators_have_one_record()
    ensures { OneRecord }
{}

/// A global that was read of a record is what the record says; one that is written is, renamed, what its record says.
pub fn globals_meet_their_records()
    ensures read { GlobalsRead }
    ensures written { GlobalsWritten }
{}

/// The same of tables, with or without an initialiser.
pub fn tables_meet_their_records()
    ensures read { TablesRead }
    ensures written { TablesWritten }
{}

/// A segment of elements that was read of a record is what the record says; one that is written is, renamed, what its record says.
pub fn elements_meet_their_records()
    ensures read { ElementsRead }
    ensures written { ElementsWritten }
{}

/// The same of segments of data.
pub fn data_meet_their_records()
    ensures read { DataRead }
    ensures written { DataWritten }
{}

/// A segment is found exactly where each item that it names has a number.
pub fn segments_are_found()
    ensures elements { ElementsFound }
    ensures data_segments { DataFound }
{}
