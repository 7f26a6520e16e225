//! The calls of a step, by name.

use crate::configured::{ask_for_debug_information, name_sdk_twice};
use crate::exports::{
    delete_export, delete_second, exchange_item, export_number, refuse_exported, same_export_name,
    unknown_exports,
};
use crate::imports::{find_import, import_function, import_local, refuse_imported};
use crate::locals::{argument_without_parameter, local_past_the_last};
use crate::page::Page;
use crate::sections::take_sections_out;
use crate::spaces::{count_memories, find_table};
use crate::steps::Calls;
use walrus::{Module, Result};

fn make_import<S>(page: &mut Page, module: &mut Module<S>, calls: Calls) -> Result<()> {
    match calls {
        Calls::ImportLocal => import_local(page, module),
        Calls::FindImport => find_import(page, module),
        Calls::ImportFunction => import_function(module),
        _ => refuse_imported(page, module),
    }
}

fn make_export<S>(page: &mut Page, module: &mut Module<S>, calls: Calls) -> Result<()> {
    match calls {
        Calls::UnknownExports => unknown_exports(page, &module.exports),
        Calls::DeleteExport => delete_export(page, &mut module.exports),
        Calls::ExchangeItem => exchange_item(page, module),
        Calls::SameExportName => same_export_name(page, module),
        Calls::DeleteSecond => delete_second(page, &mut module.exports),
        Calls::ExportNumber => export_number(page, module),
        Calls::RefuseExported => refuse_exported(page, module),
        _ => make_import(page, module, calls),
    }
}

/// Makes these calls.
pub fn make<S>(page: &mut Page, module: &mut Module<S>, calls: Calls) -> Result<()> {
    match calls {
        Calls::CountMemories => count_memories(page, module),
        Calls::FindTable => find_table(page, &mut module.tables),
        Calls::NameSdkTwice => name_sdk_twice(page, &mut module.producers),
        Calls::TakeSectionsOut => take_sections_out(page),
        Calls::AskForDebugInformation => ask_for_debug_information(page),
        Calls::ArgumentWithoutParameter => argument_without_parameter(page, module),
        Calls::LocalPastTheLast => local_past_the_last(page, module),
        _ => make_export(page, module, calls),
    }
}
