//! The laws of equality, as contracts.
ghost use Rattle.walrus_items.specs.Equality.{ComparesIds, ComparesKinds, ComparesSections, TellsItems};

use crate::kinds::ImportKind;
use crate::raw_section::RawCustomSection;
use walrus_base::UntypedCustomSectionId;

/// Two ids of custom sections are equal exactly where their places are.
pub fn section_ids_are_equal_by_place()
    ensures { ComparesIds ⟦<UntypedCustomSectionId as PartialEq>⟧.eq }
{}

/// Two sections that are kept as they were read are equal exactly where their names and their bytes are.
pub fn raw_sections_are_equal_by_parts()
    ensures { ComparesSections ⟦<RawCustomSection as PartialEq>⟧.eq }
{}

/// Two items are told to be one exactly where their index spaces and their places are.
pub fn items_are_told_apart()
    ensures { TellsItems }
{}

/// What two imports import is equal exactly where it is one item.
pub fn kinds_are_equal_as_items()
    ensures { ComparesKinds ⟦<ImportKind as PartialEq>⟧.eq }
{}
