//! What a module shows of its items, as text, so that it can be compared with what it was: ids, kinds, names, exports and sections.

use std::alloc::{AllocError, Global};
use walrus::{DataKind, ElementKind, FunctionKind, GlobalKind, Module, TagKind};

// Puts the line of an item behind the text.
fn add_item(
    alloc: Global,
    text: &mut String,
    kind: &str,
    place: usize,
    name: &Option<String>,
) -> Result<(), AllocError> {
    let line = match name {
        Some(name) => format!(in alloc; "{kind} {place} {name}\n")?,
        None => format!(in alloc; "{kind} {place}\n")?,
    };
    text.push_str(&line)
}

fn function_kind(kind: &FunctionKind) -> &str {
    match kind {
        FunctionKind::Import(_) => "imported function",
        FunctionKind::Local(_) => "function",
        FunctionKind::Uninitialized(_) => "function without a body",
    }
}

fn add_functions(alloc: Global, text: &mut String, module: &Module) -> Result<(), AllocError> {
    for (id, function) in module.funcs.iter_entries() {
        add_item(
            alloc,
            text,
            function_kind(&function.kind),
            id.index(),
            &function.name,
        )?;
    }
    Ok(())
}

fn add_tables(alloc: Global, text: &mut String, module: &Module) -> Result<(), AllocError> {
    for (id, table) in module.tables.iter_entries() {
        let kind = if table.import.is_some() {
            "imported table"
        } else {
            "table"
        };
        add_item(alloc, text, kind, id.index(), &table.name)?;
    }
    Ok(())
}

fn add_memories(alloc: Global, text: &mut String, module: &Module) -> Result<(), AllocError> {
    for (id, memory) in module.memories.iter_entries() {
        let kind = if memory.import.is_some() {
            "imported memory"
        } else {
            "memory"
        };
        add_item(alloc, text, kind, id.index(), &memory.name)?;
    }
    Ok(())
}

fn add_globals(alloc: Global, text: &mut String, module: &Module) -> Result<(), AllocError> {
    for (id, global) in module.globals.iter_entries() {
        let kind = match &global.kind {
            GlobalKind::Import(_) => "imported global",
            GlobalKind::Local(_) => "global",
        };
        add_item(alloc, text, kind, id.index(), &global.name)?;
    }
    Ok(())
}

fn add_tags(alloc: Global, text: &mut String, module: &Module) -> Result<(), AllocError> {
    for (id, tag) in module.tags.iter_entries() {
        let kind = match &tag.kind {
            TagKind::Import(_) => "imported tag",
            TagKind::Local => "tag",
        };
        add_item(alloc, text, kind, id.index(), &tag.name)?;
    }
    Ok(())
}

fn add_elements(alloc: Global, text: &mut String, module: &Module) -> Result<(), AllocError> {
    for (id, segment) in module.elements.iter_entries() {
        let kind = match &segment.kind {
            ElementKind::Active {
                table: _,
                offset: _,
            } => "active elements",
            ElementKind::Passive => "passive elements",
            ElementKind::Declared => "declared elements",
        };
        add_item(alloc, text, kind, id.index(), &segment.name)?;
    }
    Ok(())
}

fn add_data(alloc: Global, text: &mut String, module: &Module) -> Result<(), AllocError> {
    for (id, segment) in module.data_.iter_entries() {
        let kind = match &segment.kind {
            DataKind::Active {
                memory: _,
                offset: _,
            } => "active data",
            DataKind::Passive => "passive data",
        };
        add_item(alloc, text, kind, id.index(), &segment.name)?;
    }
    Ok(())
}

fn add_imports(alloc: Global, text: &mut String, module: &Module) -> Result<(), AllocError> {
    for (id, import) in module.imports.iter_entries() {
        let line = format!(in alloc; "import {} {}\n", id.index(), import.name)?;
        text.push_str(&line)?;
    }
    Ok(())
}

fn add_exports(alloc: Global, text: &mut String, module: &Module) -> Result<(), AllocError> {
    for (id, export) in module.exports.iter_entries() {
        let line = format!(in alloc; "export {} {}\n", id.index(), export.name)?;
        text.push_str(&line)?;
    }
    Ok(())
}

fn add_sections(alloc: Global, text: &mut String, module: &Module) -> Result<(), AllocError> {
    for (id, section) in module.customs.iter() {
        let line = format!(in alloc; "section {} {}\n", id.index(), section.name())?;
        text.push_str(&line)?;
    }
    Ok(())
}

fn text_of(alloc: Global, module: &Module) -> Result<String, AllocError> {
    let mut text = String::new(alloc);
    add_functions(alloc, &mut text, module)?;
    add_tables(alloc, &mut text, module)?;
    add_memories(alloc, &mut text, module)?;
    add_globals(alloc, &mut text, module)?;
    add_tags(alloc, &mut text, module)?;
    add_elements(alloc, &mut text, module)?;
    add_data(alloc, &mut text, module)?;
    add_imports(alloc, &mut text, module)?;
    add_exports(alloc, &mut text, module)?;
    add_sections(alloc, &mut text, module)?;
    Ok(text)
}

/// A line for each item, import, export and custom section of the module: its place, what it is, and its name. Nothing where memory fails.
pub fn shown(alloc: Global, module: &Module) -> Option<String> {
    text_of(alloc, module).ok()
}

/// Whether the module shows what it showed before.
pub fn is_as_before(alloc: Global, module: &Module, before: &Option<String>) -> bool {
    match (before, text_of(alloc, module)) {
        (Some(old), Ok(new)) => old.as_str() == new.as_str(),
        _ => false,
    }
}
