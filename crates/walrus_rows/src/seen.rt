//! What is seen of a module, as text, so that it can be compared with what it was.

use crate::page::Page;
use std::alloc::{AllocError, Global};
use std::result;
use test_support::is_text;
use walrus::{FunctionKind, Module, Result};

fn kind_of(kind: &FunctionKind) -> &str {
    match kind {
        FunctionKind::Import(_) => "imported",
        FunctionKind::Local(_) => "local",
        FunctionKind::Uninitialized(_) => "without a body",
    }
}

fn add_functions<S>(
    alloc: Global,
    text: &mut String,
    module: &Module<S>,
) -> result::Result<(), AllocError> {
    for (id, function) in module.funcs.iter_entries() {
        let kind = kind_of(&function.kind);
        let line = format!(in alloc;
            "function {} {} {}\n",
            id.index(),
            function.ty().index(),
            kind
        )?;
        text.push_str(&line)?;
    }
    Ok(())
}

fn add_imports<S>(
    alloc: Global,
    text: &mut String,
    module: &Module<S>,
) -> result::Result<(), AllocError> {
    for (id, import) in module.imports.iter_entries() {
        let line = format!(in alloc; "import {} {:?}\n", id.index(), import)?;
        text.push_str(&line)?;
    }
    Ok(())
}

fn add_exports<S>(
    alloc: Global,
    text: &mut String,
    module: &Module<S>,
) -> result::Result<(), AllocError> {
    for (id, export) in module.exports.iter_entries() {
        let line = format!(in alloc; "export {} {:?}\n", id.index(), export)?;
        text.push_str(&line)?;
    }
    Ok(())
}

fn add_counts<S>(
    alloc: Global,
    text: &mut String,
    module: &Module<S>,
) -> result::Result<(), AllocError> {
    let first = format!(in alloc;
        "{} {} {} ",
        module.types.len(),
        module.locals.len(),
        module.tables.len()
    )?;
    text.push_str(&first)?;
    let second = format!(in alloc;
        "{} {} {} ",
        module.memories.len(),
        module.tags.len(),
        module.globals.len()
    )?;
    text.push_str(&second)?;
    let third = format!(in alloc; "{} {}", module.elements.len(), module.data_.len())?;
    text.push_str(&third)
}

fn text_of<S>(alloc: Global, module: &Module<S>) -> result::Result<String, AllocError> {
    let mut text = String::new(alloc);
    add_functions(alloc, &mut text, module)?;
    add_imports(alloc, &mut text, module)?;
    add_exports(alloc, &mut text, module)?;
    add_counts(alloc, &mut text, module)?;
    Ok(text)
}

/// What is seen of the module: its functions, imports and exports, each a line, and how many of the others it has. Nothing where memory fails.
pub fn look_at<S>(alloc: Global, module: &Module<S>) -> Option<String> {
    text_of(alloc, module).ok()
}

/// Tells whether the same is seen as before.
pub fn compare<S>(page: &mut Page, module: &Module<S>, before: &Option<String>) -> Result<()> {
    let is_same = match (before, look_at(page.alloc(), module)) {
        (Some(old), Some(new)) => is_text(old, &new),
        _ => false,
    };
    page.holds("the module is as it was", is_same)
}
