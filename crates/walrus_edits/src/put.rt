//! What a module holds, put into another one.

ghost use Rattle.std.specs.Prelude.{◌≡◌};
ghost use Rattle.walrus.specs.Modules.Settings.{settings};
ghost use Rattle.walrus.specs.Modules.View.{contents_of};

use walrus::{CustomSection, Module};

/// The second module with all that the first one holds but its custom sections; it is written as it was to be written.
pub(crate) fn put_contents(from: Module, mut into: Module) -> Module
    ensures holds { contents_of result ≡ contents_of from }
    ensures configured { settings result ≡ settings into }
{
    into.imports = from.imports;
    into.tables = from.tables;
    into.types = from.types;
    into.funcs = from.funcs;
    into.globals = from.globals;
    into.locals = from.locals;
    into.exports = from.exports;
    into.memories = from.memories;
    into.tags = from.tags;
    into.elements = from.elements;
    into.data_ = from.data_;
    into.start = from.start;
    into.producers = from.producers;
    into.name = from.name;
    into
}
