//! Writing a module as bytes.
ghost use Rattle.std.specs.Prelude.{◌≡◌, IsOkUnless, OnErr, OnOk, true};
ghost use Rattle.walrus_contents.specs.View.{parts_view};
ghost use Rattle.walrus_items.specs.Elements.{elements};
ghost use Rattle.walrus_items.specs.Errors.{out_of_memory};
ghost use Rattle.walrus_model.specs.Dead.{HasDead};
ghost use Rattle.walrus_model.specs.Declared.{NothingUndeclared};
ghost use Rattle.walrus_theorem.specs.Chain.{Leaves};
ghost use Rattle.walrus_module.specs.Emission.{EmitsBytes, EmitsTransform};
ghost use Rattle.walrus_module.specs.Left.{AddsDeclared, ChangesElements};
ghost use Rattle.walrus_module.specs.View.{held_view, view};

use crate::module::Module;
use crate::written::write_parts;
use std::alloc::Global;
use walrus_contents::{Parts, check_live, undeclared_functions};
use walrus_items::{CodeTransform, CustomSection, ElementItems, ElementKind, Result};

impl Module {
    /// The module's bytes. The module gets one element segment, unnamed and behind all others, that declares the functions that `ref.func`
    /// names in a body or in the initialiser of a global and that nothing declares, if there are any (Valid > Modules: the context's references);
    /// all else stays as it is. So a second emission adds nothing, and writes the same bytes. Custom sections are asked for their data by their
    /// ids, those of dynamic linking first and under no indices, all others but debug information under those that items are written with.
    /// Under [`preserve_code_transform`](crate::ModuleConfig::preserve_code_transform) each of these others is handed the code transform before, and so
    /// may change, a second time too; where one refuses, those in front of it have followed the code.
    ///
    /// # Errors
    ///
    /// Each with a cause of its own: `DeadItem` where an item or a local is named that isn't there, or a function has neither an import nor a
    /// body; then no segment is added. Behind that those of [`prepare`](walrus_plan::prepare) and [`write_prepared`](walrus_writing::write_prepared): `TwoIndices` where an import names an item that the module defines,
    /// or two imports name one; `NoIndex` where an item says to be brought by an import that isn't there or names another item, or an initialiser
    /// or a type names what gets its index later; `NotWritable` where no bytes spell a body, a type, an initialiser or a segment; `TooLarge` where
    /// a count or a size passes 32 bits. What a custom section of a caller's own refuses with: `Caller`, where one that is asked, or handed the transform, may refuse. And `Memory`.
    pub fn emit_wasm(&mut self, alloc: Global) -> Result<Vec<u8>>
        ensures { EmitsBytes ⟦<dyn CustomSection as CustomSection>⟧ self.old self.new result }
    {
        let (bytes, transform) = self.emit(alloc, false)?;
        drop(transform);
        Ok(bytes)
    }

    /// The same with the places of bodies and operators in the bytes: of each local function the place of its body, behind its size, by
    /// rising id; the place of the count of functions; and, under
    /// [`preserve_code_transform`](crate::ModuleConfig::preserve_code_transform), of each location that isn't the default the last place, by rising
    /// location. Without local functions all is empty, and the place 0.
    ///
    /// # Errors
    ///
    /// Those of [`Module::emit_wasm`].
    pub fn emit_wasm_with_transform(&mut self, alloc: Global) -> Result<(Vec<u8>, CodeTransform)>
        ensures { EmitsTransform ⟦<dyn CustomSection as CustomSection>⟧ self.old self.new true result }
    {
        self.emit(alloc, true)
    }

    /// The same as [`Module::emit_wasm`] of a module in which nothing is named that isn't there, as of what was parsed, or is left of that by gc:
    /// so nothing dead is looked for.
    ///
    /// # Errors
    ///
    /// Those of [`Module::emit_wasm`] but `DeadItem`.
    pub fn emit_whole(&mut self, alloc: Global) -> Result<Vec<u8>>
        requires { HasDead (view ⟦<dyn CustomSection as CustomSection>⟧ self.old) → ⊥ }
        ensures { EmitsBytes ⟦<dyn CustomSection as CustomSection>⟧ self.old self.new result }
    {
        let (bytes, transform) = self.emit_live(alloc, false)?;
        drop(transform);
        Ok(bytes)
    }

    // The same as both, where the places are only true if they are asked for, or sections are to follow the code.
    fn emit(&mut self, alloc: Global, tells: bool) -> Result<(Vec<u8>, CodeTransform)>
        ensures { EmitsTransform ⟦<dyn CustomSection as CustomSection>⟧ self.old self.new tells result }
    {
        check_live(alloc, self.parts())?;
        self.emit_live(alloc, tells)
    }

    // The same where nothing dead is named.
    fn emit_live(&mut self, alloc: Global, tells: bool) -> Result<(Vec<u8>, CodeTransform)>
        requires { HasDead (held_view self.old) → ⊥ }
        ensures { EmitsTransform ⟦<dyn CustomSection as CustomSection>⟧ self.old self.new tells result }
    {
        self.declare_references(alloc)?;
        let start = self.start;
        let parts = Parts {
            types: &self.types,
            locals: &self.locals,
            imports: &self.imports,
            funcs: &self.funcs,
            tables: &self.tables,
            memories: &self.memories,
            tags: &self.tags,
            globals: &self.globals,
            elements: &self.elements,
            data_: &self.data_,
            exports: &self.exports,
            start,
            producers: &self.producers,
            name: &self.name,
        };
        write_parts(alloc, parts, &mut self.customs, self.switches, tells)
    }

    // Adds the segment that declares what `ref.func` names and nothing declares, if there is any such function. Want of memory is the only
    // refusal; then the module stays as it is.
    fn declare_references(&mut self, alloc: Global) -> Result<()>
        ensures left { OnOk result (Leaves (held_view self.old) (held_view self.new)) }
        ensures segments { AddsDeclared (elements self.old.elements) (elements self.new.elements) }
        ensures others { ChangesElements self.old self.new }
        ensures settled { NothingUndeclared (held_view self.old) → self.new ≡ self.old }
        ensures unchanged { OnErr result (held_view self.new ≡ held_view self.old) }
        ensures fails { IsOkUnless result out_of_memory }
    {
        let functions = undeclared_functions(alloc, self.parts())?;
        if functions.is_empty() {
            return Ok(());
        }
        let items = ElementItems::Functions(functions);
        self.elements.add(ElementKind::Declared, items)?;
        Ok(())
    }
}

impl<S> Module<S> {
    /// The parts of the module, lent: all that it holds but its custom sections.
    pub fn parts(&self) -> Parts<'_>
        ensures { parts_view result ≡ held_view self.now }
    {
        Parts {
            types: &self.types,
            locals: &self.locals,
            imports: &self.imports,
            funcs: &self.funcs,
            tables: &self.tables,
            memories: &self.memories,
            tags: &self.tags,
            globals: &self.globals,
            elements: &self.elements,
            data_: &self.data_,
            exports: &self.exports,
            start: self.start,
            producers: &self.producers,
            name: &self.name,
        }
    }
}
