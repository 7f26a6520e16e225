//! A sink of namings that writes them as text.

ghost use Rattle.std.specs.Prelude.{ltb};

use std::alloc::{AllocError, Global};
use wasm_wire::{NameSink, NameSpace, Naming, WireError};

/// Writes each naming that it is handed as text. It knows the functions below a number.
#[derive(Drop)]
pub struct Told {
    pub text: String,
    functions: u32,
}

impl Told {
    /// Nothing is told so far.
    pub fn new(alloc: Global, functions: u32) -> Told {
        Told {
            text: String::new(alloc),
            functions,
        }
    }
}

fn word(space: NameSpace) -> &'static str {
    match space {
        NameSpace::Functions => "function",
        NameSpace::Types => "type",
        NameSpace::Tables => "table",
        NameSpace::Memories => "memory",
        NameSpace::Globals => "global",
        NameSpace::Elements => "element",
        NameSpace::DataSegments => "data",
        NameSpace::Tags => "tag",
    }
}

fn tell_name(text: &mut String, naming: Naming<'_>) -> Result<(), AllocError> {
    match naming {
        Naming::Module(name) => write!(text, "module {name};"),
        Naming::Item(space, index, name) => write!(text, "{} {index} {name};", word(space)),
        Naming::Local(function, index, name) => write!(text, "local {function} {index} {name};"),
    }
}

impl NameSink for Told {
    ghost Seen = { Unit {0} };

    ghost seen = { λ _. tt };

    ghost after = { λ _ _. tt };

    ghost known = { λ s i. ltb i s.functions };

    ghost refuses = { λ _ _ _. Unit {0} };

    fn function_known(&self, index: u32) -> bool {
        index < self.functions
    }

    fn naming(&mut self, naming: Naming<'_>) -> Result<(), WireError> {
        tell_name(&mut self.text, naming)?;
        Ok(())
    }
}
