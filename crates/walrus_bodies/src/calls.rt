//! What a body tells of itself.
#![tactic(auto, unfolding(crate::specs::PlainCode::limits_in, crate::specs::Function::name_of, crate::specs::Function::as_text, crate::specs::Function::body_of, crate::specs::Function::locations_of, crate::specs::Function::args_of, crate::specs::Function::handlers_in, crate::specs::Function::listed_in, crate::specs::Function::located_in))]

ghost use Rattle.std.specs.Prelude.{◌≡◌, true, length};
ghost use Rattle.walrus_bodies.specs.Plain.{are_plain};
ghost use Rattle.walrus_bodies.specs.Text.{first_local_of, front_count_of, local_count_of, ops_in};

use crate::text::Text;

impl Text {
    /// How many operators it has, the last `0B` counted.
    pub fn size(&self) -> usize
        ensures { result ≡ length (ops_in self.now) }
    {
        self.entry().count as usize
    }

    /// How many bytes stand in the input.
    pub fn byte_count(&self) -> usize {
        self.bytes().len()
    }

    /// How many bytes the bodies of its module have together that are kept as this one is.
    pub fn code_length(&self) -> usize {
        self.code.as_ref().operator_bytes
    }

    /// The place of the function's first local.
    #[tactic(auto, unfolding(crate::specs::Text::first_local_of))]
    pub fn first_local(&self) -> u32
        ensures { result ≡ first_local_of self.now }
    {
        self.first_local
    }

    /// How often operators were put in front of it.
    pub fn front_count(&self) -> u32
        ensures { result ≡ front_count_of self.now }
    {
        self.code.as_ref().fronts
    }

    /// How many locals the function has, its parameters among them. They lie one behind another.
    #[tactic(auto, unfolding(crate::specs::Text::local_count_of))]
    pub fn local_count(&self) -> u32
        ensures { result ≡ local_count_of self.now }
    {
        self.entry().locals
    }

    /// That it is plain. Nothing runs.
    pub fn is_plain(&self)
        ensures { are_plain (first_local_of self.now) (local_count_of self.now) (ops_in self.now) ≡ true }
    {}
}
