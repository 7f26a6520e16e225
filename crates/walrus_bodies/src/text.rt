//! A body as it stands in the input.
#![tactic(auto, unfolding(crate::specs::PlainCode::limits_in, crate::specs::Function::name_of, crate::specs::Function::as_text, crate::specs::Function::body_of, crate::specs::Function::locations_of, crate::specs::Function::args_of, crate::specs::Function::handlers_in, crate::specs::Function::listed_in, crate::specs::Function::located_in))]

ghost use Rattle.std.specs.Prelude.{◌≡◌};
ghost use Rattle.walrus_bodies.specs.LeftOut.{unpacked};
ghost use Rattle.walrus_bodies.specs.PlainBody.{IsPlainBody};
ghost use Rattle.walrus_bodies.specs.PlainCode.{bytes_at, entry_at, limits_at, marks_at};

use crate::pieces::are_same;
use crate::plain_code::{Entry, LeftOut, PlainCode};
use std::alloc::AllocError;
use std::rc::Rc;

/// The operators of a plain body, kept as the bytes that stand in the input, with marks, in the code that all such bodies of a module share.
/// Contracts see a list of operators over places. It has no operator of legacy exceptions, no `ref.func`, and none that names a tag or a
/// segment; its blocks nest.
#[derive(Drop)]
pub struct Text {
    pub(crate) code: Rc<PlainCode>,
    // Its number there.
    pub(crate) number: u32,
    // The place of the function's first local.
    pub(crate) first_local: u32,
    ghost body: { ∥ IsPlainBody (limits_at code.value number)
        (unpacked (entry_at code.value number).left_out) (bytes_at code.value number) (marks_at code.value number) (entry_at code.value number).count ∥₁ },
}

impl Text {
    ghost use Rattle.std.specs.Prelude.{IfOk, IfSome};
    ghost use Rattle.walrus_bodies.specs.PlainBody.{with_locals};
    ghost use Rattle.walrus_bodies.specs.PlainCode.{limits_in};
    ghost use Rattle.walrus_bodies.specs.Scanned.{IsScanned};
    ghost use Rattle.walrus_bodies.specs.Text.{bytes_of, entry_of, left_out_of, marks_of, start_of};

    // What is told of it.
    #[inline]
    pub(crate) fn entry(&self) -> Entry
        ensures { result ≡ entry_of self.now }
    {
        self.code.as_ref().entry(self.number)
    }

    // Which of its marks are left out.
    #[inline]
    pub(crate) fn left_out(&self) -> LeftOut
        ensures { result ≡ left_out_of self.now }
    {
        self.entry().left_out()
    }

    // Where the first of its operators stood in the input.
    pub(crate) fn start(&self) -> usize
        ensures { result ≡ start_of self.now }
    {
        let code = self.code.as_ref();
        code.start(code.entry(self.number))
    }

    // The bytes of its operators.
    #[inline]
    pub(crate) fn bytes(&self) -> &[u8]
        ensures { result.now ≡ bytes_of self.now }
    {
        let code = self.code.as_ref();
        code.bytes_of(code.entry(self.number))
    }

    // The marks of their arguments.
    #[inline]
    pub(crate) fn marks(&self) -> &[u32]
        ensures { result.now ≡ marks_of self.now }
    {
        let code = self.code.as_ref();
        code.marks_of(code.entry(self.number))
    }

    /// The body of this number in the code, if its operators are these bytes, which begin at `start` of the input, and its function has so
    /// many locals, the first of them at the place `first_local`; none where it isn't plain.
    ///
    /// # Errors
    ///
    /// `AllocError` where no memory is left.
    pub fn find(
        code: &Rc<PlainCode>,
        number: u32,
        operators: &[u8],
        start: usize,
        first_local: u32,
        locals: u32,
    ) -> Result<Option<Text>, AllocError>
        ensures { IfOk result (λ found. IfSome found
            (IsScanned (with_locals (limits_in code.now.value) locals) first_local start operators.now)) }
    {
        let shared = code.as_ref();
        let entry = shared.entry(number);
        if entry.count == 0 || entry.locals != locals || shared.start(entry) != start {
            return Ok(None);
        }
        if !are_same(shared.bytes_of(entry), operators) {
            return Ok(None);
        }
        Ok(Some(Text {
            code: code.clone()?,
            number,
            first_local,
        }))
    }
}
