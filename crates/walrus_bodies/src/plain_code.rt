//! The plain bodies of a module, as they stand in the input (Binary Format > Modules > Code Section).
#![tactic(auto, unfolding(crate::specs::PlainCode::limits_in, crate::specs::Function::name_of, crate::specs::Function::as_text, crate::specs::Function::body_of, crate::specs::Function::locations_of, crate::specs::Function::args_of, crate::specs::Function::handlers_in, crate::specs::Function::listed_in, crate::specs::Function::located_in))]

ghost use Rattle.std.specs.Prelude.{◌≡◌, IfSome};
ghost use Rattle.std.specs.List.{All};
ghost use Rattle.walrus_bodies.specs.LeftOut.{unpacked};
ghost use Rattle.walrus_bodies.specs.PlainBody.{IsHeld};

use crate::pieces::{are_same, bytes_between, marks_between};
use crate::scan::{ScanRoom, scan_body};
use std::alloc::{AllocError, Global};
use std::rc::Rc;
use wasm_text::Limits;

// Which marks of a body are left out where the argument stands in its one spelling.
#[derive(Clone, Copy)]
pub(crate) struct LeftOut {
    // Those of locals from this one on, each of which is named.
    pub(crate) first: u32,
    // Those of accesses to memory 0, if this is true: then there is one.
    pub(crate) accessed: bool,
}

// Where a plain body stands in the code of its module, and what is told of it. Of a body that isn't plain there are no operators.
#[derive(Clone, Copy)]
pub(crate) struct Entry {
    // Where its operators begin among the bytes that are kept, and where they end.
    pub(crate) begin: u32,
    pub(crate) end: u32,
    // The same of its marks.
    pub(crate) first_mark: u32,
    pub(crate) last_mark: u32,
    // How many operators there are.
    pub(crate) count: u32,
    // How many locals its function has.
    pub(crate) locals: u32,
    // Which of its marks are left out: twice the first local, and one more if those of accesses are.
    pub(crate) left_out: u32,
}

impl LeftOut {
    // Both as one number; none where that passes 32 bits.
    fn packed(self) -> Option<u32>
        ensures { IfSome result (λ number. unpacked number ≡ self) }
    {
        self.first
            .checked_mul(2)?
            .checked_add(u32::from(self.accessed))
    }
}

impl Entry {
    // Which of its marks are left out.
    #[inline]
    pub(crate) fn left_out(self) -> LeftOut
        ensures { result ≡ unpacked self.left_out }
    {
        LeftOut {
            first: self.left_out / 2,
            accessed: self.left_out % 2 == 1,
        }
    }
}

// From where on no marks of locals are left out.
pub(crate) const NO_LOCAL: u32 = (1 << 31) - 1;

// Where nothing stands.
const NOWHERE: Entry = Entry {
    begin: 0,
    end: 0,
    first_mark: 0,
    last_mark: 0,
    count: 0,
    locals: 0,
    left_out: 2 * NO_LOCAL,
};

/// The plain bodies of a module: bytes of the input, in which their operators stand as they were read, with marks where an argument stands
/// that names something or isn't in its one spelling. Marks are left out of locals that keep their indices, and of accesses to memory 0, where
/// these stand in their one spelling. What the bodies name is within the limits.
#[derive(Drop)]
pub struct PlainCode {
    pub(crate) bytes: Rc<Vec<u8>>,
    // Where the first of these stood in the input, or the last place of 32 bits.
    pub(crate) origin: u32,
    // How many of these are operators of plain bodies, as far as that can be counted.
    pub(crate) operator_bytes: usize,
    pub(crate) marks: Vec<u32>,
    pub(crate) entries: Vec<Entry>,
    pub(crate) limits: Limits,
    // How often operators were put in front of them.
    pub(crate) fronts: u32,
    ghost held: { ∥ All (IsHeld limits bytes.value.items marks.items) entries.items ∥₁ },
}

// The same counts, with so many locals.
fn with_locals(limits: Limits, locals: u32) -> Limits
    ensures { result ≡ record limits { locals = locals } }
{
    let mut limits = limits;
    limits.locals = locals;
    limits
}

impl PlainCode {
    ghost use Rattle.std.specs.Prelude.{IfOk, ◌+◌, length};
    ghost use Rattle.walrus_bodies.specs.PlainBody.{IsPlainBody, with_locals};
    ghost use Rattle.walrus_bodies.specs.PlainCode.{IsBehind, bytes_in, entry_at, fronts_in, limits_in, marks_in, start_in};

    /// No bodies yet, and room for so many, whose operators stand among these bytes, of which the first stands at the place `origin` of the
    /// input. What they name is to be within the limits; of locals and blocks there is none.
    ///
    /// # Errors
    ///
    /// `AllocError` where no memory is left.
    pub fn new(
        alloc: Global,
        limits: Limits,
        bodies: usize,
        bytes: Rc<Vec<u8>>,
        origin: usize,
    ) -> Result<PlainCode, AllocError>
        ensures { IfOk result (λ code. limits_in code ≡ limits) }
    {
        Ok(PlainCode {
            bytes,
            origin: u32::try_from(origin).unwrap_or(u32::MAX),
            operator_bytes: 0,
            marks: Vec::new(alloc),
            entries: Vec::with_capacity(alloc, bodies)?,
            limits,
            fronts: 0,
        })
    }

    /// The same bodies, in front of which operators were put so often.
    pub fn with_fronts(self, fronts: u32) -> PlainCode
        ensures limits { limits_in result ≡ limits_in self }
        ensures fronts { fronts_in result ≡ fronts }
    {
        let mut code = self;
        code.fronts = fronts;
        code
    }

    // What is told of the body of a number.
    #[inline]
    pub(crate) fn entry(&self, number: u32) -> Entry
        ensures { result ≡ entry_at self.now number }
    {
        match self.entries.get(number as usize) {
            Some(entry) => *entry,
            None => NOWHERE,
        }
    }

    // Where the first of a body's operators stood in the input.
    #[inline]
    pub(crate) fn start(&self, entry: Entry) -> usize
        ensures { result ≡ start_in self.now entry }
    {
        self.origin as usize + entry.begin as usize
    }

    // The bytes of a body's operators.
    #[inline]
    pub(crate) fn bytes_of(&self, entry: Entry) -> &[u8]
        ensures { result.now ≡ bytes_in self.now entry }
    {
        bytes_between(
            self.bytes.as_ref(),
            entry.begin as usize,
            entry.end as usize,
        )
    }

    // The marks of a body's arguments.
    #[inline]
    pub(crate) fn marks_of(&self, entry: Entry) -> &[u32]
        ensures { result.now ≡ marks_in self.now entry }
    {
        marks_between(
            &self.marks,
            entry.first_mark as usize,
            entry.last_mark as usize,
        )
    }

    // What is told of so many operators of these bytes, which begin at `start` of the input, with marks behind those that stand there; none where
    // these bytes don't stand there among those that are kept, or a number passes 32 bits.
    fn entry_behind(
        &self,
        operators: &[u8],
        marks: &[u32],
        count: usize,
        start: usize,
        locals: u32,
        left_out: LeftOut,
    ) -> Option<Entry>
        ensures { IfSome result (λ entry.
            IsBehind self.now operators.now marks.now count start locals left_out entry) }
    {
        let begin = u32::try_from(start.checked_sub(self.origin as usize)?).ok()?;
        let end = begin.checked_add(u32::try_from(operators.len()).ok()?)?;
        let held = bytes_between(self.bytes.as_ref(), begin as usize, end as usize);
        if !are_same(held, operators) {
            return None;
        }
        let first_mark = u32::try_from(self.marks.len()).ok()?;
        Some(Entry {
            begin,
            end,
            first_mark,
            last_mark: first_mark.checked_add(u32::try_from(marks.len()).ok()?)?,
            count: u32::try_from(count).ok()?,
            locals,
            left_out: left_out.packed()?,
        })
    }

    /// Adds, behind these bodies, the one whose operators are these bytes, which begin at `start` of the input, of a function of so many
    /// locals. If it isn't plain or names more than the limits allow, it stands there without operators. Where the locals that the function
    /// declares stand by the ranks of their types, `ranked` is the index of the first of them, as [`first_ranked`] answers it; none where that
    /// isn't known.
    ///
    /// # Errors
    ///
    /// `AllocError` where no memory is left. Then no body is added.
    pub fn scan(
        &mut self,
        operators: &[u8],
        start: usize,
        locals: u32,
        ranked: Option<u32>,
        room: &mut ScanRoom,
    ) -> Result<(), AllocError>
        ensures { limits_in self.new ≡ limits_in self.old }
    {
        let limits = with_locals(self.limits, locals);
        match scan_body(operators, &limits, ranked, room)? {
            Some(count) => {
                let left = LeftOut {
                    first: room.unmarked.first,
                    accessed: room.unmarked.accessed,
                };
                self.push(operators, &room.marks, count, start, locals, left)
            }
            None => self.skip(),
        }
    }

    // Adds such a body behind them. Where no memory is left for its entry, its marks stay behind those of the others, and none names them.
    fn push(
        &mut self,
        operators: &[u8],
        marks: &[u32],
        count: usize,
        start: usize,
        locals: u32,
        left_out: LeftOut,
    ) -> Result<(), AllocError>
        requires plain { IsPlainBody (with_locals self.old.limits locals) left_out operators.now marks.now
            count }
        ensures { limits_in self.new ≡ limits_in self.old }
    {
        let Some(entry) = self.entry_behind(operators, marks, count, start, locals, left_out) else {
            return self.skip();
        };
        self.marks.extend_from_slice(marks)?;
        self.entries.push(entry)?;
        self.operator_bytes = self.operator_bytes.saturating_add(operators.len());
        Ok(())
    }

    /// Adds, behind these bodies, one that isn't plain.
    ///
    /// # Errors
    ///
    /// `AllocError` where no memory is left. Then no body is added.
    pub fn skip(&mut self) -> Result<(), AllocError>
        ensures { limits_in self.new ≡ limits_in self.old }
    {
        self.entries.push(NOWHERE)?;
        Ok(())
    }

    /// These bodies, to be shared by their functions.
    ///
    /// # Errors
    ///
    /// `AllocError` where no memory is left.
    pub fn share(self, alloc: Global) -> Result<Rc<PlainCode>, AllocError>
        ensures { IfOk result (λ code. limits_in code.value ≡ limits_in self) }
    {
        let mut code = self;
        code.marks.shrink_to_fit();
        match Rc::new(alloc, code) {
            Ok(shared) => Ok(shared),
            Err(_) => Err(AllocError),
        }
    }
}
