//! The one number of an instruction that is a prefix byte and a number behind it (Binary Format > Instructions).

ghost use Rattle.std.specs.Prelude.{◌≡◌, ◌<◌};
ghost use Rattle.wasm_opcodes.specs.Prefixed.{opcode_behind};

/// The opcode of an instruction that is a prefix byte and this number behind it: the byte times 65,536, and the number.
#[inline]
pub fn behind(prefix: u32, number: u32) -> u32
    requires prefix { prefix < 256 }
    requires number { number < 65536 }
    ensures { result ≡ opcode_behind prefix number }
{
    prefix * 65_536 + number
}
