//! The lengths of numbers (Binary Format > Values > Integers), in bytes.

ghost use Rattle.std.specs.Prelude.{◌≡◌, ◌≤◌, ◌⊎◌, Bool, length};
ghost use Rattle.wasm_forms.specs.Spelling.{groups, number_bytes, integer_bytes, index_bytes};

/// How many groups of seven bits a number has whose last group is below `stop`.
#[inline]
fn groups_len(stop: u64, number: u64) -> u32
    requires { (stop ≡ 64) ⊎ (stop ≡ 128) }
    ensures written { (below : Bool) → result ≡ length (groups below stop 9 number) }
    ensures short { result ≤ 10 }
{
    let mut len: u32 = 1;
    let mut left = number;
    'groups: while left >= stop {
        left /= 128;
        len += 1;
    }
    len
}

/// How many bytes the shortest spelling of an unsigned number has (Binary Format > Values > Integers, uN).
#[inline]
pub fn number_len(value: u64) -> u32
    ensures written { result ≡ length (number_bytes value) }
    ensures short { result ≤ 10 }
{
    groups_len(128, value)
}

/// How many bytes the shortest spelling of a signed number has (Binary Format > Values > Integers, sN).
pub fn integer_len(value: i64) -> u32
    ensures written { result ≡ length (integer_bytes value) }
    ensures short { result ≤ 10 }
{
    if value < 0 {
        groups_len(64, (-1 - value) as u64)
    } else {
        groups_len(64, value as u64)
    }
}

/// How many bytes the shortest s33 with the value of an index has (Binary Format > Types > Heap Types).
pub fn index_len(index: u32) -> u32
    ensures written { result ≡ length (index_bytes index) }
    ensures short { result ≤ 10 }
{
    groups_len(64, u64::from(index))
}
