//! The limits of tables and memories ("Validation > Types > Limits", "Memory Types").
ghost use Rattle.std.specs.Prelude.{◌≡◌, true};
ghost use Rattle.std.specs.List.{list_all};
ghost use Rattle.walrus_base.specs.Arena.{items};
ghost use Rattle.walrus_items.specs.Memories.{memories, memory_value};
ghost use Rattle.walrus_items.specs.Tables.{tables};
ghost use Rattle.walrus_module.specs.Tested.{is_at_most, is_exponent, maximum_is_at_most, memory_is_limited, most_pages, pages_are_few, table_is_limited};

use walrus_items::{Memory, ModuleMemories, ModuleTables};

// Whether a minimum is at most its maximum, where there is one.
fn is_at_most(minimum: u64, maximum: Option<u64>) -> bool
    ensures { result ≡ is_at_most minimum maximum }
{
    match maximum {
        Some(most) => minimum <= most,
        None => true,
    }
}

// Whether each table has limits that are allowed.
pub(crate) fn are_tables_limited(all: &ModuleTables) -> bool
    ensures { result ≡ list_all table_is_limited (items (tables all.now)) }
{
    for table in all.iter() {
        if !is_at_most(table.initial, table.maximum) {
            return false;
        }
    }
    true
}

// Whether the exponent of a page size is one of the two that are allowed.
fn is_exponent(page: Option<u32>) -> bool
    ensures { result ≡ is_exponent page }
{
    match page {
        None => true,
        Some(exponent) => exponent == 0 || exponent == 16,
    }
}

// The most pages of a memory, where its page size is one that is allowed.
fn most_pages(wide: bool, page: Option<u32>) -> u128
    requires { is_exponent page ≡ true }
    ensures { result ≡ most_pages wide page }
{
    match (wide, page) {
        (false, Some(0)) => 1 << 32,
        (false, _) => 1 << 16,
        (true, Some(0)) => 1 << 64,
        (true, _) => 1 << 48,
    }
}

// Whether a maximum is at most this, where there is one.
fn maximum_is_at_most(maximum: Option<u64>, most: u128) -> bool
    ensures { result ≡ maximum_is_at_most maximum most }
{
    match maximum {
        Some(pages) => u128::from(pages) <= most,
        None => true,
    }
}

// Whether a memory has no more pages than its addresses reach, where its page size is one that is allowed.
fn are_pages_few(memory: &Memory) -> bool
    requires { is_exponent (memory_value memory.now).page_size_log2 ≡ true }
    ensures { result ≡ pages_are_few (memory_value memory.now) }
{
    let most = most_pages(memory.memory64, memory.page_size_log2);
    u128::from(memory.initial) <= most && maximum_is_at_most(memory.maximum, most)
}

// Whether a memory has limits that are allowed.
fn is_memory_limited(memory: &Memory) -> bool
    ensures { result ≡ memory_is_limited (memory_value memory.now) }
{
    is_at_most(memory.initial, memory.maximum)
        && (!memory.shared || memory.maximum.is_some())
        && is_exponent(memory.page_size_log2)
        && are_pages_few(memory)
}

// Whether each memory has.
pub(crate) fn are_memories_limited(all: &ModuleMemories) -> bool
    ensures { result ≡ list_all memory_is_limited (items (memories all.now)) }
{
    for memory in all.iter() {
        if !is_memory_limited(memory) {
            return false;
        }
    }
    true
}
