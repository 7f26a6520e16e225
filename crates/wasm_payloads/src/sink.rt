//! Who takes the namings of a module.

ghost use Rattle.std.specs.Prelude.{◌≡◌, ℕ, Bool, OnOk, OnErr, IfErr};
ghost use Rattle.wasm_forms.specs.declared.error.WireError.{WireError};
ghost use Rattle.wasm_payloads.specs.Names.{Named, named};

use crate::naming::Naming;
use wasm_forms::WireError;

/// Takes namings, one after the other.
///
/// What it makes of them is a set of definitions over its value alone, the ghost members; each method answers by them.
pub trait NameSink {
    // What it shows of the namings that it took: the list of them, say.
    ghost Seen: { Type 0 };

    ghost seen: { Self → Seen };

    // What it shows once it took one more.
    ghost after: { Seen → Named → Seen };

    // Which functions there are.
    ghost known: { Self → ℕ → Bool };

    // With which errors it may refuse a naming, as it is then.
    ghost refuses: { Self → Named → WireError → Type 0 };

    /// Whether there is a function with this index.
    fn function_known(&self, index: u32) -> bool
        ensures { result ≡ known self.now index };

    /// Takes a naming; the functions stay. Refused, it shows what it showed before.
    fn naming(&mut self, naming: Naming<'_>) -> Result<(), WireError>
        ensures taken { OnOk result (seen self.new ≡ after (seen self.old) (named naming.entry)) }
        ensures same_known { known self.new ≡ known self.old }
        ensures same_seen { OnErr result (seen self.new ≡ seen self.old) }
        ensures refused { IfErr result (λ e. refuses self.new (named naming.entry) e) };
}
