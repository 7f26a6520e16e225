//! Reading what a module holds, each operator located as the configuration says.
ghost use Rattle.std.specs.Prelude.{◌≡◌, IfOk, IfErr};
ghost use Rattle.walrus_code.specs.Location.{location, location_at};
ghost use Rattle.walrus_module.specs.Flags.{config_of, flags};
ghost use Rattle.walrus_module.specs.Located.{Gives, MayAnswer};
ghost use Rattle.walrus_reading.specs.Parsed.{AreLocated, HasTypesRead, IsParsed, ItemsAtOwnIds, KeepsCustoms, RefusesBytes, TakenFrom, read_view};
ghost use Rattle.walrus_theorem.specs.Features.{features_of};

use crate::config::ModuleConfig;
use crate::hook::LocationHook;
use std::alloc::Global;
use std::rc::Rc;
use walrus_code::InstrLocId;
use walrus_items::Result;
use walrus_reading::{ReadModule, read};

impl LocationHook {
    // What the caller's function answers for a place.
    fn locate(&self, place: &usize) -> InstrLocId
        ensures { MayAnswer self.now place.now result }
    {
        (self.call)(place)
    }
}

impl ModuleConfig {
    // What is read of the bytes, refused as by [`ModuleConfig::parse`]; `whole` are the same bytes, where they may be shared.
    pub(crate) fn read(
        &self,
        alloc: Global,
        bytes: &[u8],
        whole: Option<&Rc<Vec<u8>>>,
    ) -> Result<ReadModule>
        ensures found { IfOk result (λ m. IsParsed (config_of (flags self.now)) bytes.now (read_view m)) }
        ensures refused { IfErr result (RefusesBytes (config_of (flags self.now)) bytes.now) }
        ensures taken { IfOk result (λ m. TakenFrom (features_of (config_of (flags self.now))) bytes.now
            m.contents) }
        ensures own_ids { IfOk result (λ m. ItemsAtOwnIds m.contents) }
        ensures located { IfOk result (λ m. AreLocated (Gives self.now) bytes.now m.contents.funcs) }
        ensures kept { IfOk result (λ m. KeepsCustoms bytes.now m.customs.items) }
        ensures counted { IfOk result (λ m. HasTypesRead bytes.now m.type_count) }
    {
        let features = self.switches.features();
        let synthetic = self.switches.generate_synthetic_names;
        match &self.on_instr_loc {
            Some(hook) => {
                let locate = |place: &usize| -> InstrLocId
                    ensures { MayAnswer hook.entry.now place.now result }
                { hook.locate(place) };
                read(alloc, bytes, whole, features, synthetic, false, &locate)
            }
            None => {
                let locate = |place: &usize| -> InstrLocId
                    ensures { location result ≡ location_at place.now }
                { InstrLocId::of_place(*place) };
                read(alloc, bytes, whole, features, synthetic, true, &locate)
            }
        }
    }
}
