//! Plays a scene. What owns the module makes all calls that take a whole one.

use crate::calls::make;
use crate::exchanged::exchange_first;
use crate::page::Page;
use crate::scenes::Scene;
use crate::seen::{compare, look_at};
use crate::steps::Step;
use crate::written::{tell_either, tell_lengths, tell_written};
use walrus::passes::{Used, gc};
use walrus::{Module, ModuleConfig, Result};

// Whether it is told behind a step whether the module is as it was.
fn is_compared(step: Step) -> bool {
    matches!(
        step,
        Step::Try(_) | Step::Search | Step::Collect | Step::Emit | Step::EmitEither
    )
}

/// Tells the answers of a scene, in the module that these bytes are, or in one that holds nothing where there are none.
pub fn play(page: &mut Page, scene: &Scene, input: &[u8]) -> Result<()> {
    let alloc = page.alloc();
    let mut config = ModuleConfig::new();
    config.generate_producers_section(false);
    let opened = if input.is_empty() {
        Module::with_config(alloc, config)
    } else {
        config.parse(alloc, input)
    };
    let mut module = match opened {
        Ok(module) => module,
        Err(refusal) => return Err(refusal),
    };
    for step in scene.steps {
        let before = look_at(alloc, &module);
        let end = match *step {
            Step::Make(calls) | Step::Try(calls) => make(page, &mut module, calls),
            Step::Search => page.ended("searched", Used::new(alloc, &module)),
            Step::Collect => page.ended("collected", gc::run(alloc, &mut module)),
            Step::Emit => tell_written(page, module.emit_wasm(alloc)),
            Step::EmitEither => tell_either(page, module.emit_wasm(alloc)),
            Step::Measure => tell_lengths(page, module.emit_wasm(alloc)),
            Step::Exchange => exchange_first(page, &mut module.funcs, input),
        };
        let end = match end {
            Ok(()) if is_compared(*step) => compare(page, &module, &before),
            other => other,
        };
        if end.is_err() {
            return end;
        }
    }
    Ok(())
}
