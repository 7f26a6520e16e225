//! Scenes over the calls of `walrus`, to be played while one request for memory fails.
//! Each call that lacks memory has to leave the module as it was, and made again it gives what ample memory gives.
//! Without a failed request each scene has to give that as well.
//!
//! Read first: `src/scenes.rt` (the scenes and their bytes) and `src/play.rt` (how a scene is played).
//! It has no clause of its own: its scenes compare modules before and behind a call, and the bytes that come out.
#![tactic(auto)]

mod adds;
mod noted;
mod play;
mod replaced;
mod scenes;
mod seen;
mod steps;

use play::{imported, played};
use scenes::{SCENES, Scene};
use std::alloc::Global;
use std::process::ExitCode;
use steps::{Outcome, Step};
use test_support::add_bytes;

// What comes of a scene, where memory suffices for the texts of its bytes.
fn outcome(alloc: Global, scene: &Scene) -> Outcome {
    let mut input = Vec::new(alloc);
    let mut output = Vec::new(alloc);
    if !(add_bytes(&mut input, scene.input) && add_bytes(&mut output, scene.output)) {
        return Outcome::Lacks;
    }
    match scene.steps.first() {
        Some(Step::Import(_)) => imported(alloc, scene, &input, &output),
        _ => played(alloc, scene, &input, &output),
    }
}

// Whether a scene stands, which is played again from its beginning where memory failed outside of the calls that it makes. One request fails, so
// that it does so once.
fn stands(alloc: Global, scene: &Scene) -> bool {
    let at_last = match outcome(alloc, scene) {
        Outcome::Lacks => outcome(alloc, scene),
        other => other,
    };
    matches!(at_last, Outcome::Stands)
}

// Whether the line is told, if need be at the second try.
fn told(rt: &impl Print, line: &str) -> bool {
    rt.println(line).is_ok() || rt.println(line).is_ok()
}

fn main(rt: HostRuntime) -> ExitCode {
    for scene in &SCENES {
        if !stands(rt.alloc(), scene) {
            let _ = told(&rt, scene.name);
            return ExitCode::from(1);
        }
    }
    ExitCode::from(if told(&rt, "all stands") { 0 } else { 1 })
}
