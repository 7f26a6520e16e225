//! Scenes over the calls of `walrus`, each of which tells what its calls answer, under a line that says what it shows.
//! The stored run has what they have to answer.
//!
//! Read first: `src/scenes.rt` (the scenes and their steps) and `src/play.rt` (how a scene is played).
//! It has no clause of its own: what its scenes tell is compared with the stored run.
#![tactic(auto)]

mod again;
mod calls;
mod configured;
mod exchanged;
mod exports;
mod imports;
mod locals;
mod made;
mod page;
mod play;
mod scenes;
mod sections;
mod seen;
mod spaces;
mod steps;
mod written;

use again::{TWICE, run_twice};
use page::Page;
use play::play;
use scenes::{SCENES, Scene};
use std::alloc::Global;
use std::process::ExitCode;
use test_support::add_bytes;
use walrus::{Error, Result};

fn tell_scene(page: &mut Page, scene: &Scene) -> Result<()> {
    let mut input = Vec::new(page.alloc());
    if add_bytes(&mut input, scene.input) {
        play(page, scene, &input)
    } else {
        Err(Error::NotFound)
    }
}

fn tell_twice(page: &mut Page, text: &str) -> Result<()> {
    let mut input = Vec::new(page.alloc());
    if add_bytes(&mut input, text) {
        run_twice(page, &input)
    } else {
        Err(Error::NotFound)
    }
}

// Whether all of a scene is told, and printed behind its name.
fn is_shown(rt: &impl Print, name: &str, page: &Page, answer: Result<()>) -> bool {
    rt.println(name).is_ok() && rt.print(page.text()).is_ok() && answer.is_ok()
}

fn is_scene_shown(rt: &impl Print, alloc: Global, scene: &Scene) -> bool {
    let mut page = Page::new(alloc);
    let answer = tell_scene(&mut page, scene);
    is_shown(rt, scene.name, &page, answer)
}

fn is_twice_shown(rt: &impl Print, alloc: Global, name: &str, text: &str) -> bool {
    let mut page = Page::new(alloc);
    let answer = tell_twice(&mut page, text);
    is_shown(rt, name, &page, answer)
}

fn main(rt: HostRuntime) -> ExitCode {
    let alloc = rt.alloc();
    for scene in &SCENES {
        if !is_scene_shown(&rt, alloc, scene) {
            return ExitCode::from(1);
        }
    }
    for (name, text) in &TWICE {
        if !is_twice_shown(&rt, alloc, name, text) {
            return ExitCode::from(1);
        }
    }
    ExitCode::from(0)
}
