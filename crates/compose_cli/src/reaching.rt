ghost use Rattle.std.specs.Prelude.{◌≡◌, IfOk, Ok, Some};
ghost use Rattle.asked_target.specs.Targets.{asked_stop_file, asked_target};
ghost use Rattle.compose_cli.specs.Reaching.{IsReachable};

use asked_target::{asked_stop_file, asked_target};
use compose_words::{Options, WordsRefusal};
use outside_api::Target;
use std::alloc::Global;
use tree_base::{Env, Memory, Text};

/// Where a run is: the Engine that it speaks with, and the file whose coming asks it to stop.
#[derive(Drop)]
pub struct Place {
    pub target: Target,
    pub stop_file: Option<Text>,
}

/// Where the run is that options ask for, whose socket is one that can be reached. Memory where there is none for the paths.
pub fn place_asked(
    alloc: Global,
    options: &Options,
    env: &Env,
    directory: &Text,
) -> Result<Place, Memory>
    requires reachable { IsReachable options.now env.now directory.now }
    ensures target { IfOk result (λ place.
        asked_target options.now env.now directory.now ≡ Ok (Some place.target)) }
    ensures stop_file { IfOk result (λ place.
        place.stop_file ≡ asked_stop_file options.now directory.now) }
{
    let target = target_asked(alloc, options, env, directory)?;
    let stop_file = asked_stop_file(alloc, options, directory)?;
    Ok(Place { target, stop_file })
}

/// The Engine that the options of a run ask for.
fn target_asked(
    alloc: Global,
    options: &Options,
    env: &Env,
    directory: &Text,
) -> Result<Target, Memory>
    requires reachable { IsReachable options.now env.now directory.now }
    ensures { IfOk result (λ target.
        asked_target options.now env.now directory.now ≡ Ok (Some target)) }
{
    match asked_target(alloc, options, env, directory) {
        Ok(Some(target)) => Ok(target),
        Ok(None) => unreachable!(),
        Err(WordsRefusal::Memory) => Err(Memory),
        Err(_) => unreachable!(),
    }
}
