ghost use Rattle.std.specs.Prelude.{◌≡◌, ◌<◌, ◌^◌, Some, length};

use crate::call_answers::put_call;
use crate::dials::put_dials;
use crate::engines::engine_for;
use crate::files::put_reads;
use crate::scene::{Scene, scene_of};
use crate::stage::{Stage, stage_of};
use case_files::{Answers, Fields, Reading};
use compose_cli::{Ended, serial_main};
use engine_hand::{MemoryHand, MemoryPlug};
use memory_engine::MemoryEngine;
use outside_api::{DialAnswer, Plug, Target};
use std::alloc::Global;
use tree_base::List;

/// Makes a whole call on an Engine in memory: `status` has its exit status, `out` and `err` what was written, `journal`
/// its journal, `entries` how many entries this has, `hands` how many hands it made, `exchanges` what they exchanged,
/// `exact` whether the Engine then holds exactly what the project declares, and `engine_after` that Engine.
pub fn call(fields: &Fields, answers: &mut Answers) {
    let mut engines = List::new(answers.reading.alloc);
    call_on(fields, &mut engines, answers);
}

/// Makes the call of some fields on the Engine that an earlier call left, unless they have an Engine of their own, and
/// leaves the Engine where the call made a hand. Where `no_hand_left` says so, the plug made its one hand before.
pub fn call_on(fields: &Fields, engines: &mut List<MemoryEngine>, answers: &mut Answers) {
    let scene = scene_of(&mut answers.reading, fields, "call");
    call_in(fields, &scene, engines, answers);
    drop(scene);
}

fn call_in(fields: &Fields, scene: &Scene, engines: &mut List<MemoryEngine>, answers: &mut Answers)
    requires words { length scene.now.words < 2 ^ 32 }
{
    let used = answers.reading.flag(fields, "no_hand_left");
    if let Some(engine) = engine_for(&mut answers.reading, fields, engines) {
        let mut plug = MemoryPlug::new(answers.reading.alloc, engine, 1);
        if used {
            call_used(fields, scene, &mut plug, engines, answers);
        } else {
            call_with(fields, scene, &mut plug, 0, engines, answers);
        }
        drop(plug);
    }
}

/// Makes a call with a plug whose one hand was made before.
fn call_used(
    fields: &Fields,
    scene: &Scene,
    plug: &mut MemoryPlug,
    engines: &mut List<MemoryEngine>,
    answers: &mut Answers,
)
    requires words { length scene.now.words < 2 ^ 32 }
    requires told { ⟦<MemoryPlug as Plug>⟧.dialled plug.old ≡ Some 0 }
{
    match plug.dial(answers.reading.alloc, &Target::InMemory, None, 0) {
        DialAnswer::Dialled(hand) => {
            drop(hand);
            call_with(fields, scene, plug, 1, engines, answers);
        }
        _ => answers.reading.memory(),
    }
}

/// Makes a call with a plug that made so many hands.
fn call_with(
    fields: &Fields,
    scene: &Scene,
    plug: &mut MemoryPlug,
    dialled: u64,
    engines: &mut List<MemoryEngine>,
    answers: &mut Answers,
)
    requires words { length scene.now.words < 2 ^ 32 }
    requires told { ⟦<MemoryPlug as Plug>⟧.dialled plug.old ≡ Some dialled }
    requires below { dialled < 2 ^ 61 }
{
    if let Some(mut stage) = stage_of(&mut answers.reading, fields, scene.directory.as_str()) {
        let ended = top_call(answers.reading.alloc, scene, &mut stage, plug, dialled);
        put_call(fields, scene, &ended, &stage, answers);
        put_dials(plug.dials(), answers);
        put_reads(stage.files.reads(), answers);
        drop(stage);
        leave_engine(&mut answers.reading, ended, engines);
    }
}

/// What came of the top call.
fn top_call(
    alloc: Global,
    scene: &Scene,
    stage: &mut Stage,
    plug: &mut MemoryPlug,
    dialled: u64,
) -> Ended<MemoryHand>
    requires words { length scene.now.words < 2 ^ 32 }
    requires told { ⟦<MemoryPlug as Plug>⟧.dialled plug.old ≡ Some dialled }
    requires below { dialled < 2 ^ 61 }
{
    let Scene {
        words,
        env,
        directory,
    } = scene;
    let Stage { out, err, files } = stage;
    serial_main(alloc, words, env, directory, files, plug, out, err)
}

/// Leaves the Engine of the hand that a call handed back.
fn leave_engine(reading: &mut Reading, ended: Ended<MemoryHand>, engines: &mut List<MemoryEngine>) {
    let Ended {
        hands,
        journal,
        refusal,
        ..
    } = ended;
    drop(journal);
    drop(refusal);
    if let Some(engine) = engine_in(hands) {
        reading.push(engines, engine);
    }
}

/// The Engine of the last hand.
fn engine_in(mut hands: List<MemoryHand>) -> Option<MemoryEngine> {
    let MemoryHand { engine, .. } = hands.pop()?;
    Some(engine)
}
