ghost use Rattle.std.specs.Prelude.{◌≡◌, ◌<◌, ◌^◌, None, length};
ghost use Rattle.service_graph.specs.Cycles.{cycle};
ghost use Rattle.typed_project.specs.DistinctNames.{IsKeyed};

use crate::files::sound_files_of;
use crate::scene::Scene;
use crate::stage::Stage;
use asked_project::{Asked, Command, project_asked};
use asked_run::declared_asked;
use case_files::{Answers, Fields, Lines, Reading};
use cases_messages::exchange_lines;
use cases_values::{engine_lines, journal_lines};
use compose_cli::Ended;
use engine_hand::MemoryHand;
use engine_types::{Declared, Engine};
use outside_files::MemoryFiles;
use std::alloc::Global;
use world_laws::exact;

/// Puts what came of a whole call.
pub fn put_call(
    fields: &Fields,
    scene: &Scene,
    ended: &Ended<MemoryHand>,
    stage: &Stage,
    answers: &mut Answers,
)
    requires words { length scene.now.words < 2 ^ 32 }
{
    put_ended(ended.status, stage, answers);
    answers.put_lines(
        "journal",
        journal_lines(answers.reading.alloc, ended.journal.as_slice()),
    );
    answers.put_number("entries", ended.journal.len() as u64);
    answers.put_number("hands", ended.hands.len() as u64);
    match ended.hands.as_slice().first() {
        Some(hand) => put_hand(fields, scene, hand, answers),
        None => put_no_hand(answers),
    }
}

/// Puts the exit status of a call and what its sinks took.
fn put_ended(status: u8, stage: &Stage, answers: &mut Answers) {
    answers.put_number("status", u64::from(status));
    answers.put_bytes("out", stage.out.written());
    answers.put_bytes("err", stage.err.written());
}

/// No exchange, and an Engine of which nothing is known.
fn put_no_hand(answers: &mut Answers) {
    answers.put_lines("exchanges", Lines::new(answers.reading.alloc));
    answers.put_null("exact");
    answers.put_null("engine_after");
}

fn put_hand(fields: &Fields, scene: &Scene, hand: &MemoryHand, answers: &mut Answers)
    requires words { length scene.now.words < 2 ^ 32 }
{
    let alloc = answers.reading.alloc;
    let engine = &hand.engine.engine;
    answers.put_lines("exchanges", exchange_lines(alloc, hand.log()));
    answers.put_lines("engine_after", engine_lines(alloc, engine));
    put_exact(fields, scene, engine, answers);
}

/// What a call declares, and whether orphans are to go.
#[derive(Drop)]
struct Wanted {
    declared: Declared,
    orphans: bool,
}

/// Puts whether an Engine holds exactly what the project of a call declares; null where the call is refused.
fn put_exact(fields: &Fields, scene: &Scene, engine: &Engine, answers: &mut Answers)
    requires words { length scene.now.words < 2 ^ 32 }
{
    match wanted_in(&mut answers.reading, fields, scene) {
        Some(Wanted { declared, orphans }) => {
            let told = exact(answers.reading.alloc, &declared, engine, orphans);
            drop(declared);
            answers.put_told("exact", told);
        }
        None => answers.put_null("exact"),
    }
}

/// What a call declares, by files of which every read goes well; None where it is refused.
fn wanted_in(reading: &mut Reading, fields: &Fields, scene: &Scene) -> Option<Wanted>
    requires words { length scene.now.words < 2 ^ 32 }
{
    let mut files = sound_files_of(reading, fields, scene.directory.as_str());
    let wanted = wanted_of(reading.alloc, scene, &mut files);
    drop(files);
    wanted
}

fn wanted_of(alloc: Global, scene: &Scene, files: &mut MemoryFiles) -> Option<Wanted>
    requires words { length scene.now.words < 2 ^ 32 }
{
    match project_asked(alloc, &scene.words, &scene.env, &scene.directory, files) {
        Ok(asked) => {
            let wanted = wanted_for(alloc, &asked, files);
            drop(asked);
            wanted
        }
        Err(refusal) => {
            drop(refusal);
            None
        }
    }
}

fn wanted_for(alloc: Global, asked: &Asked, files: &mut MemoryFiles) -> Option<Wanted>
    requires keyed { IsKeyed asked.now.loaded.project }
    requires acyclic { cycle asked.now.loaded.project.services ≡ None }
{
    let command = &asked.options.command;
    match declared_asked(alloc, command, &asked.loaded, files) {
        Ok(declared) => Some(Wanted {
            declared,
            orphans: goes_for_orphans(command),
        }),
        Err(refusal) => {
            drop(refusal);
            None
        }
    }
}

/// Whether a command removes orphans. No memory.
fn goes_for_orphans(command: &Command) -> bool {
    match command {
        Command::Up { orphans, .. } | Command::Down { orphans, .. } => *orphans,
        _ => false,
    }
}
