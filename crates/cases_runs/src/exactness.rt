use case_files::{Answers, Fields};
use cases_values::{declared_of, engine_of};
use engine_types::{Declared, Engine};
use world_laws::exact as is_exact;

/// Whether an Engine holds exactly what is declared: where orphans may stay, `with_orphans`, and where they may not,
/// `without_orphans`.
pub(crate) fn exact(fields: &Fields, answers: &mut Answers) {
    if let Some(of) = answers.reading.fields_at(fields, "exact") {
        let declared = declared_of(&mut answers.reading, &of);
        exact_of(fields, &declared, answers);
        drop(declared);
    }
}

fn exact_of(fields: &Fields, declared: &Declared, answers: &mut Answers) {
    if let Some(of) = answers.reading.fields_at(fields, "engine") {
        let engine = engine_of(&mut answers.reading, &of, &declared.project);
        put_exact("with_orphans", declared, &engine, false, answers);
        put_exact("without_orphans", declared, &engine, true, answers);
        drop(engine);
    }
}

fn put_exact(
    name: &str,
    declared: &Declared,
    engine: &Engine,
    orphans: bool,
    answers: &mut Answers,
) {
    let told = is_exact(answers.reading.alloc, declared, engine, orphans);
    answers.put_told(name, told);
}
