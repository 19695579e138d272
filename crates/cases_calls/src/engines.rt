use case_files::{Fields, Reading};
use cases_messages::read_request;
use cases_values::memory_engine_of;
use engine_types::Request;
use memory_engine::MemoryEngine;
use tree_base::{List, Memory, Tree};

/// The Engine of the field `engine`, whose containers are those of the project `shop` where they name no other; a
/// fresh one where the field isn't there. None, which is kept, where there can be none.
pub fn engine_at(reading: &mut Reading, fields: &Fields) -> Option<MemoryEngine> {
    match reading.fields(fields, "engine") {
        Some(engine) => {
            let project = reading.text("shop");
            memory_engine_of(reading, &engine, &project)
        }
        None => fresh_engine(reading),
    }
}

fn fresh_engine(reading: &mut Reading) -> Option<MemoryEngine> {
    let fresh = MemoryEngine::fresh(reading.alloc);
    reading.made(fresh)
}

/// The Engine of a call: that of the field `engine`, else the one that an earlier call left, else a fresh one; after it
/// served the requests of `served`.
pub fn engine_for(
    reading: &mut Reading,
    fields: &Fields,
    engines: &mut List<MemoryEngine>,
) -> Option<MemoryEngine> {
    let mut engine = first_engine(reading, fields, engines)?;
    serve_each(reading, fields, &mut engine);
    Some(engine)
}

fn first_engine(
    reading: &mut Reading,
    fields: &Fields,
    engines: &mut List<MemoryEngine>,
) -> Option<MemoryEngine> {
    if fields.has("engine") {
        engine_at(reading, fields)
    } else {
        match engines.pop() {
            Some(engine) => Some(engine),
            None => fresh_engine(reading),
        }
    }
}

fn serve_each(reading: &mut Reading, fields: &Fields, engine: &mut MemoryEngine) {
    for tree in reading.items(fields, "served") {
        let request = request_in(reading, tree, "served");
        serve(reading, &request, engine);
        drop(request);
    }
}

fn serve(reading: &mut Reading, request: &Request, engine: &mut MemoryEngine) {
    match engine.serve(reading.alloc, request) {
        Ok(reply) => drop(reply),
        Err(Memory) => reading.memory(),
    }
}

/// The request of a part of a case, which is the line of one.
pub fn request_in(reading: &mut Reading, tree: &Tree, what: &str) -> Request {
    let line = reading.text_of(tree, what);
    read_request(reading, line.as_str())
}
