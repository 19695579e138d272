use case_files::{Line, Lines};
use cases_messages::{say_id, say_report};
use engine_types::{ContainerRow, Engine, ImageRow, NetRow};
use std::alloc::Global;
use tree_base::Text;

/// What an Engine holds, a line each: first the containers, as `container ID NAME STATE [CODE] [HEALTH] [on NETWORK..]`, the
/// networks by their ids; then `network ID NAME`, `volume NAME` and `image NAME ID`.
pub fn engine_lines(alloc: Global, engine: &Engine) -> Lines {
    let mut lines = Lines::new(alloc);
    push_containers(alloc, engine.containers.as_slice(), &mut lines);
    push_networks(alloc, engine.networks.as_slice(), &mut lines);
    push_volumes(alloc, engine.volumes.as_slice(), &mut lines);
    push_images(alloc, engine.images.as_slice(), &mut lines);
    lines
}

fn push_containers(alloc: Global, rows: &[ContainerRow], lines: &mut Lines) {
    for row in rows {
        let mut line = line_of(alloc, "container", &row.id, &row.name);
        say_report(&mut line, &row.report);
        say_networks(&mut line, row.networks.as_slice());
        lines.push(line);
    }
}

fn say_networks(line: &mut Line, ids: &[Text]) {
    if !ids.is_empty() {
        line.word("on");
    }
    for id in ids {
        say_id(line, id.as_str());
    }
}

fn push_networks(alloc: Global, rows: &[NetRow], lines: &mut Lines) {
    for row in rows {
        lines.push(line_of(alloc, "network", &row.id, &row.name));
    }
}

/// The line of what has an id and a name.
fn line_of(alloc: Global, what: &str, id: &Text, name: &Text) -> Line {
    let mut line = Line::new(alloc);
    line.word(what);
    say_id(&mut line, id.as_str());
    line.word(name.as_str());
    line
}

fn push_volumes(alloc: Global, names: &[Text], lines: &mut Lines) {
    for name in names {
        let mut line = Line::new(alloc);
        line.word("volume");
        line.word(name.as_str());
        lines.push(line);
    }
}

fn push_images(alloc: Global, rows: &[ImageRow], lines: &mut Lines) {
    for row in rows {
        let mut line = Line::new(alloc);
        line.word("image");
        line.word(row.name.as_str());
        say_id(&mut line, row.id.as_str());
        lines.push(line);
    }
}
