use case_files::{Line, Lines};
use engine_types::{Listed, NetRow, Reply};
use std::alloc::Global;
use tree_base::Var;

/// The lines of a listing's rows, each with all that is told: of a container `ID NAME image IMAGE`, the `labels`
/// and the networks that it is `on`, of a network `ID NAME` and the `labels`. None of another reply.
pub(crate) fn row_lines(alloc: Global, reply: &Reply) -> Lines {
    match reply {
        Reply::Containers(rows) => container_lines(alloc, rows.as_slice()),
        Reply::Networks(rows) => network_lines(alloc, rows.as_slice()),
        _ => Lines::new(alloc),
    }
}

fn container_lines(alloc: Global, rows: &[Listed]) -> Lines {
    let mut lines = Lines::new(alloc);
    for row in rows {
        lines.push(container_line(alloc, row));
    }
    lines
}

fn container_line(alloc: Global, row: &Listed) -> Line {
    let mut line = Line::of_word(alloc, row.id.as_str());
    line.word(row.name.as_str());
    line.word("image");
    line.word(row.image_id.as_str());
    say_labels(&mut line, row.labels.as_slice());
    line.word("on");
    line.words(row.networks.as_slice());
    line
}

fn network_lines(alloc: Global, rows: &[NetRow]) -> Lines {
    let mut lines = Lines::new(alloc);
    for row in rows {
        lines.push(network_line(alloc, row));
    }
    lines
}

fn network_line(alloc: Global, row: &NetRow) -> Line {
    let mut line = Line::of_word(alloc, row.id.as_str());
    line.word(row.name.as_str());
    say_labels(&mut line, row.labels.as_slice());
    line
}

/// Says labels, each as `NAME=VALUE`.
fn say_labels(line: &mut Line, labels: &[Var]) {
    line.word("labels");
    for label in labels {
        say_label(line, label);
    }
}

fn say_label(line: &mut Line, label: &Var) {
    line.word(label.name.as_str());
    line.put("=");
    line.put(label.value.as_str());
}
