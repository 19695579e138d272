use crate::forms::refuse_form;
use case_files::{Answers, Fields};
use cases_ground::{Entries, Items};
use short_forms::{Port, read_port};
use std::alloc::Global;
use tree_base::{List, Memory, Tree, TryCopy};

/// `port: TEXT`: its `ports`, and their `count`.
pub(crate) fn port(fields: &Fields, answers: &mut Answers) {
    let text = answers.reading.text_at(fields, "port");
    match read_port(answers.reading.alloc, &text) {
        Ok(ports) => put_ports(&ports, answers),
        Err(refusal) => refuse_form(refusal, answers),
    }
}

fn put_ports(ports: &List<Port>, answers: &mut Answers) {
    answers.put_number("count", ports.len() as u64);
    let copies = ports.copy(answers.reading.alloc);
    if let Some(copies) = answers.reading.made(copies) {
        let tree = ports_tree(answers.reading.alloc, copies.as_slice());
        answers.put_made("ports", tree);
    }
}

fn ports_tree(alloc: Global, ports: &[Port]) -> Result<Tree, Memory> {
    let mut items = Items::new(alloc);
    for port in ports {
        items.tree(port_tree(alloc, port));
    }
    items.whole()
}

fn port_tree(alloc: Global, port: &Port) -> Result<Tree, Memory> {
    let mut entries = Entries::new(alloc);
    entries.text_or_null("host_ip", port.host_ip.as_ref());
    entries.text_or_null("published", port.published.as_ref());
    entries.number("target", u64::from(port.target));
    entries.text("protocol", port.protocol.as_str());
    entries.whole()
}
