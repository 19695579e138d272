use crate::members::{number_tree, text_tree, texts_tree};
use case_files::{Answers, Fields, Reading};
use cases_ground::{Entries, Items};
use engine_types::{Declared, DeclaredService};
use tree_base::{Map, Memory, Tree};

/// Puts the services, each as what is wanted at its place: the members that a mapping names, or else its key.
pub(crate) fn put_services(declared: &Declared, fields: &Fields, answers: &mut Answers) {
    if fields.has("services") {
        let wanted = answers.reading.items(fields, "services");
        let services = services_tree(&mut answers.reading, declared, wanted);
        answers.put_made("services", services);
    }
}

fn services_tree(
    reading: &mut Reading,
    declared: &Declared,
    wanted: &[Tree],
) -> Result<Tree, Memory> {
    let mut services = Items::new(reading.alloc);
    for (at, service) in declared.services.as_slice().iter().enumerate() {
        services.tree(service_tree(reading, service, wanted.get(at)));
    }
    services.whole()
}

fn service_tree(
    reading: &mut Reading,
    service: &DeclaredService,
    wanted: Option<&Tree>,
) -> Result<Tree, Memory> {
    match wanted {
        Some(Tree::Map(wanted)) => service_members(reading, service, wanted.get()),
        _ => text_tree(reading.alloc, service.key.as_str()),
    }
}

fn service_members(
    reading: &mut Reading,
    service: &DeclaredService,
    wanted: &Map,
) -> Result<Tree, Memory> {
    let mut members = Entries::new(reading.alloc);
    for name in wanted.keys() {
        let member = service_member(reading, service, name.as_str());
        members.tree(name.as_str(), member);
    }
    members.whole()
}

fn service_member(
    reading: &mut Reading,
    service: &DeclaredService,
    name: &str,
) -> Result<Tree, Memory> {
    let alloc = reading.alloc;
    match name {
        "key" => text_tree(alloc, service.key.as_str()),
        "depends_on" => texts_tree(alloc, service.depends_on.as_slice()),
        "roll" => match service.roll {
            Some(roll) => number_tree(alloc, u64::from(roll)),
            None => Ok(Tree::Null),
        },
        _ => {
            reading.refuse_word("a member of a service", name);
            Ok(Tree::Null)
        }
    }
}
