use case_files::{Answers, Fields, Reading};
use cases_values::{listed_of, slot_of};
use engine_types::{Declared, DeclaredService, Listed, Slot};
use run_lookups::{agrees, has_declared_service, is_of_slot, names_service};
use tree_base::{List, Text};

/// Whose a container is, by its labels, for a slot of a project whose image has an id: whether it is `of_slot`, `agrees`
/// with it, `names_service`, and names a service of a project that declares the slot's alone, `has_declared_service`.
pub(crate) fn membership(fields: &Fields, answers: &mut Answers) {
    let project = answers.reading.text_at(fields, "project");
    if let Some(of) = answers.reading.fields_at(fields, "container") {
        let row = listed_of(&mut answers.reading, &of, &project);
        membership_of(fields, &project, &row, answers);
        drop(row);
    }
}

fn membership_of(fields: &Fields, project: &Text, row: &Listed, answers: &mut Answers) {
    let image = answers.reading.text_at(fields, "image");
    if let Some(slot) = slot_at(&mut answers.reading, fields, project) {
        put_slot(project, &slot, row, answers);
        put_agreeing(project, &slot, &image, row, answers);
        put_declared_service(slot, row, answers);
    }
}

fn slot_at(reading: &mut Reading, fields: &Fields, project: &Text) -> Option<Slot> {
    let fields = reading.fields_at(fields, "membership")?;
    slot_of(reading, &fields, project)
}

fn put_slot(project: &Text, slot: &Slot, row: &Listed, answers: &mut Answers) {
    let told = is_of_slot(answers.reading.alloc, project, slot, &row.labels);
    answers.put_told("of_slot", told);
    answers.put_flag("names_service", names_service(&slot.service, &row.labels));
}

fn put_agreeing(project: &Text, slot: &Slot, image: &Text, row: &Listed, answers: &mut Answers) {
    let told = agrees(
        answers.reading.alloc,
        project,
        slot,
        image,
        &row.labels,
        &row.image_id,
        row.state,
    );
    answers.put_told("agrees", told);
}

/// Puts whether labels name a service of a project that declares this slot and its service alone.
fn put_declared_service(slot: Slot, row: &Listed, answers: &mut Answers) {
    let declared = declared_alone(&mut answers.reading, slot);
    let has = has_declared_service(&declared, &row.labels);
    drop(declared);
    answers.put_flag("has_declared_service", has);
}

/// A project that declares this slot and its service alone.
fn declared_alone(reading: &mut Reading, slot: Slot) -> Declared {
    let services = alone(reading, &slot.service);
    let mut slots = List::new(reading.alloc);
    reading.push(&mut slots, slot);
    Declared {
        project: Text::new(reading.alloc),
        slots,
        services,
        networks: List::new(reading.alloc),
        volumes: List::new(reading.alloc),
    }
}

/// A service that depends on no other one.
fn alone(reading: &mut Reading, key: &Text) -> List<DeclaredService> {
    let service = DeclaredService {
        key: reading.text(key.as_str()),
        depends_on: List::new(reading.alloc),
        roll: None,
    };
    let mut services = List::new(reading.alloc);
    reading.push(&mut services, service);
    services
}
