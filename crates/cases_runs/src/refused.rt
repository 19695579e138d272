use crate::ending::put_refusal_line;
use case_files::{Answers, Fields, Reading};
use cases_values::run_fault_of;
use refusals::{
    ActiveRefusal, DigestRefusal, IdentityRefusal, LoadRefusal, Part, ProjectRefusal, Refusal,
    Unbuilt, WordsRefusal, refusal_of, status_of,
};
use tree_base::{Place, Tree};
use yaml_lines::{YamlFault, YamlRefusal};

/// What a refusal prints, `line`, and its exit `status`; `none: true` is no refusal. It is that of a run's fault, by the
/// keys of `run_fault_of`, or another one: `words` with the name of their refusal, and its place `at` where it has one;
/// `not_built: words` or `run`, or `not_built` with the steps of a path, `[12]` for a place; `load` with the fault's name and
/// a `path`, and `line` and `column` where it is one of a text; `name`, a project's name that is none; `disabled`, a
/// dependency of a `service` that isn't enabled; `services`, how many there are too many; `digest` with the fault's name and
/// a `path`; `unknown_scale`, a service that isn't there, `needs`, how many there are too many, or `name_twice`;
/// `outside: Plug` or `Out`.
pub(crate) fn refusal(fields: &Fields, answers: &mut Answers) {
    if let Some(fields) = answers.reading.fields_at(fields, "refusal") {
        let refusal = refusal_where(&mut answers.reading, &fields);
        put_refusal(&refusal, answers);
        drop(refusal);
    }
}

/// The refusal of a mapping, None where it says so.
fn refusal_where(reading: &mut Reading, fields: &Fields) -> Option<Refusal> {
    if fields.has("none") {
        None
    } else {
        Some(refusal_by(reading, fields))
    }
}

fn put_refusal(refusal: &Option<Refusal>, answers: &mut Answers) {
    answers.put_number("status", u64::from(status_of(refusal)));
    if let Some(refusal) = refusal {
        put_refusal_line("line", refusal, answers);
    }
}

/// The refusal of a mapping: that of a run's fault, else one of its own.
fn refusal_by(reading: &mut Reading, fields: &Fields) -> Refusal {
    match run_fault_of(reading, fields) {
        Some(fault) => refusal_of(fault),
        None => other_refusal(reading, fields),
    }
}

fn other_refusal(reading: &mut Reading, fields: &Fields) -> Refusal {
    if fields.has("words") {
        Refusal::Words(words_refusal(reading, fields))
    } else if let Some(tree) = fields.find("not_built") {
        Refusal::NotBuilt(unbuilt_of(reading, tree))
    } else if fields.has("load") {
        Refusal::Load(load_refusal(reading, fields))
    } else if fields.has("name") {
        Refusal::Name(ProjectRefusal::BadName {
            name: reading.text_at(fields, "name"),
        })
    } else if fields.has("disabled") {
        Refusal::Active(ActiveRefusal::DependencyDisabled {
            service: reading.text_at(fields, "service"),
            dependency: reading.text_at(fields, "disabled"),
        })
    } else if fields.has("services") {
        Refusal::Project(ProjectRefusal::TooManyServices {
            count: reading.small_at(fields, "services"),
        })
    } else if fields.has("digest") {
        Refusal::Digest(digest_refusal(reading, fields))
    } else {
        declaring_refusal(reading, fields)
    }
}

/// The refusal of what a project declares, else a fault of the outside.
fn declaring_refusal(reading: &mut Reading, fields: &Fields) -> Refusal {
    if fields.has("unknown_scale") {
        let service = reading.text_at(fields, "unknown_scale");
        Refusal::Identity(IdentityRefusal::UnknownScale(service))
    } else if fields.has("needs") {
        let count = reading.number_at(fields, "needs");
        Refusal::Identity(IdentityRefusal::TooManyNeeds(count))
    } else if fields.has("name_twice") {
        let name = reading.text_at(fields, "name_twice");
        Refusal::Identity(IdentityRefusal::NameTwice(name))
    } else {
        Refusal::Outside(part_at(reading, fields))
    }
}

/// The refusal of words with a name, at the place `at`, which is 0 where it isn't there.
fn words_refusal(reading: &mut Reading, fields: &Fields) -> WordsRefusal {
    let word = reading.text_at(fields, "words");
    let at = reading.small_or(fields, "at", 0);
    match word.as_str() {
        "UnknownWord" => WordsRefusal::UnknownWord { at },
        "MissingValue" => WordsRefusal::MissingValue { at },
        "BadNumber" => WordsRefusal::BadNumber { at },
        "BadChoice" => WordsRefusal::BadChoice { at },
        "Twice" => WordsRefusal::Twice { at },
        "NoCommand" => WordsRefusal::NoCommand,
        "BadHost" => WordsRefusal::BadHost,
        _ => {
            reading.wants("words", "the name of a refusal of words");
            WordsRefusal::NoCommand
        }
    }
}

fn part_at(reading: &mut Reading, fields: &Fields) -> Part {
    let word = reading.text_at(fields, "outside");
    match word.as_str() {
        "Plug" => Part::Plug,
        "Out" => Part::Out,
        _ => {
            reading.wants("outside", "Plug or Out");
            Part::Out
        }
    }
}

fn unbuilt_of(reading: &mut Reading, tree: &Tree) -> Unbuilt {
    match tree {
        Tree::Scalar(text) if text.as_str() == "words" => Unbuilt::Words,
        _ => {
            reading.wants("not_built", "`words`");
            Unbuilt::Words
        }
    }
}

fn load_refusal(reading: &mut Reading, fields: &Fields) -> LoadRefusal {
    let word = reading.text_at(fields, "load");
    let path = reading.text_at(fields, "path");
    match word.as_str() {
        "NotFound" => LoadRefusal::NotFound { path },
        "ReadFault" => LoadRefusal::ReadFault { path },
        "FileTooLarge" => LoadRefusal::FileTooLarge { path },
        word => LoadRefusal::Yaml {
            path,
            cause: yaml_refusal(reading, fields, word),
        },
    }
}

fn digest_refusal(reading: &mut Reading, fields: &Fields) -> DigestRefusal {
    let word = reading.text_at(fields, "digest");
    let path = reading.text_at(fields, "path");
    match word.as_str() {
        "NotFound" => DigestRefusal::NotFound { path },
        "ReadFault" => DigestRefusal::ReadFault { path },
        "FileTooLarge" => DigestRefusal::FileTooLarge { path },
        _ => {
            reading.wants("digest", "the name of a fault");
            DigestRefusal::Memory
        }
    }
}

fn yaml_refusal(reading: &mut Reading, fields: &Fields, word: &str) -> YamlRefusal {
    let place = text_place(reading, fields);
    match word {
        "TooDeep" => YamlRefusal::TooDeep { place },
        "TooManyNodes" => YamlRefusal::TooManyNodes { place },
        "TooMuchText" => YamlRefusal::TooMuchText { place },
        word => YamlRefusal::Bad {
            which: yaml_fault(reading, word),
            place,
        },
    }
}

fn text_place(reading: &mut Reading, fields: &Fields) -> Place {
    Place {
        file: 0,
        line: reading.small_at(fields, "line"),
        column: reading.small_at(fields, "column"),
    }
}

fn yaml_fault(reading: &mut Reading, word: &str) -> YamlFault {
    match word {
        "BadUtf8" => YamlFault::BadUtf8,
        "TabIndent" => YamlFault::TabIndent,
        "BadScalar" => YamlFault::BadScalar,
        "BadIndent" => YamlFault::BadIndent,
        "BadFlow" => YamlFault::BadFlow,
        "RepeatedKey" => YamlFault::RepeatedKey,
        "UnknownAlias" => YamlFault::UnknownAlias,
        "BadMerge" => YamlFault::BadMerge,
        "BadTag" => YamlFault::BadTag,
        "Unsupported" => YamlFault::Unsupported,
        _ => {
            reading.wants("load", "the name of a fault");
            YamlFault::Unsupported
        }
    }
}
