use case_files::{Answers, Fields, Line};
use tree_base::Place;
use yaml_lines::{
    YamlFault, YamlRefusal, double_quotes_read_back, lines_are_the_text, places_count_characters,
};

/// Puts a refusal: under `refused` its name with its line and column, as `BadFlow 3:14`, and the number of the file as
/// `in_file`. Memory where it is want of memory.
pub fn refuse(answers: &mut Answers, refusal: YamlRefusal) {
    match refusal.place() {
        None => answers.reading.memory(),
        Some(place) => {
            put_refused(answers, refusal.name(), place);
            answers.put_number("in_file", place.file as u64);
        }
    }
}

fn put_refused(answers: &mut Answers, name: &str, place: Place) {
    let mut line = Line::of_word(answers.reading.alloc, name);
    line.number(place.line as u64);
    line.put(":");
    line.put_number(place.column as u64);
    answers.put_line("refused", line);
}

/// Puts a place: its `line`, its `column`, and the number of its file (`in_file`).
pub fn put_place(answers: &mut Answers, place: Place) {
    answers.put_number("line", place.line as u64);
    answers.put_number("column", place.column as u64);
    answers.put_number("in_file", place.file as u64);
}

/// `yaml_refusal: NAME` with `file`, `line` and `column`: how it is `printed`, and how a case says it (`refused`).
pub fn refusal(fields: &Fields, answers: &mut Answers) {
    let place = Place {
        file: answers.reading.small_or(fields, "file", 0),
        line: answers.reading.small_or(fields, "line", 1),
        column: answers.reading.small_or(fields, "column", 1),
    };
    let name = answers.reading.text_at(fields, "yaml_refusal");
    match refusal_of(name.as_str(), place) {
        Some(refusal) => put_refusal(answers, refusal),
        None => answers.reading.refuse("no refusal has this name"),
    }
}

fn put_refusal(answers: &mut Answers, refusal: YamlRefusal) {
    let printed = format!(in answers.reading.alloc; "{refusal}");
    answers.put_printed("printed", printed);
    match refusal {
        YamlRefusal::Memory => answers.put_null("refused"),
        _ => refuse(answers, refusal),
    }
}

/// A refusal of each kind at a place; None where the name is of none of these.
fn refusal_of(name: &str, place: Place) -> Option<YamlRefusal> {
    match name {
        "BadFlow" => Some(YamlRefusal::Bad {
            which: YamlFault::BadFlow,
            place,
        }),
        "TooDeep" => Some(YamlRefusal::TooDeep { place }),
        "memory" => Some(YamlRefusal::Memory),
        _ => None,
    }
}

/// `yaml_law: NAME`: a law `returns`.
pub fn law(fields: &Fields, answers: &mut Answers) {
    let name = answers.reading.text_at(fields, "yaml_law");
    if returns(name.as_str()) {
        answers.put_flag("returns", true);
    } else {
        answers.reading.refuse("no law has this name");
    }
}

/// Calls the law with a name; false where there is none.
fn returns(name: &str) -> bool {
    match name {
        "lines_are_the_text" => lines_are_the_text(),
        "places_count_characters" => places_count_characters(),
        "double_quotes_read_back" => double_quotes_read_back(),
        _ => return false,
    }
    true
}
