use case_files::{Answers, Fields};

/// The inputs of a call beside its main one, or None where there is no such call. No memory.
pub fn inputs_of(call: &str) -> Option<&'static [&'static str]> {
    if let Some(inputs) = cases_yaml::inputs_of(call) {
        return Some(inputs);
    }
    if let Some(inputs) = cases_reading::inputs_of(call) {
        return Some(inputs);
    }
    if let Some(inputs) = cases_runs::inputs_of(call) {
        return Some(inputs);
    }
    if let Some(inputs) = cases_bytes::inputs_of(call) {
        return Some(inputs);
    }
    if let Some(inputs) = cases_declared::inputs_of(call) {
        return Some(inputs);
    }
    cases_calls::inputs_of(call)
}

/// Makes the call of a case. It is no case where there is no such call.
pub fn answer(call: &str, fields: &Fields, answers: &mut Answers) {
    if cases_yaml::inputs_of(call).is_some() {
        cases_yaml::answer(call, fields, answers);
    } else if cases_reading::inputs_of(call).is_some() {
        cases_reading::answer(call, fields, answers);
    } else if cases_runs::inputs_of(call).is_some() {
        cases_runs::answer(call, fields, answers);
    } else if cases_bytes::inputs_of(call).is_some() {
        cases_bytes::answer(call, fields, answers);
    } else if cases_declared::inputs_of(call).is_some() {
        cases_declared::answer(call, fields, answers);
    } else {
        cases_calls::answer(call, fields, answers);
    }
}
