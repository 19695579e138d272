use case_files::{Answers, Fields};

/// `law: NAME`: the law's function `returns`.
pub(crate) fn law(fields: &Fields, answers: &mut Answers) {
    let name = answers.reading.text_at(fields, "law");
    if returns(name.as_str()) {
        answers.put_flag("returns", true);
    } else {
        answers.reading.refuse("there is no such law");
    }
}

/// Calls the law with a name; false where there is none.
fn returns(name: &str) -> bool {
    match name {
        "scalars_read_back" => project_print::scalars_read_back(),
        "dollars_read_back" => project_print::dollars_read_back(),
        "no_service_is_lost" => project_keys::no_service_is_lost(),
        "given_names_win" => normal_form::given_names_win(),
        "order_of_profiles_is_free" => active_services::order_of_profiles_is_free(),
        "enabled_services_are_kept" => active_services::enabled_services_are_kept(),
        "active_services_need_no_other" => active_services::active_services_need_no_other(),
        "enabled_models_stay" => active_services::enabled_models_stay(),
        _ => return false,
    }
    true
}
