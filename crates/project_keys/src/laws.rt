ghost use Rattle.project_keys.specs.Laws.{NoServiceIsLost};

/// The law that each entry under the services of a tree that means a project is a service of its name. Nothing runs.
pub fn no_service_is_lost()
    ensures { NoServiceIsLost }
{}
