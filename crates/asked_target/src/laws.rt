ghost use Rattle.asked_target.specs.Laws.{GoodHostsHaveTargets};

/// The law that a command which speaks with an Engine asks for one, from whatever directory, unless it uses a variable that
/// names none. Nothing runs.
pub fn good_hosts_have_targets()
    ensures { GoodHostsHaveTargets }
{}
