ghost use Rattle.circle_laws.specs.Laws.{LoadedProjectsHaveNoCircle, MeantProjectsHaveNoCircle};

/// The law that the services of a project which a tree means don't need one another in a circle.
/// Nothing runs.
pub fn meant_projects_have_no_circle()
    ensures { MeantProjectsHaveNoCircle }
{}

/// The law that the services of a project which is loaded, under whatever name and profiles, don't
/// need one another in a circle. Nothing runs.
pub fn loaded_projects_have_no_circle()
    ensures { LoadedProjectsHaveNoCircle }
{}
