ghost use Rattle.compose_config.specs.Laws.{EmptyProjectsHaveTwoLines, PagesHaveTheirLines, PlainPagesAreFiles};

/// The law that the page of a project that has services has its name on the first line, and the lines of each service
/// below. Nothing runs.
pub fn pages_have_their_lines()
    ensures { PagesHaveTheirLines }
{}

/// The law that the page of a project without services has its name on the first line, and `services: {}` on the
/// second. Nothing runs.
pub fn empty_projects_have_two_lines()
    ensures { EmptyProjectsHaveTwoLines }
{}

/// The law that the page of a project whose words need no quotes is the line of its name above the text of a Compose
/// file with its services. Nothing runs.
pub fn plain_pages_are_files()
    ensures { PlainPagesAreFiles }
{}
