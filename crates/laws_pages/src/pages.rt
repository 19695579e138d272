ghost use Rattle.laws_pages.specs.PagesOfProjects.{PagesMeanTheirProjects};

/// The law that a project which a merged tree means, without marks and with no key twice, is what
/// the tree of its own page means. Nothing runs.
pub fn pages_mean_their_projects()
    ensures { PagesMeanTheirProjects }
{}
