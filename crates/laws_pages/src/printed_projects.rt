ghost use Rattle.laws_pages.specs.ProjectLaws.{PagesGiveValues};
ghost use Rattle.laws_pages.specs.Projects.{ProjectPagesReadBack};

/// The law that the bytes of a node's page, read and then with the values of its scalars, are the tree that the node means,
/// whatever the variables are; where its texts are UTF-8, its words stand as they are, no mapping has a key twice, and the
/// tree is within the limits. Nothing runs.
pub fn pages_give_values()
    ensures { PagesGiveValues }
{}

/// The law that the page of a project whose services have an image and no network, as the Compose
/// file of a directory without `.env`, is loaded as that project, in every directory, under all
/// profiles, and whatever the caller's variables are that don't name another project; where its
/// name is a project's, its services are in order and no more than 1,000, their keys are keys of
/// services, its texts are UTF-8, and the page is within the limits. Nothing runs.
pub fn project_pages_read_back()
    ensures { ProjectPagesReadBack }
{}
