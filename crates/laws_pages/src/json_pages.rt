ghost use Rattle.laws_pages.specs.JsonPageLaws.{JsonGivesValues, JsonPagesMeanTheirProjects, PrintedPagesMeanTheirProjects, ProjectPagesAgree};

/// The law that the bytes of a node's JSON, read as YAML and then with the values of its scalars, are the tree that the node
/// means, whatever the variables are; where its texts are UTF-8, its words stand as they are, no mapping has a key twice,
/// and the tree is within the limits. Nothing runs.
pub fn json_gives_values()
    ensures { JsonGivesValues }
{}

/// The law that the JSON page of a project which a merged tree means, without marks and with no key twice, is read as a tree
/// that means the project once its scalars have their values, whatever the variables are; where the page's texts are UTF-8, no
/// mapping in it has a key twice, and its tree is within the limits. Nothing runs.
pub fn json_pages_mean_their_projects()
    ensures { JsonPagesMeanTheirProjects }
{}

/// The law that the page of such a project as YAML is read as a tree that means the project too, under the same conditions.
/// Nothing runs.
pub fn printed_pages_mean_their_projects()
    ensures { PrintedPagesMeanTheirProjects }
{}

/// The law that the two pages of a project, as YAML and as JSON, are read as one tree, where their texts are UTF-8, no mapping
/// in them has a key twice, and the tree is within the limits. Nothing runs.
pub fn project_pages_agree()
    ensures { ProjectPagesAgree }
{}
