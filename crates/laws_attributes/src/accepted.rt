ghost use Rattle.laws_attributes.specs.Accepted.{AcceptedServicesAreLong, AcceptedTreesAreLong, AcceptedTreesAreShaped};

/// The law that a service which is accepted is in long forms, where what it is built from and its
/// env files are. Nothing runs.
pub fn accepted_services_are_long()
    ensures { AcceptedServicesAreLong }
{}

/// The law that a tree which means a project, with no key twice, is in long forms, where what its
/// services are built from and their env files are. Nothing runs.
pub fn accepted_trees_are_long()
    ensures { AcceptedTreesAreLong }
{}

/// The law that a tree which means a project, with no key twice, has the form that loading asks,
/// where it includes nothing, and its services extend none and have no env files. Nothing runs.
pub fn accepted_trees_are_shaped()
    ensures { AcceptedTreesAreShaped }
{}
