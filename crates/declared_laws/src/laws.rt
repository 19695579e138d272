ghost use Rattle.declared_laws.specs.Laws.{DeclaredNamesDiffer, DeclaredSetsAreWhole, NamesTellSlots, SlotsSayTheirOrigin, SpecsAreTheirSlots, TwiceIsToldOfTwins, UnnamedAreNotRefused};

/// The law that what a project declares is a whole declared set: slots, services, networks and volumes stand in their order, each slot
/// is of a declared service, what it attaches to and needs is there, and it waits for no other one to run. Nothing runs.
pub fn declared_sets_are_whole()
    ensures { DeclaredSetsAreWhole }
{}

/// The law that what the Engine is sent for a slot is made for that slot: its labels, its hash, its image and its first network, where
/// 32 bits number the containers of each service. Nothing runs.
pub fn specs_are_their_slots()
    ensures { SpecsAreTheirSlots }
{}

/// The law that what the Engine is sent for a slot says by labels from which Compose files and in which directory the project was loaded,
/// whatever labels its service has. Nothing runs.
pub fn slots_say_their_origin()
    ensures { SlotsSayTheirOrigin }
{}

/// The law that a name of project, service and number tells the service and the number. Nothing runs.
pub fn names_tell_slots()
    ensures { NamesTellSlots }
{}

/// The law that the names of all slots of a declared set differ. Nothing runs.
pub fn declared_names_differ()
    ensures { DeclaredNamesDiffer }
{}

/// The law that no declared set is refused for its names where no service gives its containers a name of its own. Nothing runs.
pub fn unnamed_are_not_refused()
    ensures { UnnamedAreNotRefused }
{}

/// The law that a name is told to stand twice exactly where not all names differ. Nothing runs.
pub fn twice_is_told_of_twins()
    ensures { TwiceIsToldOfTwins }
{}
