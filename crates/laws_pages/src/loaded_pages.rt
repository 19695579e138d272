ghost use Rattle.laws_pages.specs.Pages.{PagesAreLoaded};

/// The law that the page of a project which some tree means, as the Compose file of a directory
/// without `.env`, is loaded as that project, in every directory, and whatever the caller's
/// variables are that name no other project; where its name is a project's, its texts are UTF-8 and
/// no mapping of its page has a key twice, the page is within the limits, nothing in it stands twice
/// where entries are unique, what its services are built from is in long forms, its paths are
/// absolute, the variables of its services have values, and the profiles enable its services.
/// Nothing runs.
pub fn pages_are_loaded()
    ensures { PagesAreLoaded }
{}
