ghost use Rattle.laws_pages.specs.MeaningLaws.{OrderDoesNotMatter};

/// The law that two trees which are the same but for the order of their keys mean the same
/// project, or are refused alike. Nothing runs.
pub fn order_does_not_matter()
    ensures { OrderDoesNotMatter }
{}
