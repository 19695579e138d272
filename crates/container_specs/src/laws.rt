ghost use Rattle.container_specs.specs.Untold.{AreDescribedAlike};

/// The law that the description of a container says nothing of `build`, `container_name`, `depends_on`, `deploy`, `profiles`,
/// `pull_policy` and `scale`: two services of one key whose other attributes are the same have the same description. Nothing runs.
pub fn services_are_described_alike()
    ensures { AreDescribedAlike }
{}
