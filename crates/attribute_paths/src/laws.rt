ghost use Rattle.attribute_paths.specs.Laws.{OtherKeysHoldNothing};

/// The law that lines which begin with other keys say nothing under a key. Nothing runs.
pub fn other_keys_hold_nothing()
    ensures { OtherKeysHoldNothing }
{}
