ghost use Rattle.laws_attributes.specs.Forms.{FormsAreFree};

/// The law that a file has the same long forms, or is refused alike, whether an attribute stands
/// there in its short or in its long form. Nothing runs.
pub fn forms_are_free()
    ensures { FormsAreFree }
{}
