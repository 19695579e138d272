ghost use Rattle.long_forms.specs.Laws.{LongFormsStay};

/// The law that the long form of a long form is itself. Nothing runs.
pub fn long_forms_stay()
    ensures { LongFormsStay }
{}
