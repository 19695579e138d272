ghost use Rattle.active_services.specs.Laws.{ActiveServicesNeedNoOther, EnabledModelsStay, EnabledServicesAreKept, OrderOfProfilesIsFree};

/// The law that profiles which name the same ones have the same active services, in whatever order and however often
/// they are given. Nothing runs.
pub fn order_of_profiles_is_free()
    ensures { OrderOfProfilesIsFree }
{}

/// The law that a service of a model is among its active ones exactly where it is enabled. Nothing runs.
pub fn enabled_services_are_kept()
    ensures { EnabledServicesAreKept }
{}

/// The law that a model all of whose services are enabled stays as it is. Nothing runs.
pub fn enabled_models_stay()
    ensures { EnabledModelsStay }
{}

/// The law that an active service depends on no service that its model has and that isn't enabled. Nothing runs.
pub fn active_services_need_no_other()
    ensures { ActiveServicesNeedNoOther }
{}
