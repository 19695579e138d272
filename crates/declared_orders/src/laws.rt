ghost use Rattle.declared_orders.specs.Orders.{NoCircleIsDeclared, ProjectsCanBeRun, SlotsNeedDependencies};

use run_laws::runs_are_orderly;

/// The law that slots need only slots of services that their own service depends on. Nothing runs.
pub fn slots_need_dependencies()
    ensures { SlotsNeedDependencies }
{}

/// The law that slots need one another in no circle where the project's services don't. Nothing runs.
pub fn no_circle_is_declared()
    ensures { NoCircleIsDeclared }
{}

/// The law that the actions of runs of a project without a circle can be carried out in some order, whatever was seen. Nothing runs.
pub fn projects_can_be_run()
    ensures { ProjectsCanBeRun }
{
    runs_are_orderly();
}
