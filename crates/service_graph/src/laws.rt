ghost use Rattle.service_graph.specs.Laws.{CyclesAreLeast};

/// Of services of different keys, whose dependencies stand in byte order, the circle that is told is the least of all, and none
/// is told only where there is none.
pub fn cycles_are_least()
    ensures { CyclesAreLeast }
{}
