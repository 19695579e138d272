ghost use Rattle.laws_bytes.specs.Differences.{BodiesTellConnections, BodiesTellContainers, BodiesTellNetworks, BodiesTellVolumes};

/// The law that the body of a container tells its description, but for the platform, where mappings and sets stand in
/// byte order. Nothing runs.
pub fn bodies_tell_containers()
    ensures { BodiesTellContainers }
{}

/// The law that the body of a network tells its description, but for whether the project makes it, where mappings stand
/// in byte order. Nothing runs.
pub fn bodies_tell_networks()
    ensures { BodiesTellNetworks }
{}

/// The law that the body of a volume tells its description, but for whether the project makes it, where mappings stand in
/// byte order. Nothing runs.
pub fn bodies_tell_volumes()
    ensures { BodiesTellVolumes }
{}

/// The law that the body by which a container joins a network tells the container and its names there. Nothing runs.
pub fn bodies_tell_connections()
    ensures { BodiesTellConnections }
{}
