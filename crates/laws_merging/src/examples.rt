ghost use Rattle.laws_merging.specs.Twice.{GrownDiffers, PortsArePlain, TwiceDiffers};

/// An example: grouped in two ways, three files differ where the second has one port twice. Nothing runs.
pub fn twice_differs()
    ensures { TwiceDiffers }
{}

/// An example: grouped in two ways, three files differ where a port is published as a list. Nothing runs.
pub fn grown_differs()
    ensures { GrownDiffers }
{}

/// An example: a file with ports that differ is plain. Nothing runs.
pub fn ports_are_plain()
    ensures { PortsArePlain }
{}
