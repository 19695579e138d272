ghost use Rattle.laws_attributes.specs.ReadBack.{FilesReadBack, NamedNetworksReadBack, NamedVolumesReadBack, NetworksReadBack, ServicesReadBack, VolumesReadBack};

/// The law that the attributes of a service are read back from their page, where none of its files
/// has a colon both in its source and in its path. Nothing runs.
pub fn services_read_back()
    ensures { ServicesReadBack }
{}

/// The law that the attributes of a network are read back from their page. Nothing runs.
pub fn networks_read_back()
    ensures { NetworksReadBack }
{}

/// The law that the attributes of a volume are read back from their page. Nothing runs.
pub fn volumes_read_back()
    ensures { VolumesReadBack }
{}

/// The law that the attributes of a secret or a config are read back from their page. Nothing runs.
pub fn files_read_back()
    ensures { FilesReadBack }
{}

/// The law that the attributes of a network, with a name placed among them, are read back from
/// their page. Nothing runs.
pub fn named_networks_read_back()
    ensures { NamedNetworksReadBack }
{}

/// The law that the attributes of a volume, with a name placed among them, are read back from
/// their page. Nothing runs.
pub fn named_volumes_read_back()
    ensures { NamedVolumesReadBack }
{}
