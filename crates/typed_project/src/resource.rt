ghost use Rattle.std.specs.Prelude.{◌≡◌, codes};
ghost use Rattle.std.specs.Option.{option_copied};
ghost use Rattle.attribute_types.specs.Lookups.{files_at, int_at, mounts_at, number_at, text_at, texts_at};

use crate::service::Service;
use attribute_types::{
    FileUse, files_named, int_named, mounts_named, number_named, text_named, texts_named,
};
use short_forms::Mount;
use tree_base::{List, Text};

/// What the container takes of its host, and what it sees of files.
impl Service {
    /// The configs that the service uses. No memory.
    pub fn configs(&self) -> Option<&List<FileUse>>
        ensures { option_copied result ≡ files_at self.now.attributes (codes "configs") }
    {
        files_named(self.attributes.as_slice(), "configs")
    }

    /// The weight of the container among others. No memory.
    pub fn cpu_shares(&self) -> Option<u64>
        ensures { result ≡ number_at self.now.attributes (codes "cpu_shares") }
    {
        number_named(self.attributes.as_slice(), "cpu_shares")
    }

    /// How much of the processors it takes at most, in billionths of one. No memory.
    pub fn cpus(&self) -> Option<u64>
        ensures { result ≡ number_at self.now.attributes (codes "cpus") }
    {
        number_named(self.attributes.as_slice(), "cpus")
    }

    /// The processors on which it may run. No memory.
    pub fn cpuset(&self) -> Option<&Text>
        ensures { option_copied result ≡ text_at self.now.attributes (codes "cpuset") }
    {
        text_named(self.attributes.as_slice(), "cpuset")
    }

    /// How much memory it takes at most, in bytes. No memory.
    pub fn mem_limit(&self) -> Option<u64>
        ensures { result ≡ number_at self.now.attributes (codes "mem_limit") }
    {
        number_named(self.attributes.as_slice(), "mem_limit")
    }

    /// How much memory is kept for it, in bytes. No memory.
    pub fn mem_reservation(&self) -> Option<u64>
        ensures { result ≡ number_at self.now.attributes (codes "mem_reservation") }
    {
        number_named(self.attributes.as_slice(), "mem_reservation")
    }

    /// How many processes it has at most; -1 is any number. No memory.
    pub fn pids_limit(&self) -> Option<i64>
        ensures { result ≡ int_at self.now.attributes (codes "pids_limit") }
    {
        int_named(self.attributes.as_slice(), "pids_limit")
    }

    /// The secrets that the service uses. No memory.
    pub fn secrets(&self) -> Option<&List<FileUse>>
        ensures { option_copied result ≡ files_at self.now.attributes (codes "secrets") }
    {
        files_named(self.attributes.as_slice(), "secrets")
    }

    /// The size of its shared memory, in bytes. No memory.
    pub fn shm_size(&self) -> Option<u64>
        ensures { result ≡ number_at self.now.attributes (codes "shm_size") }
    {
        number_named(self.attributes.as_slice(), "shm_size")
    }

    /// The paths that are in memory, each as `PATH[:OPTIONS]`. No memory.
    pub fn tmpfs(&self) -> Option<&List<Text>>
        ensures { option_copied result ≡ texts_at self.now.attributes (codes "tmpfs") }
    {
        texts_named(self.attributes.as_slice(), "tmpfs")
    }

    /// The mounts. No memory.
    pub fn volumes(&self) -> Option<&List<Mount>>
        ensures { option_copied result ≡ mounts_at self.now.attributes (codes "volumes") }
    {
        mounts_named(self.attributes.as_slice(), "volumes")
    }
}
