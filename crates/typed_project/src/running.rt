ghost use Rattle.std.specs.Prelude.{◌≡◌, codes};
ghost use Rattle.std.specs.Option.{option_copied};
ghost use Rattle.attribute_types.specs.Lookups.{dependencies_at, health_at, kept_at, logging_at, number_at, pairs_at, text_at, texts_at};

use crate::service::Service;
use attribute_types::{
    Dependency, HealthCheck, Logging, Pairs, dependencies_named, health_named, kept_named,
    logging_named, number_named, pairs_named, text_named, texts_named,
};
use tree_base::{List, Text, Tree};

/// How the service is run among others.
impl Service {
    /// What the image is built from, as it is read. No memory.
    pub fn build(&self) -> Option<&Tree>
        ensures { option_copied result ≡ kept_at self.now.attributes (codes "build") }
    {
        kept_named(self.attributes.as_slice(), "build")
    }

    /// The name of its container. No memory.
    pub fn container_name(&self) -> Option<&Text>
        ensures { option_copied result ≡ text_at self.now.attributes (codes "container_name") }
    {
        text_named(self.attributes.as_slice(), "container_name")
    }

    /// The services that it needs, in byte order of their keys. No memory.
    pub fn depends_on(&self) -> Option<&List<Dependency>>
        ensures { option_copied result ≡ dependencies_at self.now.attributes (codes "depends_on") }
    {
        dependencies_named(self.attributes.as_slice(), "depends_on")
    }

    /// How it is deployed, as it is read. No memory.
    pub fn deploy(&self) -> Option<&Tree>
        ensures { option_copied result ≡ kept_at self.now.attributes (codes "deploy") }
    {
        kept_named(self.attributes.as_slice(), "deploy")
    }

    /// How its health is asked. No memory.
    pub fn healthcheck(&self) -> Option<&HealthCheck>
        ensures { option_copied result ≡ health_at self.now.attributes (codes "healthcheck") }
    {
        health_named(self.attributes.as_slice(), "healthcheck")
    }

    /// The labels of its containers. No memory.
    pub fn labels(&self) -> Option<&Pairs>
        ensures { option_copied result ≡ pairs_at self.now.attributes (codes "labels") }
    {
        pairs_named(self.attributes.as_slice(), "labels")
    }

    /// Where the output of its containers goes. No memory.
    pub fn logging(&self) -> Option<&Logging>
        ensures { option_copied result ≡ logging_at self.now.attributes (codes "logging") }
    {
        logging_named(self.attributes.as_slice(), "logging")
    }

    /// The platform of its image. No memory.
    pub fn platform(&self) -> Option<&Text>
        ensures { option_copied result ≡ text_at self.now.attributes (codes "platform") }
    {
        text_named(self.attributes.as_slice(), "platform")
    }

    /// The profiles that enable it; without any it is always enabled. No memory.
    pub fn profiles(&self) -> Option<&List<Text>>
        ensures { option_copied result ≡ texts_at self.now.attributes (codes "profiles") }
    {
        texts_named(self.attributes.as_slice(), "profiles")
    }

    /// When its image is pulled. No memory.
    pub fn pull_policy(&self) -> Option<&Text>
        ensures { option_copied result ≡ text_at self.now.attributes (codes "pull_policy") }
    {
        text_named(self.attributes.as_slice(), "pull_policy")
    }

    /// When its container is started again. No memory.
    pub fn restart(&self) -> Option<&Text>
        ensures { option_copied result ≡ text_at self.now.attributes (codes "restart") }
    {
        text_named(self.attributes.as_slice(), "restart")
    }

    /// How many containers it has. No memory.
    pub fn scale(&self) -> Option<u64>
        ensures { result ≡ number_at self.now.attributes (codes "scale") }
    {
        number_named(self.attributes.as_slice(), "scale")
    }
}
