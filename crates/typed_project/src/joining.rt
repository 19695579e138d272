ghost use Rattle.std.specs.Prelude.{◌≡◌, codes};
ghost use Rattle.std.specs.Option.{option_copied};
ghost use Rattle.attribute_types.specs.Lookups.{networks_at, pairs_at, ports_at, text_at, texts_at};

use crate::service::Service;
use attribute_types::{
    NetworkUse, Pairs, networks_named, pairs_named, ports_named, text_named, texts_named,
};
use short_forms::Port;
use tree_base::{List, Text};

/// How the container is on networks.
impl Service {
    /// The name servers. No memory.
    pub fn dns(&self) -> Option<&List<Text>>
        ensures { option_copied result ≡ texts_at self.now.attributes (codes "dns") }
    {
        texts_named(self.attributes.as_slice(), "dns")
    }

    /// The options of name resolution. No memory.
    pub fn dns_opt(&self) -> Option<&List<Text>>
        ensures { option_copied result ≡ texts_at self.now.attributes (codes "dns_opt") }
    {
        texts_named(self.attributes.as_slice(), "dns_opt")
    }

    /// The domains in which names are looked up. No memory.
    pub fn dns_search(&self) -> Option<&List<Text>>
        ensures { option_copied result ≡ texts_at self.now.attributes (codes "dns_search") }
    {
        texts_named(self.attributes.as_slice(), "dns_search")
    }

    /// The domain of the container. No memory.
    pub fn domainname(&self) -> Option<&Text>
        ensures { option_copied result ≡ text_at self.now.attributes (codes "domainname") }
    {
        text_named(self.attributes.as_slice(), "domainname")
    }

    /// The ports that are told to other services, each as `PORT[/PROTOCOL]`. No memory.
    pub fn expose(&self) -> Option<&List<Text>>
        ensures { option_copied result ≡ texts_at self.now.attributes (codes "expose") }
    {
        texts_named(self.attributes.as_slice(), "expose")
    }

    /// The addresses of further hosts. No memory.
    pub fn extra_hosts(&self) -> Option<&Pairs>
        ensures { option_copied result ≡ pairs_at self.now.attributes (codes "extra_hosts") }
    {
        pairs_named(self.attributes.as_slice(), "extra_hosts")
    }

    /// The name of the container for itself. No memory.
    pub fn hostname(&self) -> Option<&Text>
        ensures { option_copied result ≡ text_at self.now.attributes (codes "hostname") }
    {
        text_named(self.attributes.as_slice(), "hostname")
    }

    /// `none`, `host` or `bridge`, where the service joins no network. No memory.
    pub fn network_mode(&self) -> Option<&Text>
        ensures { option_copied result ≡ text_at self.now.attributes (codes "network_mode") }
    {
        text_named(self.attributes.as_slice(), "network_mode")
    }

    /// The networks that the service joins, in byte order of their keys. No memory.
    pub fn networks(&self) -> Option<&List<NetworkUse>>
        ensures { option_copied result ≡ networks_at self.now.attributes (codes "networks") }
    {
        networks_named(self.attributes.as_slice(), "networks")
    }

    /// The ports. No memory.
    pub fn ports(&self) -> Option<&List<Port>>
        ensures { option_copied result ≡ ports_at self.now.attributes (codes "ports") }
    {
        ports_named(self.attributes.as_slice(), "ports")
    }
}
