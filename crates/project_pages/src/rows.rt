ghost use Rattle.std.specs.Prelude.{◌≡◌, OnOk, IfOk, Some};
ghost use Rattle.std.specs.Fmt.{signed_decimal};
ghost use Rattle.std.specs.Option.{option_map};
ghost use Rattle.project_print.specs.declared.node.Node.{Node};
ghost use Rattle.project_pages.specs.AttributePages.{aliases_node, check_node, condition_word, file_use_node, label_node, logging_node, mount_node, pairs_node, port_node};
ghost use Rattle.project_pages.specs.Puts.{any_of, limit_node, need_node, with_found};

use crate::entries::{
    put_bool, put_bool_if, put_duration_if, put_flag, put_mapping, put_node, put_number,
    put_number_if, put_text, put_text_if, put_texts_if,
};
use crate::numbers::signed_text;
use crate::to_node::{Keyed, ToNode};
use crate::values::{pairs_node, texts_node};
use attribute_types::{
    Dependency, DependencyCondition, FileUse, HealthCheck, Logging, NetworkUse, Pairs, Ulimit,
};
use project_print::Node;
use short_forms::{Mount, Port};
use std::alloc::Global;
use tree_base::{Memory, Text, TextMap};

impl ToNode for Ulimit {
    ghost shown = { limit_node };

    ghost is_fit = { λ limit. Unit {0} };

    #[tactic(auto, unfolding(crate::specs::Puts::with_found))]
    fn node(&self, alloc: Global) -> Result<Node, Memory> {
        let mut entries = TextMap::new(alloc);
        put_signed(alloc, &mut entries, "hard", self.hard)?;
        put_signed(alloc, &mut entries, "soft", self.soft)?;
        Ok(Node::Map(entries))
    }
}

impl Keyed for Ulimit {
    ghost name = { λ limit. limit.key };

    fn key(&self) -> &Text {
        &self.key
    }
}

/// Puts a number that may be less than zero under a key.
#[tactic(auto, unfolding(crate::specs::Puts::with_found))]
fn put_signed(
    alloc: Global,
    entries: &mut TextMap<Node>,
    key: &str,
    number: i64,
) -> Result<(), Memory>
    ensures { OnOk result (entries.new ≡
        with_found entries.old key.now (Some (Node.Word (signed_decimal number)))) }
{
    let text = signed_text(alloc, number)?;
    put_node(alloc, entries, key, Node::Word(text))
}

/// What is shown of where output goes.
pub(crate) fn logging_node(alloc: Global, logging: &Logging) -> Result<Node, Memory>
    ensures { IfOk result (λ node. node ≡ logging_node logging.now) }
{
    let mut entries = TextMap::new(alloc);
    put_text_if(alloc, &mut entries, "driver", &logging.driver)?;
    put_pairs(alloc, &mut entries, "options", &logging.options)?;
    Ok(Node::Map(entries))
}

/// Puts pairs under a key, where there are some.
#[tactic(auto, unfolding(crate::specs::Puts::with_found))]
fn put_pairs(
    alloc: Global,
    entries: &mut TextMap<Node>,
    key: &str,
    pairs: &Pairs,
) -> Result<(), Memory>
    ensures { OnOk result (entries.new ≡
        with_found entries.old key.now (option_map pairs_node (any_of pairs.now))) }
{
    if pairs.is_empty() {
        return Ok(());
    }
    let node = pairs_node(alloc, pairs)?;
    put_node(alloc, entries, key, node)
}

impl ToNode for Port {
    ghost shown = { port_node };

    ghost is_fit = { λ port. Unit {0} };

    fn node(&self, alloc: Global) -> Result<Node, Memory> {
        let mut entries = TextMap::new(alloc);
        put_text_if(alloc, &mut entries, "host_ip", &self.host_ip)?;
        put_text(alloc, &mut entries, "protocol", self.protocol.as_str())?;
        put_text_if(alloc, &mut entries, "published", &self.published)?;
        put_number(alloc, &mut entries, "target", u64::from(self.target))?;
        Ok(Node::Map(entries))
    }
}

impl ToNode for Mount {
    ghost shown = { mount_node };

    ghost is_fit = { λ mount. Unit {0} };

    fn node(&self, alloc: Global) -> Result<Node, Memory> {
        let mut entries = TextMap::new(alloc);
        put_label(alloc, &mut entries, "bind", &self.selinux)?;
        put_flag(alloc, &mut entries, "read_only", self.read_only)?;
        put_text_if(alloc, &mut entries, "source", &self.source)?;
        put_text(alloc, &mut entries, "target", self.target.as_str())?;
        put_text(alloc, &mut entries, "type", self.kind.word())?;
        Ok(Node::Map(entries))
    }
}

/// Puts the options of a bind under a key, where it has a label.
#[tactic(auto, unfolding(crate::specs::Puts::with_found))]
fn put_label(
    alloc: Global,
    entries: &mut TextMap<Node>,
    key: &str,
    label: &Option<Text>,
) -> Result<(), Memory>
    ensures { OnOk result (entries.new ≡
        with_found entries.old key.now (option_map label_node label.now)) }
{
    match label {
        Some(label) => {
            let mut options = TextMap::new(alloc);
            put_text(alloc, &mut options, "selinux", label.as_str())?;
            put_mapping(alloc, entries, key, options)
        }
        None => Ok(()),
    }
}

impl ToNode for FileUse {
    ghost shown = { file_use_node };

    ghost is_fit = { λ file. Unit {0} };

    fn node(&self, alloc: Global) -> Result<Node, Memory> {
        let mut entries = TextMap::new(alloc);
        put_text_if(alloc, &mut entries, "gid", &self.gid)?;
        put_text_if(alloc, &mut entries, "mode", &self.mode)?;
        put_text(alloc, &mut entries, "source", self.source.as_str())?;
        put_text(alloc, &mut entries, "target", self.target.as_str())?;
        put_text_if(alloc, &mut entries, "uid", &self.uid)?;
        Ok(Node::Map(entries))
    }
}

impl ToNode for NetworkUse {
    ghost shown = { λ joined. aliases_node joined.aliases };

    ghost is_fit = { λ joined. Unit {0} };

    fn node(&self, alloc: Global) -> Result<Node, Memory> {
        if self.aliases.is_empty() {
            return Ok(Node::Null);
        }
        let mut entries = TextMap::new(alloc);
        let aliases = texts_node(alloc, self.aliases.as_slice())?;
        put_node(alloc, &mut entries, "aliases", aliases)?;
        Ok(Node::Map(entries))
    }
}

impl Keyed for NetworkUse {
    ghost name = { λ joined. joined.key };

    fn key(&self) -> &Text {
        &self.key
    }
}

/// What is shown of how health is asked.
pub(crate) fn check_node(alloc: Global, check: &HealthCheck) -> Result<Node, Memory>
    ensures { IfOk result (λ node. node ≡ check_node check.now) }
{
    let mut entries = TextMap::new(alloc);
    put_bool_if(alloc, &mut entries, "disable", check.disable)?;
    put_duration_if(alloc, &mut entries, "interval", check.interval)?;
    put_number_if(alloc, &mut entries, "retries", check.retries)?;
    put_duration_if(alloc, &mut entries, "start_interval", check.start_interval)?;
    put_duration_if(alloc, &mut entries, "start_period", check.start_period)?;
    put_texts_if(alloc, &mut entries, "test", &check.test)?;
    put_duration_if(alloc, &mut entries, "timeout", check.timeout)?;
    Ok(Node::Map(entries))
}

impl ToNode for Dependency {
    ghost shown = { need_node };

    ghost is_fit = { λ need. Unit {0} };

    fn node(&self, alloc: Global) -> Result<Node, Memory> {
        let mut entries = TextMap::new(alloc);
        put_text(
            alloc,
            &mut entries,
            "condition",
            condition_word(self.condition),
        )?;
        put_bool(alloc, &mut entries, "required", self.required)?;
        put_flag(alloc, &mut entries, "restart", self.restart)?;
        Ok(Node::Map(entries))
    }
}

impl Keyed for Dependency {
    ghost name = { λ need. need.key };

    fn key(&self) -> &Text {
        &self.key
    }
}

/// The word of what is waited for.
fn condition_word(condition: DependencyCondition) -> &'static str
    ensures { result.now ≡ condition_word condition }
{
    match condition {
        DependencyCondition::Started => "service_started",
        DependencyCondition::Healthy => "service_healthy",
        DependencyCondition::Completed => "service_completed_successfully",
    }
}
