ghost use Rattle.std.specs.Prelude.{◌≡◌, ◌≤◌, ◌==◌, IfSome};
ghost use Rattle.std.specs.List.{list_all, list_any};
ghost use Rattle.std.specs.Option.{option_copied, option_map};
ghost use Rattle.std.specs.Str.{bytes_eq, str_to_ascii_lowercase};
ghost use Rattle.tree_base.specs.Limits.{greatest_number};
ghost use Rattle.short_forms.specs.Decimals.{decimal_of};
ghost use Rattle.short_forms.specs.Durations.{duration_of};
ghost use Rattle.short_forms.specs.Cuts.{cut_once};
ghost use Rattle.short_forms.specs.PortLaws.{target_in};
ghost use Rattle.short_forms.specs.Ports.{is_protocol};
ghost use Rattle.short_forms.specs.Sizes.{size_of};
ghost use Rattle.tree_base.specs.declared.Tree.{out-Tree};
ghost use Rattle.attribute_scalars.specs.Lists.{text_in};
ghost use Rattle.attribute_scalars.specs.Scalars.{are_behind_host, are_permissions, begins_with_path, bool_of, has_form, has_no_colon, has_profile, int_of, is_counted_restart, is_nonempty, is_of_another, is_permission, is_profile, is_security_option, is_word_in, is_word_of, no_words, num_of, words_of, yes_words};
ghost use Rattle.attribute_types.specs.declared.form.ItemForm.{ItemForm};
ghost use Rattle.attribute_types.specs.declared.form.WordSet.{WordSet};
ghost use Rattle.attribute_scalars.specs.Walks.{is_in, is_null};

use attribute_types::{ItemForm, WordSet};
use short_forms::{cut_text, decimal, duration, number, port_number, size};
use tree_base::limits::GREATEST_NUMBER;
use tree_base::{Text, Tree};

const YES: [&str; 4] = ["true", "yes", "on", "y"];

const NO: [&str; 4] = ["false", "no", "off", "n"];

/// The text of a scalar; None where a tree is none. No memory.
pub fn text_of(tree: &Tree) -> Option<&Text>
    ensures { option_copied result ≡ text_in (out-Tree tree.now) }
{
    match tree {
        Tree::Scalar(text) => Some(text),
        _ => None,
    }
}

/// Whether a tree is null. No memory.
pub fn is_null(tree: &Tree) -> bool
    ensures { result ≡ is_null (out-Tree tree.now) }
{
    matches!(tree, Tree::Null)
}

/// The bool that a text writes, in any case.
pub fn bool_of(text: &Text) -> Option<bool>
    ensures { result ≡ bool_of text.now }
{
    if is_yes(text.as_str()) {
        Some(true)
    } else if is_no(text.as_str()) {
        Some(false)
    } else {
        None
    }
}

fn is_yes(text: &str) -> bool
    ensures { result ≡ is_word_in yes_words text.now }
{
    is_one_of(text, &YES)
}

fn is_no(text: &str) -> bool
    ensures { result ≡ is_word_in no_words text.now }
{
    is_one_of(text, &NO)
}

fn is_one_of(text: &str, words: &[&str]) -> bool
    ensures { result ≡ list_any (λ word. bytes_eq (str_to_ascii_lowercase text.now)
        (str_to_ascii_lowercase word.now)) words.now }
{
    words.iter().any(|word| is_same_word(text, word))
}

fn is_same_word(text: &str, word: &str) -> bool
    ensures { result ≡ bytes_eq (str_to_ascii_lowercase text.now)
        (str_to_ascii_lowercase word.now) }
{
    text.eq_ignore_ascii_case(word)
}

/// The number that digits write.
pub fn num_of(text: &str) -> Option<u64>
    ensures value { result ≡ num_of text.now }
    ensures range { IfSome result (λ number. number ≤ greatest_number) }
{
    number(text.as_bytes(), GREATEST_NUMBER)
}

/// A number, or -1. No memory.
pub fn int_of(text: &Text) -> Option<i64>
    ensures { result ≡ int_of text.now }
{
    if text.as_str() == "-1" {
        return Some(-1);
    }
    let number = num_of(text.as_str())?;
    Some(number as i64)
}

/// The microseconds of the duration that a text writes. No memory.
pub fn duration_of(text: &Text) -> Option<u64>
    ensures { result ≡ duration_of text.now }
{
    duration(text).ok()
}

/// The bytes of the size that a text writes. No memory.
pub fn size_of(text: &Text) -> Option<u64>
    ensures { result ≡ size_of text.now }
{
    size(text).ok()
}

/// The billionths of the decimal that a text writes. No memory.
pub fn decimal_of(text: &Text) -> Option<u64>
    ensures { result ≡ decimal_of text.now }
{
    decimal(text).ok()
}

/// The port of a container: a number from 1 to 65,535.
pub fn target_of(text: &str) -> Option<u32>
    ensures { result ≡ target_in text.now }
{
    match port_number(text) {
        Some(port) if port > 0 => Some(port),
        _ => None,
    }
}

/// Whether a text is one of the words of a set; a restart may have its count.
pub fn is_word_of(set: WordSet, text: &str) -> bool
    ensures { result ≡ is_word_of set text.now }
{
    match set {
        WordSet::NetworkModes => is_network_mode(text),
        WordSet::PullPolicies => is_pull_policy(text),
        WordSet::Restarts => is_restart(text) || is_counted_restart(text),
        WordSet::OwnNamespaces => !is_of_another(text),
        WordSet::MountTypes => is_mount_type(text),
        WordSet::Protocols => is_port_protocol(text),
        WordSet::Labels => is_label(text),
        WordSet::Conditions => is_condition(text),
    }
}

fn is_network_mode(text: &str) -> bool
    ensures { result ≡ is_word_of WordSet.NetworkModes text.now }
{
    matches!(text, "none" | "host" | "bridge")
}

/// Whether a namespace is another service's or container's.
fn is_of_another(text: &str) -> bool
    ensures { result ≡ is_of_another text.now }
{
    text.starts_with("service:") || text.starts_with("container:")
}

fn is_mount_type(text: &str) -> bool
    ensures { result ≡ is_word_of WordSet.MountTypes text.now }
{
    matches!(text, "bind" | "volume" | "tmpfs")
}

fn is_port_protocol(text: &str) -> bool
    ensures { result ≡ is_word_of WordSet.Protocols text.now }
{
    matches!(text, "tcp" | "udp" | "sctp")
}

fn is_label(text: &str) -> bool
    ensures { result ≡ is_word_of WordSet.Labels text.now }
{
    matches!(text, "z" | "Z")
}

fn is_pull_policy(text: &str) -> bool
    ensures { result ≡ is_word_of WordSet.PullPolicies text.now }
{
    matches!(
        text,
        "always" | "never" | "missing" | "if_not_present" | "build"
    )
}

fn is_restart(text: &str) -> bool
    ensures { result ≡ is_in (words_of WordSet.Restarts) text.now }
{
    matches!(text, "no" | "always" | "unless-stopped" | "on-failure")
}

fn is_counted_restart(text: &str) -> bool
    ensures { result ≡ is_counted_restart text.now }
{
    match text.as_bytes().strip_prefix(b"on-failure:") {
        Some(count) => number(count, GREATEST_NUMBER).is_some(),
        None => false,
    }
}

fn is_protocol(text: &str) -> bool
    ensures { result ≡ is_protocol text.now }
{
    matches!(text, "tcp" | "udp" | "sctp")
}

fn is_condition(text: &str) -> bool
    ensures { result ≡ is_word_of WordSet.Conditions text.now }
{
    matches!(
        text,
        "service_started" | "service_healthy" | "service_completed_successfully"
    )
}

/// Whether no `:` stands in a text.
pub fn has_no_colon(text: &str) -> bool
    ensures { result ≡ has_no_colon text.now }
{
    !has_colon(text.as_bytes())
}

fn has_colon(text: &[u8]) -> bool
    ensures { result ≡ list_any (λ b. b == 58) text.now }
{
    text.iter().any(|byte| *byte == b':')
}

/// Whether a text of a list has the form of its attribute.
pub fn has_form(form: ItemForm, text: &str) -> bool
    ensures { result ≡ has_form form text.now }
{
    match form {
        ItemForm::Device => is_device(text),
        ItemForm::Exposed => is_exposed(text),
        ItemForm::Tmpfs => begins_with_path(text.as_bytes()),
        ItemForm::SecurityOption => is_security_option(text),
    }
}

fn is_device(text: &str) -> bool
    ensures { result ≡ has_form ItemForm.Device text.now }
{
    match cut_text(text, ':') {
        None => !text.is_empty(),
        Some((host, rest)) => !host.is_empty() && is_behind_host(rest),
    }
}

fn is_behind_host(rest: &str) -> bool
    ensures { result ≡ are_behind_host rest.now (cut_once 58 rest.now) }
{
    match cut_text(rest, ':') {
        None => !rest.is_empty(),
        Some((container, permissions)) => {
            !container.is_empty() && are_permissions(permissions.as_bytes())
        }
    }
}

fn are_permissions(permissions: &[u8]) -> bool
    ensures { result ≡ are_permissions permissions.now }
{
    !permissions.is_empty() && are_all_permissions(permissions)
}

fn are_all_permissions(letters: &[u8]) -> bool
    ensures { result ≡ list_all is_permission letters.now }
{
    letters.iter().all(|byte| is_permission(*byte))
}

fn is_permission(byte: u8) -> bool
    ensures { result ≡ is_permission byte }
{
    matches!(byte, b'r' | b'w' | b'm')
}

fn is_exposed(text: &str) -> bool
    ensures { result ≡ has_form ItemForm.Exposed text.now }
{
    match cut_text(text, '/') {
        None => target_of(text).is_some(),
        Some((port, protocol)) => target_of(port).is_some() && is_protocol(protocol),
    }
}

/// Whether an option of security names no file of a profile of system calls: the Engine takes the profile itself.
fn is_security_option(text: &str) -> bool
    ensures { result ≡ is_security_option text.now }
{
    has_profile(text, "seccomp=") && has_profile(text, "seccomp:")
}

fn has_profile(text: &str, word: &str) -> bool
    ensures { result ≡ has_profile text.now word.now }
{
    match text.strip_prefix(word) {
        Some(profile) => is_profile(profile),
        None => true,
    }
}

fn is_profile(text: &str) -> bool
    ensures { result ≡ is_profile text.now }
{
    matches!(text, "unconfined" | "builtin") || text.starts_with("{")
}

fn begins_with_path(text: &[u8]) -> bool
    ensures { result ≡ begins_with_path text.now }
{
    match text {
        [first, ..] => *first != b':',
        [] => false,
    }
}
