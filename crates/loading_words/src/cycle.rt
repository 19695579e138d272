ghost use Rattle.std.specs.Prelude.{◌≡◌, ◌++◌, IfOk, OnOk, codes, map};
ghost use Rattle.std.specs.List.{flat_map};
ghost use Rattle.loaded_files.specs.declared.refusal.LoadRefusal.{LoadRefusal};
ghost use Rattle.loading_words.specs.Messages.{listed, load_words, service_words};

use loaded_files::ServiceAt;
use std::alloc::Global;
use tree_base::{List, Memory, Text};

/// What is said of services that extend one another.
pub(crate) fn extends_words(alloc: Global, services: &[ServiceAt]) -> Result<Text, Memory>
    ensures { IfOk result
        (λ words. words ≡ load_words (LoadRefusal.ExtendsCycle services.now)) }
{
    let names = services_words(alloc, services)?;
    let mut words = Text::from_str(alloc, "extends cycle: ")?;
    push_listed(&mut words, names.as_slice())?;
    Ok(words)
}

/// Services of files, as they are printed.
fn services_words(alloc: Global, services: &[ServiceAt]) -> Result<List<Text>, Memory>
    ensures { IfOk result (λ names. names ≡ map service_words services.now) }
{
    let mut names = List::new(alloc);
    for service in services {
        names.push(service_words(alloc, service)?)?;
    }
    Ok(names)
}

fn service_words(alloc: Global, at: &ServiceAt) -> Result<Text, Memory>
    ensures { IfOk result (λ words. words ≡ service_words at.now) }
{
    let file = &at.file;
    let service = &at.service;
    let words = format!(in alloc; "{file} {service}")?;
    Ok(Text::from_string(words))
}

/// What is said of files that include one another.
pub(crate) fn include_words(alloc: Global, files: &[Text]) -> Result<Text, Memory>
    ensures { IfOk result (λ words. words ≡ load_words (LoadRefusal.IncludeCycle files.now)) }
{
    let mut words = Text::from_str(alloc, "include cycle: ")?;
    push_listed(&mut words, files)?;
    Ok(words)
}

/// Texts behind one another, with commas between them.
fn push_listed(words: &mut Text, texts: &[Text]) -> Result<(), Memory>
    ensures { OnOk result (words.new ≡ words.old ++ listed texts.now) }
{
    match texts {
        [first, later @ ..] => {
            words.push_str(first.as_str())?;
            push_later(words, later)?;
        }
        [] => {}
    }
    Ok(())
}

fn push_later(words: &mut Text, texts: &[Text]) -> Result<(), Memory>
    ensures { OnOk result
        (words.new ≡ words.old ++ flat_map (λ later. codes ", " ++ later) texts.now) }
{
    for text in texts {
        words.push_str(", ")?;
        words.push_str(text.as_str())?;
    }
    Ok(())
}
