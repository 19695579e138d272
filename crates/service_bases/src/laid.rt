ghost use Rattle.std.specs.Prelude.{◌≡◌, ℕ, Err, List, reverse};
ghost use Rattle.loaded_files.specs.Reads.{IsGiven};
ghost use Rattle.loaded_files.specs.declared.refusal.LoadRefusal.{LoadRefusal};
ghost use Rattle.service_bases.specs.Chains.{laid_up, layer_over, layers_over};

use crate::chain::Layer;
use loaded_files::LoadRefusal;
use merge_rules::service_onto;
use merge_tables::MergeRefusal;
use std::alloc::Global;
use tree_base::{List, Map, TextMap};

/// A chain laid from its last service up.
pub(crate) fn laid_up(alloc: Global, layers: List<Layer>) -> Result<Map, LoadRefusal>
    ensures given { IsGiven result (laid_up (reverse layers)) }
    ensures fault { (at : List ℕ) → result ≡ Err (LoadRefusal.ReadFault at) → ⊥ }
{
    let mut rest = layers;
    match rest.pop() {
        None => Ok(TextMap::new(alloc)),
        Some(last) => layers_over(alloc, last.service, rest),
    }
}

/// The services of a chain laid over what its bases gave, from its end up.
fn layers_over(alloc: Global, base: Map, layers: List<Layer>) -> Result<Map, LoadRefusal>
    ensures given { IsGiven result (layers_over base (reverse layers)) }
    ensures fault { (at : List ℕ) → result ≡ Err (LoadRefusal.ReadFault at) → ⊥ }
{
    let mut rest = layers;
    let mut all = base;
    while let Some(layer) = rest.pop() {
        all = layer_over(alloc, all, &layer)?;
    }
    Ok(all)
}

/// A service laid over what its bases gave, which is moved.
pub(crate) fn layer_over(alloc: Global, base: Map, layer: &Layer) -> Result<Map, LoadRefusal>
    ensures given { IsGiven result (layer_over base layer.now) }
    ensures fault { (at : List ℕ) → result ≡ Err (LoadRefusal.ReadFault at) → ⊥ }
{
    match service_onto(alloc, &layer.at.service, base, &layer.service) {
        Ok(all) => Ok(all),
        Err(MergeRefusal::Memory) => Err(LoadRefusal::Memory),
        Err(cause) => Err(LoadRefusal::Merge {
            path: layer.at.file.copy(alloc)?,
            cause,
        }),
    }
}
