ghost use Rattle.std.specs.Prelude.{◌≡◌, IfOk, IfSome, OnErr, true, false};
ghost use Rattle.std.specs.Option.{option_copied};
ghost use Rattle.run_model.specs.EngineRules.{Answers, IsSound, container_at, has_container_named};
ghost use Rattle.memory_engine.specs.Keeping.{HasOwnIds};
ghost use Rattle.memory_engine.specs.Naming.{name_given};
ghost use Rattle.memory_engine.specs.Serving.{served};

use crate::catalogue::Catalogue;
use crate::state::MemoryEngine;
use crate::{containers, creation, images, listing, look_ups, networks, volumes};
use engine_types::{ContainerRow, Engine, Reply, Request};
use std::alloc::Global;
use tree_base::{Memory, Text};

impl MemoryEngine {
    /// Answers a request, as version 1.43 of the Docker Engine API does. `Memory` where there is none, or
    /// where no id is left for what is to be made; nothing changed then.
    pub fn serve(&mut self, alloc: Global, request: &Request) -> Result<Reply, Memory>
        ensures served { IfOk result (λ reply.
            served self.old.catalogue self.old.engine request.now ≡ (reply, self.new.engine)) }
        ensures answers { IfOk result (λ reply.
            Answers self.old.engine request.now reply self.new.engine) }
        ensures err { OnErr result (self.new.engine ≡ self.old.engine) }
        ensures sound { IsSound self.new.engine }
        ensures script { self.new.script ≡ self.old.script }
        ensures faults { self.new.faults ≡ self.old.faults }
        ensures made { self.new.made ≡ self.old.made }
        ensures catalogue { self.new.catalogue ≡ self.old.catalogue }
    {
        // Ids are counted in 64 bits: the read tells the proof so.
        let _next = self.engine.next;
        let is_new = self.names.note(alloc, request)?;
        answer(alloc, &self.catalogue, &mut self.engine, request, is_new)
    }

    /// The container with an id. No memory.
    pub fn container(&self, id: &Text) -> Option<&ContainerRow>
        ensures { option_copied result ≡ container_at self.now.engine id.now }
    {
        look_ups::container(&self.engine, id)
    }
}

/// Answers a request. `is_new` says that no container has the name that it gives to one.
fn answer(
    alloc: Global,
    catalogue: &Catalogue,
    engine: &mut Engine,
    request: &Request,
    is_new: bool,
) -> Result<Reply, Memory>
    requires ids { HasOwnIds engine.old.containers }
    requires new { is_new ≡ true
        → IfSome (name_given request.now) (λ name. has_container_named engine.old name ≡ false) }
    ensures ok { IfOk result
        (λ reply. served catalogue.now engine.old request.now ≡ (reply, engine.new)) }
    ensures err { OnErr result (engine.new ≡ engine.old) }
{
    match request {
        Request::ListContainers { project } => listing::list(alloc, engine, project),
        Request::Inspect { id } => containers::inspect(alloc, engine, id),
        Request::Logs { id } => containers::logs(alloc, engine, id),
        Request::Create { name, spec } => creation::create(alloc, engine, name, spec.get(), is_new),
        Request::Start { id } => containers::start(alloc, engine, id),
        Request::Stop { id, .. } => containers::stop(alloc, engine, id),
        Request::Remove { id } => containers::remove(alloc, engine, id),
        Request::ListNetworks => networks::list(alloc, engine),
        Request::MakeNetwork { spec } => networks::make(alloc, engine, spec),
        Request::Connect {
            network,
            container,
            ..
        } => networks::connect(alloc, engine, network, container),
        Request::RemoveNetwork { id } => networks::remove(alloc, engine, id),
        Request::ListVolumes => volumes::list(alloc, engine),
        Request::MakeVolume { spec } => volumes::make(alloc, engine, &spec.name),
        Request::RemoveVolume { name } => volumes::remove(alloc, engine, name),
        Request::Image { name } => images::tell(alloc, engine, name),
        Request::Pull { name } => images::pull(alloc, catalogue, engine, name),
    }
}
