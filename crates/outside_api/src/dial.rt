ghost use Rattle.std.specs.Prelude.{◌≡◌, [], ◌∷◌, ◌++◌, IfOk, OnErr, OnOk};
ghost use Rattle.std.specs.Option.{option_copied};
ghost use Rattle.outside_api.specs.Plugs.{dial_of};

use crate::plug::Target;
use std::alloc::Global;
use tree_base::{List, Memory, Text, TryCopy};

/// A dial as a plug is asked for it: the Engine that the hand is to speak with, the file whose coming asks its worker to stop, and
/// that worker's number.
#[derive(Drop)]
pub struct Dial {
    pub target: Target,
    pub stop_file: Option<Text>,
    pub number: u32,
}

/// Notes a dial that is asked for behind those before it, which stay alone where there is no memory for it.
pub fn note_dial(
    alloc: Global,
    dials: &mut List<Dial>,
    target: &Target,
    stop_file: Option<&Text>,
    number: u32,
) -> Result<(), Memory>
    ensures ok { OnOk result (dials.new ≡ dials.old
        ++ dial_of target.now (option_copied stop_file.entry) number ∷ []) }
    ensures err { OnErr result (dials.new ≡ dials.old) }
{
    let dial = dial_of(alloc, target, stop_file, number)?;
    dials.push(dial)
}

fn dial_of(
    alloc: Global,
    target: &Target,
    stop_file: Option<&Text>,
    number: u32,
) -> Result<Dial, Memory>
    ensures { IfOk result (λ dial.
        dial ≡ dial_of target.now (option_copied stop_file.entry) number) }
{
    Ok(Dial {
        target: target.copy(alloc)?,
        stop_file: copied_stop_file(alloc, stop_file)?,
        number,
    })
}

/// Notes a stream that is asked for behind those before it, which stay alone where there is no memory for it.
pub fn note_stream(alloc: Global, streams: &mut List<Target>, target: &Target) -> Result<(), Memory>
    ensures ok { OnOk result (streams.new ≡ streams.old ++ target.now ∷ []) }
    ensures err { OnErr result (streams.new ≡ streams.old) }
{
    let target = target.copy(alloc)?;
    streams.push(target)
}

/// Notes the path of a door that is asked for behind those before it, which stay alone where there is no memory for it.
pub fn note_door(alloc: Global, doors: &mut List<Text>, path: &Text) -> Result<(), Memory>
    ensures ok { OnOk result (doors.new ≡ doors.old ++ path.now ∷ []) }
    ensures err { OnErr result (doors.new ≡ doors.old) }
{
    let path = path.copy(alloc)?;
    doors.push(path)
}

/// A copy of the path of a stop file, where there is one.
pub fn copied_stop_file(alloc: Global, stop_file: Option<&Text>) -> Result<Option<Text>, Memory>
    ensures { IfOk result (λ copy. copy ≡ option_copied stop_file.entry) }
{
    match stop_file {
        Some(path) => Ok(Some(path.copy(alloc)?)),
        None => Ok(None),
    }
}
