// The map that a script leaves, as it is told.
ghost use Rattle.std.specs.Prelude.{◌≡◌, IfErr, IfOk};
ghost use Rattle.mem_base.specs.map.Forest.{IsMade};
ghost use Rattle.mem_base.specs.script.Scripts.{script_of};
ghost use Rattle.mem_base.specs.script.States.{region_named, space_named};
ghost use Rattle.script_names.specs.Tables.{printed_names};
ghost use Rattle.script_map.specs.Left.{left_state, shown_by, shown_in};
ghost use Rattle.script_map.specs.Reads.{IfBad};
ghost use Rattle.script_memory.specs.Regions.{memory_of};
ghost use Rattle.script_memory.specs.Told.{IsToldByText, told_in, told_names, told_of};

use crate::names::told_names;
use crate::regions::memory_of;
use generation::Generation;
use mem_base::{Name, RegionId, SpaceId};
use script_map::{MapStop, ScriptMap, after};
use script_names::Names;
use script_text::{ParseFault, Script, parse};
use std::alloc::{AllocError, Global};
use std::marker::Model;

/// The map that a script leaves, told with some of its regions read as memory.
///
/// It is seen as the state that is told, and these regions.
#[derive(Drop)]
pub struct ToldMap {
    map: ScriptMap,
    memory: Vec<RegionId>,
    names: Names,
}

impl Model for ToldMap {
    ghost use Rattle.std.specs.Prelude.{◌≡◌};
    ghost use Rattle.script_names.specs.Tables.{printed_names};
    ghost use Rattle.script_map.specs.Left.{left_state};
    ghost use Rattle.script_memory.specs.Told.{Told, told_in, told_names};

    ghost Value = { Told };

    ghost view = { λ m. told_in m.memory.items (left_state m.map) };

    ghost invariant = { λ m. printed_names m.names ≡ told_names m.memory.items (left_state m.map).names };
}

impl ToldMap {
    /// The current generation, which the last change that was published left.
    pub fn generation(&self) -> &Generation
        ensures shown { shown_by result.now ≡ shown_in self.now.state }
        ensures made { IsMade result.now.forest }
    {
        self.map.generation()
    }

    /// All names that were made, by which lines are written; the kind of a region that is read as memory is RAM.
    pub fn names(&self) -> &Names
        ensures { printed_names result.now ≡ self.now.state.names }
    {
        &self.names
    }

    /// The space that a name stands for.
    pub fn space(&self, name: &Name) -> Option<SpaceId>
        ensures { result ≡ space_named self.now.state name.now }
    {
        self.map.space(name)
    }

    /// The region that a name stands for: of all that had it, the one that was not dropped.
    pub fn region(&self, name: &Name) -> Option<RegionId>
        ensures { result ≡ region_named self.now.state name.now }
    {
        self.map.region(name)
    }

    /// The regions that are read as memory, in order of making.
    pub fn memory(&self) -> &[RegionId]
        ensures { result.now ≡ self.now.memory }
    {
        &self.memory
    }
}

// The regions of a map that are read as memory, and the names by which its lines are told.
fn read_as(
    alloc: Global,
    text: &[u8],
    script: &Script,
    map: &ScriptMap,
) -> Result<(Vec<RegionId>, Names), AllocError>
    ensures memory { IfOk result (λ read. read.0.items ≡ memory_of text.now map.now.refused script.now) }
    ensures names { IfOk result (λ read. printed_names read.1 ≡ told_names read.0.items (left_state map.now).names) }
{
    let memory = memory_of(alloc, text, map.refused(), script.lines())?;
    match told_names(alloc, map.names(), &memory) {
        Ok(names) => Ok((memory, names)),
        Err(fault) => Err(fault),
    }
}

/// The map of a script of this text, as it is told.
pub(crate) fn told(
    alloc: Global,
    text: &[u8],
    script: &Script,
    map: ScriptMap,
) -> Result<ToldMap, AllocError>
    ensures { IfOk result (λ m. m ≡ told_in (memory_of text.now map.refused script.now) (left_state map)) }
{
    match read_as(alloc, text, script, &map) {
        Ok((memory, names)) => Ok(ToldMap { map, memory, names }),
        Err(fault) => {
            drop(map);
            Err(fault)
        }
    }
}

// The map that a script leaves, as it is told by the script's text.
fn told_after(alloc: Global, text: &[u8], script: &Script) -> Result<ToldMap, AllocError>
    ensures { IfOk result (λ m. m ≡ told_of text.now script.now) }
{
    let map = after(alloc, script)?;
    told(alloc, text, script, map)
}

/// The map that the script of a text leaves, as it is told.
///
/// `Bad` just where the text is no script, with its first line at fault.
pub fn read_told(alloc: Global, text: &[u8]) -> Result<ToldMap, MapStop>
    ensures map { IfOk result (λ m. IsToldByText text.now m) }
    ensures bad { IfErr result (λ stop. IfBad stop (script_of text.now)) }
{
    match parse(alloc, text) {
        Ok(script) => {
            let map = told_after(alloc, text, &script);
            drop(script);
            Ok(map?)
        }
        Err(ParseFault::Bad(bad)) => Err(MapStop::Bad(bad)),
        Err(ParseFault::Memory) => Err(MapStop::Memory),
    }
}
