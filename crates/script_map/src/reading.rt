// A script's text to the map that it leaves.
ghost use Rattle.std.specs.Prelude.{◌≡◌, IfOk, IfErr, Ok};
ghost use Rattle.mem_base.specs.script.Scripts.{script_of};
ghost use Rattle.script_map.specs.Reads.{IfBad, IsLeftByText};
ghost use Rattle.script_map.specs.declared.reading.MapStop.TheVariants.{Bad, Memory};

use crate::maps::{ScriptMap, after};
use mem_base::BadScript;
use script_text::{ParseFault, parse};
use std::alloc::{AllocError, Global};

/// Why a text gives no map: it is no script, or there was no memory.
#[derive(Clone, Copy, Debug, PartialEq, Eq)]
pub enum MapStop {
    /// The first line at fault, and its cause.
    Bad(BadScript),
    Memory,
}

impl From<AllocError> for MapStop {
    ghost from_gives = { λ _ e. e ≡ Memory };

    fn from(_: AllocError) -> Self {
        MapStop::Memory
    }
}

impl From<ParseFault> for MapStop {
    fn from(fault: ParseFault) -> Self {
        match fault {
            ParseFault::Bad(bad) => MapStop::Bad(bad),
            ParseFault::Memory => MapStop::Memory,
        }
    }
}

/// The map that the script of a text leaves.
///
/// `Bad` just where the text is no script, with its first line at fault.
pub fn read(alloc: Global, text: &[u8]) -> Result<ScriptMap, MapStop>
    ensures map { IfOk result (λ map. IsLeftByText text.now map) }
    ensures bad { IfErr result (λ stop. IfBad stop (script_of text.now)) }
{
    match parse(alloc, text) {
        Ok(script) => Ok(after(alloc, &script)?),
        Err(ParseFault::Bad(bad)) => Err(MapStop::Bad(bad)),
        Err(ParseFault::Memory) => Err(MapStop::Memory),
    }
}
