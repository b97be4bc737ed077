// One round: a text is run, and what is refused becomes comments.
ghost use Rattle.std.specs.Prelude.{◌≡◌, IfErr, IfOk, length};
ghost use Rattle.mem_base.specs.script.Scripts.{script_of};
ghost use Rattle.script_map.specs.Reads.{IfBad};
ghost use Rattle.script_map.specs.declared.reading.MapStop.TheVariants.{Memory};
ghost use Rattle.script_settle.specs.Refused.{HasRefused};

use crate::refusals::without_refused;
use script_lines::Line;
use script_map::{MapStop, ScriptMap, read};
use std::alloc::Global;

/// How many commands of a text are refused, and the text with comments in their place.
#[derive(Drop)]
pub(crate) struct Round {
    pub(crate) refused: usize,
    pub(crate) next: Line,
}

// What a script's map tells of its text.
fn round_of(alloc: Global, text: &[u8], map: &ScriptMap) -> Result<Round, MapStop>
    ensures refused { IfOk result (λ round. round.refused ≡ length map.now.refused) }
    ensures fails { IfErr result (λ stop. stop ≡ Memory) }
{
    let refused = map.refused();
    Ok(Round {
        refused: refused.len(),
        next: without_refused(alloc, text, refused)?,
    })
}

/// Runs a text.
pub(crate) fn run_once(alloc: Global, text: &[u8]) -> Result<Round, MapStop>
    ensures refused { IfOk result (λ round. HasRefused text.now round.refused) }
    ensures bad { IfErr result (λ stop. IfBad stop (script_of text.now)) }
{
    match read(alloc, text) {
        Ok(map) => round_of(alloc, text, &map),
        Err(stop) => Err(stop),
    }
}
