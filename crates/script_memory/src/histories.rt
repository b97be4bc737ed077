// The generations that a script publishes, with its map as it is told.
ghost use Rattle.std.specs.Prelude.{◌≡◌, IfOk};
ghost use Rattle.script_map.specs.Left.{all_shown, first_of, published_in};
ghost use Rattle.script_memory.specs.Told.{told_of};

use crate::maps::{ToldMap, told};
use generation::Generation;
use script_map::{History, follow};
use script_text::Script;
use std::alloc::{AllocError, Global};
use std::sync::Arc;

/// What a script leaves, as it is told, and each generation that it published on the way.
#[derive(Drop)]
pub struct ToldHistory {
    /// What it leaves.
    pub map: ToldMap,
    /// The generations that its commands published, in order.
    pub published: Vec<Arc<Generation, Global>>,
}

/// Does the commands of a script of this text on a machine of its own, and hands out what they left, as it is told, and the generations
/// that they published.
///
/// It fails only where memory runs out. All generations are kept at once.
pub fn follow_told(alloc: Global, text: &[u8], script: &Script) -> Result<ToldHistory, AllocError>
    ensures map { IfOk result (λ h. h.map ≡ told_of text.now script.now) }
    ensures published { IfOk result (λ h. all_shown h.published.items ≡ published_in (first_of script.now) script.now) }
{
    let History { map, published } = follow(alloc, script)?;
    match told(alloc, text, script, map) {
        Ok(map) => Ok(ToldHistory { map, published }),
        Err(fault) => {
            drop(published);
            Err(fault)
        }
    }
}
