// The generations that are kept, for the writer to tell which regions they name.
ghost use Rattle.std.specs.Prelude.{◌≡◌, ◌+◌, ◌-◌, [], ◌∷◌, take, IfOk};
ghost use Rattle.std.specs.List.{list_any};
ghost use Rattle.std.specs.Arc.{arc_value};
ghost use Rattle.mem_base.specs.map.Limits.{most_generations};
ghost use Rattle.mem_base.specs.views.Naming.{names};
ghost use Rattle.seat_run.specs.Recents.{is_named_in, shown_by};

use generation::Generation;
use mem_base::{MOST_GENERATIONS, RegionId};
use std::alloc::{AllocError, Global};
use std::marker::Model;
use std::sync::Arc;

/// The last generations that were published, at most eight, the current one first.
#[derive(Drop)]
pub struct Recent {
    // there is room for all of them
    generations: Vec<Arc<Generation, Global>>,
}

impl Model for Recent {
    ghost use Rattle.std.specs.Prelude.{◌≤◌, List, map, vec_capacity};
    ghost use Rattle.std.specs.Arc.{arc_value};
    ghost use Rattle.mem_base.specs.map.Limits.{most_generations};
    ghost use Rattle.mem_base.specs.machine.Generations.{Generation};
    ghost use Rattle.seat_run.specs.Recents.{shown_by};

    ghost Value = { List Generation };

    ghost view = { λ r. map shown_by (map arc_value r.generations.items) };

    ghost invariant = { λ r. most_generations ≤ vec_capacity r.generations };
}

impl Recent {
    /// The first generation alone. It fails only where memory runs out.
    pub fn new(alloc: Global, first: &Arc<Generation, Global>) -> Result<Recent, AllocError>
        ensures { IfOk result (λ recent. recent ≡ shown_by (arc_value first.now) ∷ []) }
    {
        let mut generations = Vec::with_capacity(alloc, MOST_GENERATIONS as usize)?;
        let _ = generations.push(Arc::try_clone(first)?);
        Ok(Recent { generations })
    }

    /// The next generation is the current one, and the oldest of eight is kept no more. It takes no memory.
    pub(crate) fn push(&mut self, next: Arc<Generation, Global>)
        ensures { self.new ≡ shown_by (arc_value next) ∷ take (most_generations - 1) self.old }
    {
        self.generations.truncate(MOST_GENERATIONS as usize - 1);
        let _ = self.generations.insert(0, next);
    }

    /// Whether one of them of at least this number names a region, by the number of the current one.
    pub(crate) fn is_named(&self, current: u64, lowest: u64, region: RegionId) -> bool
        ensures { result ≡ list_any (λ x. names x.forest region) (take (current + 1 - lowest) self.now) }
    {
        if lowest > current {
            return false;
        }
        let all = self.generations.as_slice();
        let back = current - lowest;
        if back >= all.len() as u64 {
            return is_named_among(all, region);
        }
        is_named_among(&all[..back as usize + 1], region)
    }
}

// Whether one of these generations names a region.
fn is_named_among(generations: &[Arc<Generation, Global>], region: RegionId) -> bool
    ensures { result ≡ list_any (λ a. is_named_in region (arc_value a)) generations.now }
{
    for generation in generations.iter() {
        if generation.names(region) {
            return true;
        }
    }
    false
}
