// Copies of an edition that is to be published.
ghost use Rattle.std.specs.Prelude.{◌≡◌, IfOk};
ghost use Rattle.std.specs.Arc.{arc_value};

use mem_base::Edition;
use std::alloc::{AllocError, Global};
use std::marker::Model;
use std::sync::Arc;

/// An edition with a copy for each pass. Contracts see it as the edition and the number of copies.
#[derive(Drop)]
pub struct Batch<E: Edition + Drop> {
    pub(crate) edition: Arc<E, Global>,
    pub(crate) copies: Vec<Arc<E, Global>>,
}

impl<E: Edition + Drop> Model for Batch<E> {
    ghost use Rattle.std.specs.Prelude.{◌≡◌, length};
    ghost use Rattle.std.specs.Arc.{arc_value};
    ghost use Rattle.mem_base.specs.lists.Every.{Every};
    ghost use Rattle.epoch_rule.specs.Values.{BatchValue};

    ghost Value = { BatchValue E };

    ghost view = { λ b. record { edition = arc_value b.edition; copies = length b.copies.items } };

    ghost invariant = { λ b. Every (λ a. arc_value a ≡ arc_value b.edition) b.copies.items };
}

impl<E: Edition + Drop> Batch<E> {
    /// A batch of `copies` copies of an edition, or out of memory.
    pub fn new(alloc: Global, next: &Arc<E, Global>, copies: u32) -> Result<Batch<E>, AllocError>
        ensures { IfOk result (λ b. (b.edition ≡ arc_value next.now) × (b.copies ≡ copies)) }
    {
        let edition = Arc::try_clone(next)?;
        let mut all = Vec::new(alloc);
        for _ in 0..copies {
            all.push(Arc::try_clone(next)?)?;
        }
        Ok(Batch {
            edition,
            copies: all,
        })
    }
}
