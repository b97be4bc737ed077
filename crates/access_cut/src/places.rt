// The places of callbacks, one after another.
ghost use Rattle.std.specs.Prelude.{◌≡◌, [], ◌∷◌, MatchOption};

use std::marker::Model;

/// The places of the callbacks of a piece that are still to be given, in ascending order.
#[derive(Debug, Drop)]
pub struct Accesses {
    pub(crate) offset: u64,
    pub(crate) size: u8,
    pub(crate) left: u8,
}

impl Model for Accesses {
    ghost use Rattle.std.specs.Prelude.{List};
    ghost use Rattle.access_cut.specs.Offsets.{At, Begins, row};

    ghost Value = { List At };

    ghost view = { λ a. row a.offset a.size a.left };

    ghost invariant = { λ a. Begins a.offset a.size a.left };
}

impl Accesses {
    /// The offset and the size of the next callback, `None` where all were given.
    pub fn next(&mut self) -> Option<(u64, u8)>
        ensures { MatchOption result ((self.old ≡ []) × (self.new ≡ [])) (λ p. self.old ≡ p ∷ self.new) }
    {
        if self.left == 0 {
            return None;
        }
        let place = (self.offset, self.size);
        self.offset = self.offset.saturating_add(u64::from(self.size));
        self.left -= 1;
        Some(place)
    }
}
