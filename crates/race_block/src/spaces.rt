// The spaces that lines name.
ghost use Rattle.std.specs.Prelude.{◌≡◌};
ghost use Rattle.mem_base.specs.script.Tasks.{space_named};

use mem_base::{Name, SpaceId};
use race_lines::KnownNames;
use std::marker::Model;

/// What is known of names, with the space that was named last at hand: most lines name the same one again.
#[derive(Drop)]
pub(crate) struct Spaces<'k, 'l> {
    names: &'k KnownNames,
    last: Option<(&'l Name, SpaceId)>,
}

impl<'k, 'l> Model for Spaces<'k, 'l> {
    ghost use Rattle.mem_base.specs.script.Tasks.{Known};

    ghost Value = { Known };

    ghost use Rattle.race_block.specs.Resolving.{IsLast};

    ghost view = { λ s. s.names.now };

    ghost invariant = { λ s. IsLast s.names.now s.last };
}

impl<'k, 'l> Spaces<'k, 'l> {
    /// No space was named yet.
    pub(crate) fn new(names: &'k KnownNames) -> Spaces<'k, 'l>
        ensures { result ≡ names.now }
    {
        Spaces { names, last: None }
    }

    /// What is known of names.
    pub(crate) fn names(&self) -> &KnownNames
        ensures { result.now ≡ self.now }
    {
        self.names
    }

    /// The space that a name stands for.
    pub(crate) fn space(&mut self, name: &'l Name) -> Option<SpaceId>
        ensures space { result ≡ space_named self.old name.now }
        ensures same { self.new ≡ self.old }
    {
        if let Some((last, space)) = self.last {
            if last.as_bytes() == name.as_bytes() {
                return Some(space);
            }
        }
        let space = self.names.space(name)?;
        self.last = Some((name, space));
        Some(space)
    }
}
