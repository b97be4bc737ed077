// What one pass has done.
ghost use Rattle.std.specs.Prelude.{◌≡◌, ◌+◌, ◌^◌, ◌<◌, Some, is_some};
ghost use Rattle.mem_base.specs.machine.Passes.{idle};
ghost use Rattle.mem_base.specs.machine.Generations.{pin_word};

use std::marker::Model;

/// The numbers that a pass looked at, announced and entered.
#[derive(Debug, Drop)]
pub(crate) struct Numbers {
    looked: Option<u64>,
    announced: Option<u64>,
    entered: Option<u64>,
}

impl Model for Numbers {
    ghost use Rattle.std.specs.Prelude.{◌+◌, ◌^◌, ◌<◌, IfSome};
    ghost use Rattle.mem_base.specs.machine.Passes.{PassState};

    ghost Value = { PassState };

    ghost view = { λ p. record { looked = p.looked; announced = p.announced; entered = p.entered } };

    ghost invariant = { λ p. IfSome p.looked (λ n. n + 1 < 2 ^ 64) × IfSome p.announced (λ n. n + 1 < 2 ^ 64) };
}

impl Numbers {
    /// Of a pass that has done nothing.
    pub(crate) fn idle() -> Numbers
        ensures { result ≡ idle }
    {
        Numbers {
            looked: None,
            announced: None,
            entered: None,
        }
    }

    /// The announced number.
    pub(crate) fn announced(&self) -> Option<u64>
        ensures { result ≡ self.now.announced }
    {
        self.announced
    }

    /// The number of the generation in which it is entered.
    pub(crate) fn entered(&self) -> Option<u64>
        ensures { result ≡ self.now.entered }
    {
        self.entered
    }

    /// Whether it looked at a number.
    pub(crate) fn has_looked(&self) -> bool
        ensures { result ≡ is_some self.now.looked }
    {
        self.looked.is_some()
    }

    /// 0, or the announced number plus one.
    pub(crate) fn pin_word(&self) -> u64
        ensures { result ≡ pin_word self.now.announced }
    {
        match self.announced {
            Some(number) => number + 1,
            None => 0,
        }
    }

    /// It looks at a number.
    pub(crate) fn look(&mut self, number: u64)
        requires { number + 1 < 2 ^ 64 }
        ensures { self.new ≡ record self.old { looked = Some number } }
    {
        self.looked = Some(number);
    }

    /// It announces the number that it looked at.
    pub(crate) fn announce(&mut self)
        ensures { self.new ≡ record self.old { announced = self.old.looked } }
    {
        self.announced = self.looked;
    }

    /// It enters the generation of a number.
    pub(crate) fn enter(&mut self, number: u64)
        ensures { self.new ≡ record self.old { entered = Some number } }
    {
        self.entered = Some(number);
    }
}
