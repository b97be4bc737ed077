// A clerk: what one who orders writes down.
ghost use Rattle.std.specs.Prelude.{◌≡◌, []};

use mem_base::DeskEntry;
use std::alloc::Global;
use std::marker::Model;

/// Who orders, with a list of the orders that it gave and what it got for them. It is seen as its number and the list.
#[derive(Drop)]
pub struct Clerk {
    pub who: u32,
    pub got: Vec<DeskEntry>,
}

impl Model for Clerk {
    ghost use Rattle.mem_base.specs.machine.Records.{Clerk};

    ghost Value = { Clerk };

    ghost view = { λ c. record { who = c.who; got = c.got.items } };
}

impl Clerk {
    /// A clerk that has ordered nothing. Its number is that of a virtual CPU's pass, or a greater one for anyone else.
    pub fn new(alloc: Global, who: u32) -> Clerk
        ensures who { result.who ≡ who }
        ensures got { result.got ≡ [] }
    {
        Clerk {
            who,
            got: Vec::new(alloc),
        }
    }

    /// Its number.
    pub fn who(&self) -> u32
        ensures { result ≡ self.now.who }
    {
        self.who
    }

    /// What it ordered and got, in order.
    pub fn got(&self) -> &[DeskEntry]
        ensures { result.now ≡ self.now.got }
    {
        self.got.as_slice()
    }
}
