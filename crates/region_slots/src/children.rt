// The children of a region, in the order of search.

ghost use Rattle.std.specs.Prelude.{◌≡◌, ◌-◌, ◌<◌, ◌≤◌, [], length, insert, IfOk, OnOk, OnErr};
ghost use Rattle.std.specs.Vec.{vec_len, vec_capacity};
ghost use Rattle.region_slots.specs.Slots.{ids_in, rank_in, others, resized, AreByPriority};

use mem_base::{RegionId, Size};
use std::alloc::{AllocError, Global};
use std::marker::Model;

/// What a search and a rendering need of a child.
#[derive(Clone, Copy, Debug, PartialEq, Eq)]
pub struct Child {
    pub id: RegionId,
    /// Of two children that hold an address, the one of higher priority is tried first.
    pub priority: i32,
    /// The offset in the container, in bytes.
    pub offset: u64,
    /// The last offset in the child itself, in bytes: its size less 1.
    pub last: u64,
}

/// The children of a region, in the order of search, and their ids once more as a list of its own.
#[derive(Debug, Drop)]
pub struct Children {
    ids: Vec<RegionId>,
    placed: Vec<Child>,
}

impl Model for Children {
    ghost use Rattle.std.specs.Prelude.{◌≡◌, List};
    ghost use Rattle.region_slots.specs.declared.children.Child.{Child};

    ghost Value = { List Child };

    ghost view = { λ c. c.placed.items };

    ghost use Rattle.region_slots.specs.Slots.{ids_in};

    ghost invariant = { λ c. c.ids.items ≡ ids_in c.placed.items };
}

impl Children {
    /// No child.
    pub fn new(alloc: Global) -> Children
        ensures { result ≡ [] }
    {
        Children {
            ids: Vec::new(alloc),
            placed: Vec::new(alloc),
        }
    }

    /// All of them.
    pub fn as_slice(&self) -> &[Child]
        ensures { result.now ≡ self.now }
    {
        self.placed.as_slice()
    }

    /// The ids of all of them.
    pub fn ids(&self) -> &[RegionId]
        ensures { result.now ≡ ids_in self.now }
    {
        self.ids.as_slice()
    }

    /// How many of the first children have a higher priority than this: the place of a region that is placed last.
    pub fn rank(&self, priority: i32) -> usize
        requires sorted { AreByPriority self.now }
        ensures rank { result ≡ rank_in priority self.now }
        ensures within { result ≤ length self.now }
    {
        rank_of(self.placed.as_slice(), priority)
    }

    /// Puts a child before the one at this place.
    pub fn insert(&mut self, rank: usize, child: Child) -> Result<(), AllocError>
        requires { rank ≤ length self.old }
        ensures ok { OnOk result (self.new ≡ insert self.old rank child) }
        ensures err { OnErr result (self.new ≡ self.old) }
    {
        self.placed.reserve(1)?;
        self.ids.insert(rank, child.id)?;
        match self.placed.insert(rank, child) {
            Ok(()) => Ok(()),
            Err(_) => unreachable!(),
        }
    }

    /// Puts a child where one that is placed last stands, in place of the child with its id, if there is one.
    pub fn replace(&mut self, child: Child) -> Result<(), AllocError>
        requires { AreByPriority self.old }
        ensures ok { OnOk result (self.new ≡ insert (others child.id self.old) (rank_in child.priority (others child.id self.old)) child) }
        ensures err { OnErr result (self.new ≡ self.old) }
    {
        self.ids.reserve(1)?;
        self.placed.reserve(1)?;
        self.ids.retain(|other| other.0 != child.id.0);
        self.placed.retain(|other| other.id.0 != child.id.0);
        let rank = rank_of(self.placed.as_slice(), child.priority);
        put(&mut self.ids, rank, child.id);
        put(&mut self.placed, rank, child);
        Ok(())
    }

    /// Gives the child with this id another last offset, if it is there.
    pub fn resize(&mut self, id: RegionId, last: u64)
        ensures { self.new ≡ resized id last self.old }
    {
        set_last(&mut self.placed, id, last);
    }

    /// Takes a child out.
    pub fn remove(&mut self, id: RegionId)
        ensures { self.new ≡ others id self.old }
    {
        self.ids.retain(|child| child.0 != id.0);
        self.placed.retain(|child| child.id.0 != id.0);
    }

    /// The same children once more.
    pub fn try_copy(&self) -> Result<Children, AllocError>
        ensures { IfOk result (λ copy. copy ≡ self.now) }
    {
        let ids = self.ids.clone()?;
        let placed = self.placed.clone()?;
        Ok(Children { ids, placed })
    }
}

/// Puts an element into a list that has room for it.
fn put<T: Copy>(list: &mut Vec<T>, rank: usize, item: T)
    requires within { rank ≤ length list.old.items }
    requires room { vec_len list.old < vec_capacity list.old }
    ensures { list.new.items ≡ insert list.old.items rank item }
{
    match list.insert(rank, item) {
        Ok(()) => {}
        Err(_) => unreachable!(),
    }
}

/// Gives the child with this id another last offset, if it is there.
fn set_last(placed: &mut [Child], id: RegionId, last: u64)
    ensures { placed.new ≡ resized id last placed.old }
{
    for child in placed.iter_mut() {
        if child.id.0 == id.0 {
            child.last = last;
        }
    }
}

/// The last offset in a region of this size, in bytes.
pub(crate) fn last_in(size: Size) -> u64
    ensures { result ≡ size - 1 }
{
    size.get().saturating_sub(1) as u64
}

/// How many of the first children have a higher priority than this.
fn rank_of(placed: &[Child], priority: i32) -> usize
    requires sorted { AreByPriority placed.now }
    ensures rank { result ≡ rank_in priority placed.now }
    ensures within { result ≤ length placed.now }
{
    placed.partition_point(|child| child.priority > priority)
}
