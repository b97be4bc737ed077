// The second tree of a desk, so that a change need not copy the whole tree.
ghost use Rattle.std.specs.Prelude.{◌≡◌, [], Option, Ok, IfOk, IfSome, OnOk, unwrap_or, option_map};
ghost use Rattle.mem_base.specs.declared.map.forests.Forest.{Forest};
ghost use Rattle.mem_base.specs.map.Calls.{after, after_all, left_by};
ghost use Rattle.transact.specs.Spares.{IsSpare, IsNext};

use mem_base::{Call, Refusal};
use region_tree::Tree;
use std::alloc::{AllocError, Global};
use std::marker::Model;
use std::mem;

// The most calls that a spare may lack; a desk gives it up before it lacks more.
const MOST_MISSING: usize = 64;

/// A second tree, with the calls that it lacks to be the desk's own; a call that is refused may stand among them.
///
/// It is seen as the forest that it comes to when they are done.
#[derive(Drop)]
pub(crate) struct Spare {
    tree: Tree,
    missing: Vec<Call>,
}

impl Model for Spare {
    ghost use Rattle.mem_base.specs.declared.map.forests.Forest.{Forest};
    ghost use Rattle.mem_base.specs.map.Calls.{after_all};

    ghost Value = { Forest };

    ghost view = { λ s. after_all s.tree s.missing.items };
}

/// The tree after a call that was prepared; and the call, also as the list of what the tree before it lacks then.
#[derive(Drop)]
pub(crate) struct Next {
    pub(crate) tree: Tree,
    pub(crate) call: Call,
    pub(crate) missing: Vec<Call>,
}

// Does a call, which may be refused. It fails only where memory runs out.
fn do_one(tree: &mut Tree, call: &Call) -> Result<(), AllocError>
    ensures { OnOk result (tree.new ≡ left_by tree.old (after tree.old call.now)) }
{
    match tree.apply(call) {
        Ok(_) => Ok(()),
        Err(Refusal::Memory) => Err(AllocError),
        Err(_) => Ok(()),
    }
}

// Does these calls one after another, each of which may be refused. It fails only where memory runs out.
fn do_all(tree: &mut Tree, calls: &[Call]) -> Result<(), AllocError>
    ensures { OnOk result (tree.new ≡ after_all tree.old calls.now) }
{
    for call in calls {
        do_one(tree, call)?;
    }
    Ok(())
}

impl Spare {
    /// A tree that lacks these calls.
    pub(crate) fn new(tree: Tree, missing: Vec<Call>) -> Spare
        ensures { result ≡ after_all tree missing.items }
    {
        Spare { tree, missing }
    }

    /// The spare when one more call was done at the desk; `None` where it would lack too many, or memory runs out.
    pub(crate) fn with_call(self, call: &Call) -> Option<Spare>
        ensures { IfSome result (λ spare. spare ≡ left_by self (after self call.now)) }
    {
        let Spare { tree, mut missing } = self;
        if missing.len() >= MOST_MISSING {
            return None;
        }
        match missing.push(*call) {
            Ok(()) => Some(Spare { tree, missing }),
            Err(_) => None,
        }
    }

    // Does the calls that the tree lacks; the list is empty then, and keeps its room.
    fn up_to_date(self) -> Result<(Tree, Vec<Call>), AllocError>
        ensures tree { IfOk result (λ both. both.0 ≡ self) }
        ensures missing { IfOk result (λ both. both.1.items ≡ []) }
    {
        let Spare {
            mut tree,
            mut missing,
        } = self;
        do_all(&mut tree, missing.as_slice())?;
        missing.clear();
        Ok((tree, missing))
    }
}

/// A second tree that is the same as this one, and an empty list of calls: of the spare, or a copy where there is none.
///
/// It fails only where memory runs out, and then the spare is lost.
pub(crate) fn second(
    alloc: Global,
    tree: &Tree,
    spare: Option<Spare>,
) -> Result<(Tree, Vec<Call>), AllocError>
    requires { IsSpare tree.now spare }
    ensures tree { IfOk result (λ both. both.0 ≡ tree.now) }
    ensures missing { IfOk result (λ both. both.1.items ≡ []) }
{
    match spare {
        Some(spare) => spare.up_to_date(),
        None => Ok((tree.try_copy()?, Vec::new(alloc))),
    }
}

/// The spare when one more call was done at the desk; `None` where it is given up.
pub(crate) fn lacking(spare: Option<Spare>, call: &Call) -> Option<Spare>
    ensures { (f g : Forest) → IsSpare f spare → after f call.now ≡ Ok g → IsSpare g result }
{
    match spare {
        Some(spare) => spare.with_call(call),
        None => None,
    }
}

/// Puts the tree after a call in the place of the one before it, which is the spare from then on. Where there is no such
/// tree, both stay.
pub(crate) fn replace(tree: &mut Tree, spare: &mut Option<Spare>, next: Option<Next>)
    requires call { IfSome next (λ next. after tree.old next.call ≡ Ok next.tree) }
    requires next { IfSome next (λ next. IsNext next.tree next) }
    requires spare { IsSpare tree.old spare.old }
    ensures tree { tree.new ≡ unwrap_or (option_map (λ next. next.tree) next) tree.old }
    ensures spare { IsSpare tree.new spare.new }
{
    if let Some(next) = next {
        let Next {
            tree: after,
            missing,
            ..
        } = next;
        let before = mem::replace(tree, after);
        *spare = Some(Spare::new(before, missing));
    }
}
