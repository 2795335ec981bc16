//! The opening of a campaign.

ghost use Rattle.std.specs.Prelude.{◌≡◌, ◌-◌, ◌<◌, ◌≤◌, ◌∷◌, IfOk, Ok, length, replicate, vec_capacity};
ghost use Rattle.bx_plan.specs.Chains.{AreChains};
ghost use Rattle.bx_board.specs.Kept.{IsOpening, Opens};
ghost use Rattle.bx_world.specs.World.{started};

use crate::books::Book;
use crate::books::ending::push_all;
use crate::books::stands::{Stand, Way};
use crate::reports::Shown;
use crate::slots::ArcEnd;
use bx_load::Image;
use bx_plan::{Chains, Plan, chains_of};
use bx_share::{ArcHold, Hold};
use bx_terms::{AtomId, Fault};
use bx_world::ArcWorld;
use std::alloc::{AllocError, Global};
use std::collections::BTreeMap;

/// By chain, how many schedules end with it.
fn endings_of(alloc: Global, plan: &Plan, chains: &Chains) -> Result<Vec<usize>, AllocError>
    requires { AreChains plan.now chains.now }
    ensures { IfOk result (λ endings. length endings.items ≡ length chains.now.heads) }
{
    let mut endings = vec![in alloc; 0usize; chains.len()]?;
    for number in 0..plan.len() {
        let chain = chains.end(number);
        endings[chain] = endings[chain].saturating_add(1);
    }
    Ok(endings)
}

/// So many chains, of which the root stands so, and the others wait.
fn stands_of(alloc: Global, root: Stand, count: usize) -> Result<Vec<Stand>, AllocError>
    requires { 0 < count }
    ensures { IfOk result (λ stands. stands.items ≡ root ∷ replicate (count - 1) Stand.Waiting) }
{
    let mut stands = Vec::with_capacity(alloc, count)?;
    stands.push_reserved(root);
    for _next in 1..count {
        stands.push_reserved(Stand::Waiting);
    }
    Ok(stands)
}

/// Chains in a row that has room for so many.
fn ready_of(alloc: Global, chains: &[usize], count: usize) -> Result<Vec<usize>, AllocError>
    requires { length chains.now ≤ count }
    ensures items { IfOk result (λ ready. ready.items ≡ chains.now) }
    ensures capacity { IfOk result (λ ready. count ≤ vec_capacity ready) }
{
    let mut ready = Vec::with_capacity(alloc, count)?;
    push_all(&mut ready, chains);
    Ok(ready)
}

impl<'a> Book<'a> {
    /// The campaign of a plan's chains from the world at the start.
    fn begun(
        alloc: Global,
        image: &'a Image,
        start: (AtomId, AtomId),
        plan: &'a Plan,
        world: ArcWorld,
    ) -> Result<Book<'a>, AllocError>
        requires { started image.now start.0 start.1 ≡ Ok world }
        ensures { IfOk result (IsOpening image.now start plan.now) }
    {
        let chains = chains_of(alloc, plan)?;
        let endings = endings_of(alloc, plan, &chains)?;
        let end = ArcEnd {
            world,
            applied: 0,
            refused: None,
        };
        let told = Shown::many(alloc, &end, endings[0])?;
        let Ok(end) = ArcHold::put(alloc, end) else {
            return Err(AllocError);
        };
        let (way, _) = Way::kept_for(end, chains.kids(0).len());
        let root = Stand::Done(told, way);
        let count = chains.len();
        let stands = stands_of(alloc, root, count)?;
        let ready = ready_of(alloc, chains.kids(0), count)?;
        Ok(Book {
            image,
            start,
            plan,
            chains,
            endings,
            stands,
            stopped: false,
            ready,
            holders: BTreeMap::new(alloc),
            leased: 0,
            done: 1,
        })
    }

    /// The campaign of a plan's chains over loaded code, from the exported function of no arguments.
    ///
    /// `NoEntry` exactly where the module does not export it; memory is taken only where it does.
    pub fn new(
        alloc: Global,
        image: &'a Image,
        module: AtomId,
        function: AtomId,
        plan: &'a Plan,
    ) -> Result<Book<'a>, Fault>
        ensures { Opens image.now («module», function) plan.now result }
    {
        let world = ArcWorld::start(alloc, image, module, function)?;
        let book = Book::begun(alloc, image, (module, function), plan, world)?;
        Ok(book)
    }
}
