//! A book behind a lock, which workers serve.

ghost use Rattle.std.specs.Prelude.{◌≡◌, ◌≢◌, ◌⊎◌, IfErr, IfOk, IfSome, MatchOption};
ghost use Rattle.bx_board.specs.Counted.{counts_of};
ghost use Rattle.bx_board.specs.Kept.{GivesBack, Happens, IsOf, MayLease, Takes};
ghost use Rattle.bx_board.specs.Machine.{standing, Holds, Leased};

use crate::books::Book;
use crate::slots::{Counts, Event, Gone};
use crate::working::{Crew, Lease, Piece, work_over};
use bx_load::Image;
use bx_terms::Fault;
use std::alloc::Global;
use std::marker::{Brand, Model, PhantomData};
use std::sync::{Condvar, Mutex, Wait};

/// What is called as workers go on, never while the book's lock is held.
pub trait Gate: Sync {
    /// Called once by a campaign before its first lease, with how many chains there are to be run.
    fn begun(&self, _chains: usize) {}

    /// Called after a lease.
    fn leased(&self, worker: usize);

    /// Called between the work of a lease and its submit.
    fn worked(&self, worker: usize, piece: &Piece<'_>);

    /// Called once by a campaign that runs its plan's text in parts, before the first of them, with how many they are.
    fn cut(&self, _parts: usize) {}

    /// Called after a part was run.
    fn ran(&self) {}

    /// Called when a campaign's workers have ended.
    fn ended(&self) {}
}

/// How many atoms, exports, functions, items, operands, imports, literals, and list cells and elements of these a worker's own
/// code may hold: at most some fifteen megabytes.
const MOST_COPIED: usize = 200_000;

/// A gate that does nothing.
#[derive(Clone, Copy, Debug, PartialEq, Eq)]
pub struct FreeGate;

impl Gate for FreeGate {
    fn leased(&self, _worker: usize) {}

    fn worked(&self, _worker: usize, _piece: &Piece<'_>) {}
}

/// Which campaign a board is of. Each call of a program picks it.
pub trait Campaign {
    ghost use Rattle.bx_board.specs.Jobs.{Job};

    ghost job: { Job };
}

impl Campaign for Brand {
    ghost use Rattle.bx_board.specs.Jobs.{no_job};

    ghost job = { no_job };
}

/// The book of that campaign.
#[derive(Drop)]
struct Shelf<'a, J: Campaign> {
    book: Book<'a>,
    of: PhantomData<J>,
}

impl<'a, J: Campaign> Model for Shelf<'a, J> {
    ghost use Rattle.std.specs.Prelude.{◌≡◌};
    ghost use Rattle.bx_terms.specs.contracts.atom_table.AtomId as ids;
    ghost use Rattle.bx_asm.specs.contracts.unit.Unit as unit;
    ghost use Rattle.bx_load.specs.Image.{loaded_code};
    ghost use Rattle.bx_plan.specs.contracts.plans.Plan as plans;
    ghost use Rattle.bx_plan.specs.contracts.chains.Chains as chained;
    ghost use Rattle.bx_board.specs.Codes.{end_code};
    ghost use Rattle.bx_board.specs.Kept.{Kept, kept_code};

    ghost Value = { Kept };

    ghost coded = { kept_code (loaded_code unit.the_row.coded) ids.the_row.coded plans.the_row.coded
        chained.the_row.coded end_code };

    ghost view = { λ s. s.book };

    ghost invariant = { λ s. s.book.job ≡ J.job };
}

impl<'a, J: Campaign> Shelf<'a, J> {
    fn new(book: Book<'a>) -> Shelf<'a, J>
        requires { book.job ≡ J.job }
        ensures { result ≡ book.entry }
    {
        Shelf {
            book,
            of: PhantomData,
        }
    }

    fn into_book(self) -> Book<'a>
        ensures book { result ≡ self.entry }
        ensures job { result.job ≡ J.job }
    {
        let Shelf { book, of: _ } = self;
        book
    }

    fn counts(&self) -> Counts
        ensures { result ≡ counts_of self.now }
    {
        self.book.counts()
    }

    fn code(&self) -> &'a Image
        ensures { result.now ≡ J.job.image }
    {
        self.book.code()
    }

    /// A lease, with its chain's number.
    fn take(&mut self, alloc: Global, worker: usize) -> Result<Option<(usize, Lease<'a>)>, Fault>
        ensures ok { IfOk result (λ found. Takes self.old worker found self.new) }
        ensures own { IfOk result (λ found. IfSome found (λ task. IsOf J.job task.1 task.0)) }
        ensures err { IfErr result (λ fault. (fault ≡ Fault.Memory) × (self.new ≡ self.old)) }
        ensures free { IfErr result (λ _. MayLease self.old worker) }
    {
        self.book.take(alloc, worker)
    }

    /// Hands in what came of a chain, where the worker holds it.
    fn accept(&mut self, worker: usize, chain: usize, piece: Piece<'a>) -> Option<Gone>
        requires { IsOf J.job piece chain }
        ensures { MatchOption result ((self.new ≡ self.old) × (standing self.old.state chain ≢
            Leased worker)) (λ _. Happens self.old (Event.Submit worker chain) self.new) }
    {
        self.book.accept(worker, chain, piece)
    }

    /// Gives back what the worker holds, where it holds a chain.
    fn give_back(&mut self, worker: usize)
        ensures { GivesBack self.old worker self.new ⊎
            ((self.new ≡ self.old) × (Holds self.old.state worker → ⊥)) }
    {
        let _held = self.book.give_back(worker);
    }
}

/// The book of that campaign, which workers share. Each critical section is one call of the book, beside a look at its counts.
#[derive(Drop)]
pub struct Board<'a, J: Campaign> {
    shelf: Mutex<Shelf<'a, J>>,
    changed: Condvar,
}

impl<'a, J: Campaign> Board<'a, J> {
    /// A board of that book, of which no chain should be leased: workers would wait for one that nobody hands in.
    pub fn new(book: Book<'a>) -> Board<'a, J>
        requires { book.job ≡ J.job }
    {
        Board {
            shelf: Mutex::new(Shelf::new(book)),
            changed: Condvar::new(),
        }
    }

    /// The book, as its workers left it.
    pub fn close(self) -> Book<'a>
        ensures { result.job ≡ J.job }
    {
        let Board { shelf, changed: _ } = self;
        shelf.into_inner().into_book()
    }

    /// Leases, works and submits until nothing is left for this worker, over a copy of the code that it makes once it has a lease, so
    /// that it waits for no other worker's count of references. Where memory runs out, the worker's lease is given back: what it did before stays
    /// done.
    pub fn serve<R: Wait, G: Gate>(
        &self,
        rt: &R,
        alloc: Global,
        worker: usize,
        gate: &G,
    ) -> Result<(), Fault>
        ensures { IfErr result (λ fault. fault ≡ Fault.Memory) }
    {
        let shared = self.code(rt);
        let mut own = None;
        let mut copies = true;
        for _ in rt.forever() {
            let Some((chain, lease)) = self.next(rt, alloc, worker)? else {
                return Ok(());
            };
            gate.leased(worker);
            if copies {
                own = own_code(alloc, shared);
                copies = false;
            }
            let code = own.as_ref().unwrap_or(shared);
            match work_over(alloc, code, lease, Crew::Several) {
                Ok(piece) => {
                    gate.worked(worker, &piece);
                    if !self.hand_in(rt, worker, chain, piece) {
                        return Ok(());
                    }
                }
                Err((fault, _lease)) => {
                    self.hand_back(rt, worker);
                    return Err(fault);
                }
            }
        }
        unreachable!()
    }

    /// The campaign's code.
    fn code<R: Wait>(&self, rt: &R) -> &'a Image
        ensures { result.now ≡ J.job.image }
    {
        self.shelf.lock(rt).code()
    }

    /// The next lease, with its chain's number. After none was to be had a worker waits only where nothing is free and
    /// something is leased.
    fn next<R: Wait>(
        &self,
        rt: &R,
        alloc: Global,
        worker: usize,
    ) -> Result<Option<(usize, Lease<'a>)>, Fault>
        ensures own { IfOk result (λ found. IfSome found (λ task. IsOf J.job task.1 task.0)) }
        ensures err { IfErr result (λ fault. fault ≡ Fault.Memory) }
    {
        let mut shelf = self.shelf.lock(rt);
        for _ in rt.forever() {
            if let Some(task) = shelf.take(alloc, worker)? {
                return Ok(Some(task));
            }
            let counts = shelf.counts();
            if counts.free > 0 || counts.leased == 0 {
                return Ok(None);
            }
            shelf = self.changed.wait(rt, shelf);
        }
        unreachable!()
    }

    /// Hands a piece in, and wakes all who wait. Whether it was taken.
    fn hand_in<R: Wait>(&self, rt: &R, worker: usize, chain: usize, piece: Piece<'a>) -> bool
        requires { IsOf J.job piece chain }
    {
        let gone = self.shelf.lock(rt).accept(worker, chain, piece);
        self.changed.notify_all();
        gone.is_some()
    }

    /// Gives the worker's lease back, and wakes all who wait.
    fn hand_back<R: Wait>(&self, rt: &R, worker: usize) {
        self.shelf.lock(rt).give_back(worker);
        self.changed.notify_all();
    }
}

/// A worker's own code, so that workers who copy one literal do not wait for its count; none where the code is large, or
/// memory is short, and then the worker does with the code that all share.
fn own_code(alloc: Global, code: &Image) -> Option<Image>
    ensures { IfSome result (λ own. own ≡ code.now) }
{
    code.deep_copy(alloc, MOST_COPIED).ok()
}
