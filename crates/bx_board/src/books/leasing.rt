//! Leases.

ghost use Rattle.std.specs.Prelude.{◌≡◌, IfErr, IfOk, IsTrue};
ghost use Rattle.bx_board.specs.Jobs.{work_of};
ghost use Rattle.bx_board.specs.Kept.{Leases, MayLease, Takes};
ghost use Rattle.bx_board.specs.Machine.{is_free};

use crate::books::Book;
use crate::books::stands::Stand;
use crate::working::{Lease, Span};
use bx_share::Hold;
use bx_terms::Fault;
use std::alloc::{AllocError, Global};

impl<'a> Book<'a> {
    /// The lease of a chain that is free.
    fn lease_of(&self, alloc: Global, chain: usize) -> Result<Lease<'a>, AllocError>
        requires { IsTrue (is_free self.now.job self.now.state chain) }
        ensures { IfOk result (λ lease. lease ≡ work_of self.now.job chain) }
    {
        let head = self.chains.head(chain);
        let Some(end) = self.stands[head.above].end() else {
            unreachable!()
        };
        let from = end.share(alloc)?;
        let span = Span {
            chain,
            line: head.line,
            first: head.first,
            past: head.past,
        };
        Ok(Lease {
            image: self.image,
            start: self.start,
            plan: self.plan,
            span,
            endings: self.endings[chain],
            from,
        })
    }

    /// Leases a free chain to the worker, as `lease` does, and says which.
    pub(crate) fn take(
        &mut self,
        alloc: Global,
        worker: usize,
    ) -> Result<Option<(usize, Lease<'a>)>, Fault>
        ensures ok { IfOk result (λ task. Takes self.old worker task self.new) }
        ensures err { IfErr result (λ fault. (fault ≡ Fault.Memory) × (self.new ≡ self.old)) }
        ensures free { IfErr result (λ _. MayLease self.old worker) }
    {
        if self.stopped {
            return Ok(None);
        }
        if self.holders.contains_key(&worker) {
            return Ok(None);
        }
        let Some(chain) = self.ready.last().copied() else {
            return Ok(None);
        };
        let lease = self.lease_of(alloc, chain)?;
        let Ok(_) = self.holders.insert(worker, chain) else {
            return Err(Fault::Memory);
        };
        let _taken = self.ready.pop();
        self.stands[chain] = Stand::Leased(worker);
        self.leased += 1;
        Ok(Some((chain, lease)))
    }

    /// Leases a free chain to the worker; none exactly where no chain is free, the campaign was stopped, or the worker
    /// holds one, and then nothing has changed.
    ///
    /// It can only run out of memory, only where a chain may be leased to the worker, and then nothing has changed.
    pub fn lease(&mut self, alloc: Global, worker: usize) -> Result<Option<Lease<'a>>, Fault>
        ensures ok { IfOk result (λ lease. Leases self.old worker lease self.new) }
        ensures err { IfErr result (λ fault. (fault ≡ Fault.Memory) × (self.new ≡ self.old)) }
        ensures free { IfErr result (λ _. MayLease self.old worker) }
    {
        let taken = self.take(alloc, worker)?;
        let Some((_, lease)) = taken else {
            return Ok(None);
        };
        Ok(Some(lease))
    }
}
