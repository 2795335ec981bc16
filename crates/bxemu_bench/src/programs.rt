//! From listings to programs that run.

ghost use Rattle.std.specs.Prelude.{◌≡◌, IfOk};

use crate::trouble::Trouble;
use bx_asm::{Unit, assemble};
use bx_listing::read_listing;
use bx_load::{Image, load};
use bx_plan::Schedule;
use bx_replay::{RcEnd, advance_all};
use bx_terms::{AtomId, Atoms, Fault};
use bx_world::{RcWorld, RunEnd};
use std::alloc::Global;

/// The head of a module `m` that exports `f/0`, and the beginning of `f`.
const HEAD: &str = "{module,m}.\n{exports,[{f,0}]}.\n{attributes,[]}.\n{labels,9}.\n\
    {function,f,0,2}.\n{label,1}.\n{func_info,{atom,m},{atom,f},0}.\n{label,2}.\n";

/// An image, and the exported function of no arguments that it begins with.
#[derive(Drop)]
pub struct Program {
    image: Image,
    module: AtomId,
    start: AtomId,
}

impl Program {
    /// The program of a listing, which begins with the function of that name.
    pub fn of(alloc: Global, text: &[u8], start: &str) -> Result<Program, Fault> {
        let mut atoms = Atoms::new(alloc)?;
        let start = atoms.name(alloc, start)?;
        let listing = read_listing(alloc, &mut atoms, text)?;
        let unit = assemble(alloc, &listing)?;
        Program::loaded(alloc, atoms, unit, start)
    }

    /// The program of a listing in parts, each as often as it is told, which begins with `f`.
    pub fn of_parts(alloc: Global, parts: &[(&str, u32)]) -> Result<Program, Fault> {
        let mut text = String::new(alloc);
        for (part, times) in parts {
            for _ in 0..*times {
                text.push_str(part)?;
            }
        }
        Program::of(alloc, text.as_bytes(), "f")
    }

    /// The program whose `f` has the items that stand beside that name.
    pub fn named(alloc: Global, rows: &[(&str, &str)], name: &str) -> Result<Program, Trouble> {
        for (other, items) in rows {
            if *other == name {
                return Ok(Program::of_parts(alloc, &[(HEAD, 1), (items, 1)])?);
            }
        }
        Err(Trouble::Usage)
    }

    fn loaded(alloc: Global, atoms: Atoms, unit: Unit, start: AtomId) -> Result<Program, Fault> {
        let module = unit.name();
        let units = vec![in alloc; unit]?;
        match load(alloc, atoms, units) {
            Ok(image) => Ok(Program {
                image,
                module,
                start,
            }),
            Err(refused) => Err(refused.fault),
        }
    }

    pub fn image(&self) -> &Image {
        &self.image
    }

    pub fn module(&self) -> AtomId {
        self.module
    }

    pub fn start(&self) -> AtomId {
        self.start
    }

    /// Its world before any choice.
    pub fn begin(&self, alloc: Global) -> Result<RcWorld, Fault> {
        RcWorld::start(alloc, &self.image, self.module, self.start)
    }

    /// Where no choice has led yet.
    pub fn end(&self, alloc: Global) -> Result<RcEnd, Fault>
        ensures { IfOk result (λ end. end.applied ≡ 0) }
    {
        Ok(RunEnd {
            world: self.begin(alloc)?,
            applied: 0,
            refused: None,
        })
    }

    /// Makes these choices more, each of which must be enabled.
    pub fn go_on(
        &self,
        alloc: Global,
        end: &mut RcEnd,
        schedule: &Schedule,
    ) -> Result<(), Trouble> {
        end.applied = 0;
        advance_all(alloc, end, &self.image, schedule.all())?;
        if end.applied == schedule.len() as u64 {
            Ok(())
        } else {
            Err(Trouble::Wrong)
        }
    }
}
