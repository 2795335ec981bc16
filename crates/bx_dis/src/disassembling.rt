//! Functions, modules, and modules of loaded code.

ghost use Rattle.std.specs.Prelude.{◌≡◌, ◌≤◌, ◌+◌, ◌<◌, IfOk, OnErr, Ok, drop, take, length};
ghost use Rattle.bx_terms.specs.Outcomes.{Gives};
ghost use Rattle.bx_listing.specs.Code.{items};
ghost use Rattle.bx_load.specs.Image.{module_of};
ghost use Rattle.bx_dis.specs.Taking.{TakesMemory, ModuleTakes};

use crate::operands::add_item;
use bx_asm::{Head, Unit};
use bx_listing::{Code, CodeFunction, Export};
use bx_load::Image;
use bx_terms::{AtomId, Fault};
use std::alloc::{AllocError, Global};

/// The code form of a module: what its numbers and its tables spell.
///
/// Memory may run out only where it exports or has a function.
pub fn disassemble(alloc: Global, unit: &Unit) -> Result<Code, Fault>
    ensures { Gives (TakesMemory unit.now) (λ code. code) result (Ok unit.now) }
{
    let code = code_of(alloc, unit)?;
    Ok(code)
}

/// The code form of the module of that name; `None` where there is no such module.
///
/// Memory may run out only where there is such a module, which exports or has a function.
pub fn disassemble_image(
    alloc: Global,
    image: &Image,
    module: AtomId,
) -> Result<Option<Code>, Fault>
    ensures { Gives (ModuleTakes (module_of image.now «module»)) (λ code. code) result
        (Ok (module_of image.now «module»)) }
{
    match image.module(module) {
        Some(unit) => Ok(Some(disassemble(alloc, unit)?)),
        None => Ok(None),
    }
}

fn code_of(alloc: Global, unit: &Unit) -> Result<Code, AllocError>
    ensures ok { IfOk result (λ code. code ≡ unit.now) }
    ensures err { OnErr result (TakesMemory unit.now) }
{
    let exports = exports_of(alloc, unit)?;
    let functions = functions_of(alloc, unit)?;
    Ok(Code::new(unit.name(), exports, functions))
}

fn exports_of(alloc: Global, unit: &Unit) -> Result<Vec<Export>, AllocError>
    ensures ok { IfOk result (λ exports. exports.items ≡ unit.now.exports) }
    ensures err { OnErr result (0 < length unit.now.exports) }
{
    let mut exports = Vec::new(alloc);
    for export in unit.exports() {
        exports.push(*export)?;
    }
    Ok(exports)
}

#[tactic(auto, using(crate::proofs::Functions::functions_again, crate::proofs::Functions::functions_next, crate::proofs::Functions::functions_end, crate::proofs::Functions::total_next))]
fn functions_of(alloc: Global, unit: &Unit) -> Result<Vec<CodeFunction>, AllocError>
    ensures ok { IfOk result (λ functions. functions.items ≡ unit.now.functions) }
    ensures err { OnErr result (0 < length unit.now.functions) }
{
    let mut functions = Vec::new(alloc);
    let mut from = 0;
    let heads = unit.functions();
    for head in heads {
        functions.push(function_from(alloc, unit, *head, from)?)?;
        from += head.count as usize;
    }
    Ok(functions)
}

/// The function with that head, its items being those of the unit from that number on.
#[tactic(auto, using(crate::proofs::Functions::share_next))]
fn function_from(
    alloc: Global,
    unit: &Unit,
    head: Head,
    from: usize,
) -> Result<CodeFunction, AllocError>
    requires { from + head.count ≤ 1000000 }
    ensures { IfOk result (λ f. f ≡ record {
      name = head.name;
      arity = head.arity;
      entry =
          head.entry;
      items = take head.count (drop from (items unit.now));
    }) }
{
    let mut function = CodeFunction::new(alloc, head.name, head.arity, head.entry);
    let mut row = Vec::new(alloc);
    for number in 0..head.count as usize {
        add_item(alloc, &mut function, &mut row, unit, from + number)?;
    }
    Ok(function)
}
