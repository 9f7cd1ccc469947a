//! Which changed globals a transformer covers.

ghost use Rattle.std.specs.Prelude.{◌≡◌, List, IfOk};
ghost use Rattle.c_lang.specs.Trees.{Statements};
ghost use Rattle.c_lang.specs.declared.program.Func.{Func};
ghost use Rattle.c_types.specs.Bodies.{body_of};
ghost use Rattle.c_types.specs.Checks.{Checked};
ghost use Rattle.state_xform.specs.Code.Covered.{AreCovered};
ghost use Rattle.state_xform.specs.Refusals as spec;
ghost use Rattle.state_xform.specs.Transformers as transformer;
ghost use Rattle.version_names.specs.Parts.{parts_in};
ghost use Rattle.version_names.specs.Merged as merged;
ghost use Rattle.version_names.specs.declared.part.Origin.TheVariants.{New};

use crate::always::always_set_names;
use crate::elements::element_names;
use crate::names::NameSet;
use c_lang::{Fail, Func, GlobalVar, Name, Refusal, Shape, Stmt, refusal};
use std::alloc::{AllocError, Global};
use version_names::{Links, Origin, Part, Sort2, Version, merged_name};

// The names that a transformer covers: those that each path through the function that the update
// runs sets, and the arrays of which some function sets an element.
#[derive(Drop)]
struct Covered<'p> {
    always: NameSet<'p>,
    filled: NameSet<'p>,
}

impl<'p> Covered<'p> {
    fn by(alloc: Global, funcs: &'p [Func], body: &'p [Stmt]) -> Result<Covered<'p>, AllocError>
        ensures { IfOk result (λ covered. AreCovered funcs.entry.now (body_of body.entry.now) covered) }
    {
        Ok(Covered {
            always: always_set_names(alloc, body)?,
            filled: element_names(alloc, funcs)?,
        })
    }

    // Whether the new version's global has its new cell among them.
    fn has(&self, alloc: Global, g: &GlobalVar) -> Result<bool, AllocError>
        ensures { (fs : List Func) (body : Statements) → AreCovered fs body self.now
            → IfOk result (λ has. has ≡ transformer.is_covered fs body (merged.merged_name New g.now.name) g.now.shape) }
    {
        let name = merged_name(alloc, Origin::New, &g.name)?;
        match &g.shape {
            Shape::Int(_) | Shape::Fp(_, _) => Ok(self.always.contains(&name)),
            Shape::Arr(_) => Ok(self.filled.contains(&name)),
        }
    }
}

fn is_old(part: Option<Part>) -> bool
    ensures { result ≡ spec.is_old part }
{
    match part {
        Some(Part::Old) => true,
        _ => false,
    }
}

fn is_new(part: Option<Part>) -> bool
    ensures { result ≡ spec.is_new part }
{
    match part {
        Some(Part::New) => true,
        _ => false,
    }
}

fn is_changed(links: &Links, name: &Name) -> bool
    ensures { result ≡ spec.is_changed (parts_in links.now) name.now }
{
    is_old(links.of(Version::Old, Sort2::Cell, name))
        && is_new(links.of(Version::New, Sort2::Cell, name))
}

fn is_uncovered(
    alloc: Global,
    links: &Links,
    covered: &Covered<'_>,
    g: &GlobalVar,
) -> Result<bool, AllocError>
    ensures { (fs : List Func) (body : Statements) → AreCovered fs body covered.now
        → IfOk result (λ missing. missing ≡ spec.is_uncovered (parts_in links.now) fs body g.now) }
{
    if is_changed(links, &g.name) {
        Ok(!covered.has(alloc, g)?)
    } else {
        Ok(false)
    }
}

fn not_covered(alloc: Global, start: &Func, g: &GlobalVar) -> Result<Refusal, AllocError>
    ensures { IfOk result (λ why. why ≡ spec.not_covered start.now.pos g.now.name) }
{
    let name = g.name.copy(alloc)?;
    Ok(Refusal {
        number: refusal::NOT_COVERED,
        pos: start.pos,
        name: Some(name),
    })
}

fn check_each(
    alloc: Global,
    links: &Links,
    covered: &Covered<'_>,
    start: &Func,
    globals: &[GlobalVar],
) -> Result<(), Fail>
    ensures { (fs : List Func) → AreCovered fs (body_of start.now.body) covered.now
        → Checked result (spec.refusal_of_coverage (parts_in links.now) fs start.now globals.now) tt }
{
    for g in globals {
        if is_uncovered(alloc, links, covered, g)? {
            return Err(Fail::Refused(not_covered(alloc, start, g)?));
        }
    }
    Ok(())
}

/// Refuses the first changed global that isn't covered, with 18 at `start`, the function that the
/// update runs. `globals` are those of the new program.
pub fn check_coverage(
    alloc: Global,
    links: &Links,
    funcs: &[Func],
    start: &Func,
    globals: &[GlobalVar],
) -> Result<(), Fail>
    ensures { Checked result (spec.refusal_of_coverage (parts_in links.now) funcs.now start.now globals.now) tt }
{
    let covered = Covered::by(alloc, funcs, start.body.as_slice())?;
    check_each(alloc, links, &covered, start, globals)
}
