//! The names that a version declares.

ghost use Rattle.std.specs.Prelude.{◌≡◌, IfOk, map};
ghost use Rattle.version_names.specs.Code.Declarations as spec;

use c_lang::{Func, GlobalVar, Kind, Name, Shape, same_kinds, same_result};
use c_types::functions::kinds_of;
use sqlite_items::Items;
use std::alloc::{AllocError, Global};

/// What is compared of the declarations of two versions: a number, an array of so many elements, a
/// pointer to functions of so many parameters, or a function with parameters of these kinds, which
/// gives a value or not.
#[derive(Debug, Drop)]
pub enum What {
    Number,
    Array(usize),
    Pointer(u8),
    Code(Items<Kind>, bool),
}

impl What {
    /// A copy. The only error is want of memory.
    pub fn copy(&self, alloc: Global) -> Result<What, AllocError>
        ensures { IfOk result (λ what. what ≡ self.now) }
    {
        match self {
            What::Number => Ok(What::Number),
            What::Array(size) => Ok(What::Array(*size)),
            What::Pointer(arity) => Ok(What::Pointer(*arity)),
            What::Code(kinds, gives) => Ok(What::Code(
                Items::from_slice(alloc, kinds.as_slice())?,
                *gives,
            )),
        }
    }
}

/// A name with what it is declared as.
#[derive(Debug, Drop)]
pub struct Declared {
    pub name: Name,
    pub what: What,
}

/// Whether two declarations are the same but for initial values.
pub fn same_what(a: &What, b: &What) -> bool
    ensures { result ≡ spec.same_what a.now b.now }
{
    match (a, b) {
        (What::Number, What::Number) => true,
        (What::Array(m), What::Array(n)) => m == n,
        (What::Pointer(m), What::Pointer(n)) => m == n,
        (What::Code(js, gives), What::Code(ks, other)) => {
            same_kinds(js.as_slice(), ks.as_slice()) && same_result(*gives, *other)
        }
        _ => false,
    }
}

fn what_of_shape(shape: &Shape) -> What
    ensures { result ≡ spec.what_of_shape shape.now }
{
    match shape {
        Shape::Int(_) => What::Number,
        Shape::Arr(elements) => What::Array(elements.len()),
        Shape::Fp(arity, _) => What::Pointer(*arity),
    }
}

/// The globals. The only error is want of memory.
pub fn declared_globals(alloc: Global, globals: &[GlobalVar]) -> Result<Vec<Declared>, AllocError>
    ensures { IfOk result (λ all. all.items ≡ map spec.declared_global globals.now) }
{
    let mut all = Vec::new(alloc);
    for global in globals {
        let name = global.name.copy(alloc)?;
        all.push(Declared {
            name,
            what: what_of_shape(&global.shape),
        })?;
    }
    Ok(all)
}

/// The functions. The only error is want of memory.
pub fn declared_funcs(alloc: Global, funcs: &[Func]) -> Result<Vec<Declared>, AllocError>
    ensures { IfOk result (λ all. all.items ≡ map spec.declared_func funcs.now) }
{
    let mut all = Vec::new(alloc);
    for func in funcs {
        let name = func.name.copy(alloc)?;
        let kinds = kinds_of(alloc, func.params.as_slice())?;
        all.push(Declared {
            name,
            what: What::Code(kinds, func.gives),
        })?;
    }
    Ok(all)
}
