//! What all frames of a run share.

ghost use Rattle.std.specs.Prelude.{◌≡◌, OnOk, OnErr};

use crate::value::Value;
use c_lang::{Dest, Expr, Func, Name, Pos, Stmt};
use std::alloc::{AllocError, Global};

/// A function's code, and where it was written. What nothing declares has no code.
#[derive(Clone, Copy)]
pub struct Definition<'p, O> {
    pub origin: O,
    pub func: Option<&'p Func>,
}

/// A function in an expression: as a value, or still by its name.
#[derive(Clone, Copy)]
pub enum Callee<'a, F> {
    Known(F),
    Named(&'a Name),
}

/// What is done at a point, a force or a pick.
#[derive(Clone, Copy)]
pub enum Decision<'p> {
    Skip,
    /// Takes an answer and shows it as the choice of this number. The update begins where the answer
    /// isn't 0.
    Ask(u32),
    /// The update begins.
    Update,
    /// Calls the function that the name stands for.
    Call {
        callee: &'p Name,
        args: &'p [Expr],
        dest: &'p Dest,
        pos: Pos,
    },
    /// This statement runs next.
    Next(&'p Stmt),
}

/// What names stand for. Contracts see the state that all frames share, and the rules, which say what
/// is read and written there.
///
/// A name's meaning may depend on where the frame's body was written, which is its origin. The trait
/// is apart from `Environment`, since a recursive function takes no bound that names a lifetime.
pub trait Look: Drop {
    ghost use Rattle.plain_run.specs.Environments.{Rules, Sees, seen_callee};
    ghost use Rattle.plain_run.specs.Values.{seen_value};

    /// A function as a value.
    type Function: Copy;

    type Origin: Copy;

    ghost F: { Type 0 };

    ghost O: { Type 0 };

    ghost State: { Type 0 };

    ghost seen: { Sees Self.Function Self.Origin F O };

    ghost rules: { Self → Rules F State O };

    ghost state: { Self → State };

    /// The value of a name that is no local.
    fn value(&self, origin: Self::Origin, name: &Name) -> Value<Self::Function>
        ensures { seen_value seen.function result ≡
            (rules self.now).access.value (seen.origin origin) (state self.now) name.now };

    /// The elements of an array.
    fn elements<'a>(&'a self, origin: Self::Origin, array: &'a Name) -> &'a [i32]
        ensures { result.now ≡
            (rules self.now).access.elements (seen.origin origin) (state self.now) array.now };

    /// Whether both are the same function.
    fn same(
        &self,
        origin: Self::Origin,
        left: Callee<'_, Self::Function>,
        right: Callee<'_, Self::Function>,
    ) -> bool
        ensures { result ≡ (rules self.now).access.same
            (seen_callee seen.function ((rules self.now).access.code (seen.origin origin) (state self.now)) left.entry)
            (seen_callee seen.function ((rules self.now).access.code (seen.origin origin) (state self.now)) right.entry) };
}

/// What all frames of a run share.
pub trait Environment<'p>: Look {
    ghost use Rattle.plain_run.specs.Environments.{Decides, SetsElement, seen_definition};
    ghost use Rattle.plain_run.specs.Values.{seen_value};

    /// The function that a name stands for.
    fn code(&self, origin: Self::Origin, name: &'p Name) -> Self::Function
        ensures { Self.seen.function result ≡
            (Self.rules self.now).access.code (Self.seen.origin origin) (Self.state self.now) name.entry.now };

    /// The code that a function has now.
    fn enter(&self, function: Self::Function) -> Definition<'p, Self::Origin>
        ensures { seen_definition Self.seen.origin result ≡
            (Self.rules self.now).access.enter (Self.state self.now) (Self.seen.function function) };

    /// What is done at a point, a force or a pick.
    fn decide(&self, origin: Self::Origin, statement: &'p Stmt) -> Decision<'p>
        ensures { Decides (Self.rules self.now) (Self.seen.origin origin) (Self.state self.now) statement.entry.now result };

    /// The code that an update runs.
    fn transformer(&self) -> Definition<'p, Self::Origin>
        ensures { seen_definition Self.seen.origin result ≡ (Self.rules self.now).transformer };

    /// Gives a name that is no local a value. The only error is want of memory, and then nothing
    /// changes.
    fn put(
        &mut self,
        origin: Self::Origin,
        name: &'p Name,
        value: Value<Self::Function>,
    ) -> Result<(), AllocError>
        ensures rules { Self.rules self.new ≡ Self.rules self.old }
        ensures put { OnOk result (Self.state self.new ≡ (Self.rules self.old).access.put
            (Self.seen.origin origin) name.entry.now (seen_value Self.seen.function value) (Self.state self.old)) }
        ensures kept { OnErr result (Self.state self.new ≡ Self.state self.old) };

    /// Writes an element where the index is within the array's bounds, and says whether it is.
    fn set_element(&mut self, origin: Self::Origin, array: &'p Name, at: i32, element: i32) -> bool
        ensures rules { Self.rules self.new ≡ Self.rules self.old }
        ensures set { SetsElement (Self.rules self.old).access (Self.seen.origin origin)
            (Self.state self.old) array.entry.now at element result (Self.state self.new) };

    /// Does to the state what an update does. The only error is want of memory, and then nothing
    /// changes.
    fn update(&mut self, alloc: Global) -> Result<(), AllocError>
        ensures rules { Self.rules self.new ≡ Self.rules self.old }
        ensures update { OnOk result (Self.state self.new ≡ (Self.rules self.old).update (Self.state self.old)) }
        ensures kept { OnErr result (Self.state self.new ≡ Self.state self.old) };
}
