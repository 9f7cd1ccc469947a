use crate::{Kind, Name, Pos, Refusal, Stmt};
use sqlite_items::Items;

/// What a global holds, with its initial value: a number, an array of numbers, or a pointer to a
/// function of this many parameters that is at first null or the function named.
#[derive(Debug, Drop)]
pub enum Shape {
    Int(i32),
    Arr(Items<i32>),
    Fp(u8, Option<Name>),
}

/// A global variable.
#[derive(Debug)]
pub struct GlobalVar {
    pub name: Name,
    pub shape: Shape,
    pub pos: Pos,
}

// By hand, so that a proof has one step for each global that is dropped.
impl Drop for GlobalVar {
    fn drop(self) {
        let GlobalVar {
            name: _name,
            shape: _shape,
            pos: _pos,
        } = self;
    }
}

/// A function's prototype. `gives` is false for `void`.
#[derive(Debug)]
pub struct Proto {
    pub name: Name,
    pub params: Items<Kind>,
    pub gives: bool,
    pub pos: Pos,
}

// By hand, so that a proof has one step for each prototype that is dropped.
impl Drop for Proto {
    fn drop(self) {
        let Proto {
            name: _name,
            params: _params,
            gives: _gives,
            pos: _pos,
        } = self;
    }
}

/// A function. `gives` is false for `void`.
#[derive(Debug)]
pub struct Func {
    pub name: Name,
    pub params: Items<(Kind, Name)>,
    pub gives: bool,
    pub body: Items<Stmt>,
    pub pos: Pos,
}

// By hand, so that a proof has one step for each function that is dropped.
impl Drop for Func {
    fn drop(self) {
        let Func {
            name: _name,
            params: _params,
            gives: _gives,
            body: _body,
            pos: _pos,
        } = self;
    }
}

/// A unit's globals, prototypes and functions, each in source order.
///
/// `early` has the refusals of declarations that the other fields can't hold, in the order in which
/// a check of the program comes to these declarations: globals, prototypes, functions. They are 10
/// for an array with more initializers than elements, and 27 for an array whose length isn't 1 to
/// 65,536, for one with which the unit has more cells than it may have, and for a pointer of more
/// than 32 parameters. Such an array has no elements here, such a pointer has 33 parameters.
#[derive(Debug, Drop)]
pub struct Program {
    pub globals: Items<GlobalVar>,
    pub protos: Items<Proto>,
    pub funcs: Items<Func>,
    pub early: Items<Refusal>,
}
