//! A call that hasn't returned.

ghost use Rattle.std.specs.Prelude.{◌≡◌, ◌≤◌, [], ◌∷◌, ◌++◌, map, OnOk, OnErr, vec_len, vec_capacity};
ghost use Rattle.std.specs.Option.{option_copied};
ghost use Rattle.plain_run.specs.Steps.{Does, Mark, after_mark};
ghost use Rattle.plain_run.specs.Code.Frames.{seen_items, first_statement, behind_first};

use crate::names::Values;
use c_lang::{Dest, Stmt};
use sqlite_items::Items;
use std::alloc::AllocError;

/// What a frame has still to run: the rest of a body, or a `while` whose body was entered.
#[derive(Clone, Copy)]
pub enum Rest<'p> {
    Body(&'p [Stmt]),
    Loop(&'p Stmt),
}

/// A call that hasn't returned. The innermost body stands last in `rest`. The first frame and a
/// transformer's have no `dest`.
pub struct Frame<'p, F: Copy, O: Copy> {
    pub origin: O,
    pub locals: Values<'p, F>,
    pub rest: Vec<Rest<'p>>,
    pub dest: Option<&'p Dest>,
    pub gives: bool,
}

// By hand, so that a proof has one step for each frame that is dropped.
impl<F: Copy, O: Copy> Drop for Frame<'_, F, O> {
    fn drop(self) {
        let Frame {
            origin: _origin,
            locals: _locals,
            rest: _rest,
            dest: _dest,
            gives: _gives,
        } = self;
    }
}

// A body's statements. Here alone, since the prover spells out all of `Stmt` at each such call.
pub(crate) fn statements(body: &Items<Stmt>) -> &[Stmt]
    ensures { result.now ≡ body.now }
{
    body.as_slice()
}

// The statement that runs next. Ended bodies are dropped.
pub(crate) fn first<'p>(rest: &mut Vec<Rest<'p>>) -> Option<&'p Stmt>
    ensures items { seen_items rest.new.items ≡ seen_items rest.old.items }
    ensures statement { option_copied result ≡ first_statement (seen_items rest.new.items) }
{
    while let Some(last) = rest.last() {
        match last {
            Rest::Body([]) => {}
            Rest::Body([statement, ..]) => return Some(statement),
            Rest::Loop(statement) => return Some(statement),
        }
        rest.pop();
    }
    None
}

// Drops the statement that runs next.
pub(crate) fn drop_first(rest: &mut Vec<Rest<'_>>)
    ensures items { seen_items rest.new.items ≡ behind_first (seen_items rest.old.items) }
    ensures len { vec_len rest.new ≤ vec_len rest.old }
    ensures capacity { vec_capacity rest.old ≤ vec_capacity rest.new }
{
    while let Some(last) = rest.pop() {
        match last {
            Rest::Body([]) => {}
            Rest::Body([_, behind @ ..]) => {
                rest.push(Rest::Body(behind)).unwrap();
                return;
            }
            Rest::Loop(_) => return,
        }
    }
}

// Drops what stands before the innermost loop's mark, and the mark.
pub(crate) fn leave_loop(rest: &mut Vec<Rest<'_>>)
    ensures { seen_items rest.new.items ≡ after_mark (seen_items rest.old.items) }
{
    while let Some(last) = rest.pop() {
        match last {
            Rest::Body(_) => {}
            Rest::Loop(_) => return,
        }
    }
}

// Puts a body in the place of the statement that runs next.
pub(crate) fn enter_body<'p>(rest: &mut Vec<Rest<'p>>, body: &'p [Stmt]) -> Result<(), AllocError>
    ensures ok { OnOk result (seen_items rest.new.items ≡
        map Does body.entry.now ++ behind_first (seen_items rest.old.items)) }
    ensures err { OnErr result (rest.new.items ≡ rest.old.items) }
{
    rest.reserve(1)?;
    drop_first(rest);
    rest.push(Rest::Body(body)).unwrap();
    Ok(())
}

// Puts a loop's body and then its mark in the place of the statement that runs next.
pub(crate) fn enter_loop<'p>(
    rest: &mut Vec<Rest<'p>>,
    body: &'p [Stmt],
    mark: &'p Stmt,
) -> Result<(), AllocError>
    ensures ok { OnOk result (seen_items rest.new.items ≡
        (map Does body.entry.now ++ Mark mark.entry.now ∷ [])
        ++ behind_first (seen_items rest.old.items)) }
    ensures err { OnErr result (rest.new.items ≡ rest.old.items) }
{
    rest.reserve(2)?;
    drop_first(rest);
    rest.push(Rest::Loop(mark)).unwrap();
    rest.push(Rest::Body(body)).unwrap();
    Ok(())
}
