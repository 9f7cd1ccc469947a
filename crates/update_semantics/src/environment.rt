//! What names stand for in an updating run, and what they hold.

ghost use Rattle.std.specs.Prelude.{◌≡◌, ◌&&◌, IfOk, OnOk, OnErr};
ghost use Rattle.version_names.specs.Home.{same_linked};
ghost use Rattle.version_names.specs.Provenance.{may_update};
ghost use Rattle.version_names.specs.Version.{is_old};
ghost use Rattle.update_semantics.specs.Code.Decisions.{Picks};
ghost use Rattle.update_semantics.specs.Code.Environments.{world_in, state_in, rules_in};
ghost use Rattle.update_semantics.specs.Linked.{function_at, provenance_of};
ghost use Rattle.plain_run.specs.Values.{seen_value};
ghost use Rattle.plain_run.specs.Environments.{seen_callee, seen_definition};
ghost use Rattle.update_semantics.specs.UpdatingRun.{first_state, entry_code};
ghost use Rattle.update_semantics.specs.Worlds.{world_of};

use crate::linked::{Function, Provenance};
use crate::meanings::Meanings;
use crate::state::State;
use crate::world::World;
use c_lang::{Name, Stmt};
use plain_run::{Callee, Decision, Definition, Environment, Look, Value};
use std::alloc::{AllocError, Global};
use version_names::Version;

/// The names of a world's updating run, with the current version and the cells.
#[derive(Drop)]
pub struct UpdatedNames<'p> {
    meanings: Meanings<'p>,
    state: State<'p>,
}

// What is done at a pick of this statement.
fn picked(statement: &Stmt) -> Decision<'_>
    ensures { Picks statement.entry.now result }
{
    match statement {
        Stmt::Call {
            pos,
            dest,
            callee,
            args,
        } => Decision::Call {
            callee,
            args: args.as_slice(),
            dest,
            pos: *pos,
        },
        Stmt::Skip { .. }
        | Stmt::Set { .. }
        | Stmt::SetElem { .. }
        | Stmt::CallBy { .. }
        | Stmt::If { .. }
        | Stmt::While { .. }
        | Stmt::Break { .. }
        | Stmt::Return { .. }
        | Stmt::Assert { .. }
        | Stmt::Input { .. }
        | Stmt::Output { .. }
        | Stmt::Point { .. }
        | Stmt::Choice { .. }
        | Stmt::Force { .. }
        | Stmt::Pick { .. } => Decision::Next(statement),
    }
}

impl<'p> UpdatedNames<'p> {
    /// The state in which runs start. The only error is want of memory.
    pub fn new(alloc: Global, world: &'p World) -> Result<UpdatedNames<'p>, AllocError>
        ensures world { IfOk result (λ names. world_in names ≡ world.entry.now) }
        ensures state { IfOk result (λ names. state_in names ≡ first_state (world_of world.entry.now)) }
    {
        let meanings = Meanings::new(alloc, world)?;
        let state = State::first(alloc, &meanings)?;
        Ok(UpdatedNames { meanings, state })
    }

    /// The old version's `main`, or the client's function, with which runs start. It takes no memory.
    pub fn entry(&self) -> Definition<'p, Provenance>
        ensures { seen_definition provenance_of result ≡ entry_code (world_of (world_in self.now)) (world_in self.now).client }
    {
        let world = self.meanings.world();
        match world.client() {
            Some(client) => self
                .meanings
                .code(Version::Old, Function::Client(client.spec().as_bytes())),
            None => self.meanings.version_code(Version::Old, b"main"),
        }
    }

    fn is_old(&self) -> bool
        ensures { result ≡ is_old (state_in self.now).now }
    {
        match self.state.version {
            Version::Old => true,
            Version::New => false,
        }
    }

    // Whether the point with this number asks for an answer in a frame.
    fn asks(&self, origin: Provenance, k: u32) -> bool
        ensures { result ≡ (may_update (provenance_of origin) &&
            (is_old (state_in self.now).now && (world_of (world_in self.now)).permits k)) }
    {
        let may_update = match origin {
            Provenance::Old | Provenance::Client => true,
            Provenance::New | Provenance::Xform => false,
        };
        may_update && self.is_old() && self.meanings.world().points().permits(k)
    }

    // Whether a function is the same as one in an expression.
    fn is_same(
        &self,
        origin: Provenance,
        left: Function<'_>,
        right: Callee<'_, Function<'p>>,
    ) -> bool
        ensures { result ≡ same_linked (function_at left.entry)
            (seen_callee function_at ((rules_in self.now).access.code (provenance_of origin) (state_in self.now)) right.entry) }
    {
        match right {
            Callee::Known(right) => left.same(right),
            Callee::Named(right) => left.same(self.meanings.function(origin, right)),
        }
    }
}

impl<'p> Look for UpdatedNames<'p> {
    ghost use Rattle.version_names.specs.Home.{Linked};
    ghost use Rattle.version_names.specs.Provenance as origins;
    ghost use Rattle.update_semantics.specs.UpdatingRun as run;
    ghost use Rattle.update_semantics.specs.Code.Environments.{seen_in};

    type Function = Function<'p>;

    type Origin = Provenance;

    ghost F = { Linked };

    ghost O = { origins.Provenance };

    ghost State = { run.State };

    ghost seen = { seen_in };

    ghost rules = { rules_in };

    ghost state = { state_in };

    fn value(&self, origin: Provenance, name: &Name) -> Value<Function<'p>> {
        self.state.value(self.meanings.cell(origin, name))
    }

    fn elements<'a>(&'a self, origin: Provenance, array: &'a Name) -> &'a [i32] {
        self.state.elements(self.meanings.cell(origin, array))
    }

    fn same(
        &self,
        origin: Provenance,
        left: Callee<'_, Function<'p>>,
        right: Callee<'_, Function<'p>>,
    ) -> bool
        ensures { result ≡ (rules_in self.now).access.same
            (seen_callee function_at ((rules_in self.now).access.code (provenance_of origin) (state_in self.now)) left.entry)
            (seen_callee function_at ((rules_in self.now).access.code (provenance_of origin) (state_in self.now)) right.entry) }
    {
        match left {
            Callee::Known(left) => self.is_same(origin, left, right),
            Callee::Named(left) => self.is_same(
                origin,
                self.meanings.function(origin, left),
                right,
            ),
        }
    }
}

impl<'p> Environment<'p> for UpdatedNames<'p> {
    fn code(&self, origin: Provenance, name: &'p Name) -> Function<'p> {
        self.meanings.function(origin, name)
    }

    fn enter(&self, function: Function<'p>) -> Definition<'p, Provenance> {
        self.meanings.code(self.state.version, function)
    }

    fn decide(&self, origin: Provenance, statement: &'p Stmt) -> Decision<'p> {
        match statement {
            Stmt::Point { k, .. } => {
                if self.asks(origin, *k) {
                    Decision::Ask(*k)
                } else {
                    Decision::Skip
                }
            }
            Stmt::Force { .. } => match self.state.version {
                Version::Old => Decision::Update,
                Version::New => Decision::Skip,
            },
            Stmt::Pick { after, before, .. } => match self.state.version {
                Version::Old => picked(before.get()),
                Version::New => picked(after.get()),
            },
            Stmt::Skip { .. }
            | Stmt::Set { .. }
            | Stmt::SetElem { .. }
            | Stmt::Call { .. }
            | Stmt::CallBy { .. }
            | Stmt::If { .. }
            | Stmt::While { .. }
            | Stmt::Break { .. }
            | Stmt::Return { .. }
            | Stmt::Assert { .. }
            | Stmt::Input { .. }
            | Stmt::Output { .. }
            | Stmt::Choice { .. } => Decision::Skip,
        }
    }

    fn transformer(&self) -> Definition<'p, Provenance> {
        self.meanings
            .code(Version::New, Function::Xform(b"dsu_transform"))
    }

    fn put(
        &mut self,
        origin: Provenance,
        name: &'p Name,
        value: Value<Function<'p>>,
    ) -> Result<(), AllocError>
        ensures rules { rules_in self.new ≡ rules_in self.old }
        ensures put { OnOk result (state_in self.new ≡ (rules_in self.old).access.put
            (provenance_of origin) name.entry.now (seen_value function_at value.entry) (state_in self.old)) }
        ensures kept { OnErr result (state_in self.new ≡ state_in self.old) }
    {
        let cell = self.meanings.cell(origin, name);
        self.state.put(cell, value)
    }

    fn set_element(&mut self, origin: Provenance, array: &'p Name, at: i32, element: i32) -> bool {
        let cell = self.meanings.cell(origin, array);
        self.state.set_element(cell, at, element)
    }

    fn update(&mut self, alloc: Global) -> Result<(), AllocError> {
        self.state.update(alloc, &self.meanings)
    }
}
