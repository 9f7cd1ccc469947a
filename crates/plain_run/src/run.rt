//! Runs, statement by statement.

ghost use Rattle.std.specs.Prelude.{◌≡◌, ◌<◌, ◌≤◌, ◌+◌, false, [], ◌∷◌, ℤ, List, map, vec_len, vec_capacity, Ok, Err, IfOk, OnOk, OnErr, IsErrOf};
ghost use Rattle.c_lang.specs.Limits.{frame_limit};
ghost use Rattle.c_lang.specs.declared.stmt.Dest.TheVariants.{Nowhere};
ghost use Rattle.plain_run.specs.Environments.{seen_definition, swapped};
ghost use Rattle.plain_run.specs.Runs.{frame_count, IsTooDeep, Makes, Makes_or_fails};
ghost use Rattle.plain_run.specs.Steps.{Access, Live, entered, frame_of, given, stored};
ghost use Rattle.plain_run.specs.Values.{seen_value};
ghost use Rattle.plain_run.specs.Code.Actions as spec;

use crate::action::Action;
use crate::answers::Answers;
use crate::call::{first_frame, frame_of};
use crate::environment::{Definition, Environment};
use crate::frame::{Frame, drop_first, enter_body, enter_loop, first, leave_loop};
use crate::names::{store, store_result};
use crate::stack::Stack;
use crate::step::{RunError, Step};
use crate::value::{Value, truth};
use c_lang::{Dest, Event, Expr, Name, Pos, Stmt, Trap};
use std::alloc::{AllocError, Global};
use std::mem;

/// A run over an environment. Contracts see its configuration by `config_with`, and the step that
/// comes next by `move_with`. What keeps one lets its parts go one by one.
pub struct Run<'p, E: Environment<'p>> {
    pub environment: E,
    pub stack: Stack<'p, E::Function, E::Origin>,
    ghost shallow: { vec_len stack.below < frame_limit },
}

impl<'p, E: Environment<'p>> Run<'p, E> {
    ghost use Rattle.plain_run.specs.Code.Frames.{behind_statement, seen_frame, seen_frames};
    ghost use Rattle.plain_run.specs.Code.Performed.{HasDone};
    ghost use Rattle.plain_run.specs.Code.SeenActions.{seen_action};
    ghost use Rattle.plain_run.specs.Stacks.{config_with, move_with};

    // Drops the statement that runs next.
    fn pass(&mut self)
        requires { self.old.stack.over ≡ false }
        ensures config { config_with E.seen (E.state self.new.environment) self.new.stack ≡ Live (E.state self.old.environment)
            (behind_statement E.seen self.old.stack.top) (seen_frames E.seen self.old.stack.below) }
        ensures environment { self.new.environment ≡ self.old.environment }
    {
        drop_first(&mut self.stack.top.rest);
    }

    fn enter(&mut self, body: &'p [Stmt]) -> Result<Step, RunError>
        requires { self.old.stack.over ≡ false }
        ensures done { (a : List ℤ) → HasDone E.seen (E.rules self.old.environment) (E.state self.old.environment) self.old.stack
            (spec.Enter body.entry.now) a result (E.state self.new.environment) self.new.stack a }
        ensures rules { E.rules self.new.environment ≡ E.rules self.old.environment }
    {
        enter_body(&mut self.stack.top.rest, body)?;
        Ok(Step::Quiet)
    }

    fn fault(&mut self, trap: Trap, pos: Pos) -> Step
        requires { self.old.stack.over ≡ false }
        ensures done { (a : List ℤ) → HasDone E.seen (E.rules self.old.environment) (E.state self.old.environment) self.old.stack
            (spec.Fault trap pos) a (Ok result) (E.state self.new.environment) self.new.stack a }
        ensures rules { E.rules self.new.environment ≡ E.rules self.old.environment }
    {
        self.stack.over = true;
        Step::Shown(Event::Fault(trap, pos))
    }

    fn enter_loop(&mut self, body: &'p [Stmt], mark: &'p Stmt) -> Result<Step, RunError>
        requires { self.old.stack.over ≡ false }
        ensures done { (a : List ℤ) → HasDone E.seen (E.rules self.old.environment) (E.state self.old.environment) self.old.stack
            (spec.Loop body.entry.now mark.entry.now) a result (E.state self.new.environment) self.new.stack a }
        ensures rules { E.rules self.new.environment ≡ E.rules self.old.environment }
    {
        enter_loop(&mut self.stack.top.rest, body, mark)?;
        Ok(Step::Quiet)
    }

    fn leave_loop(&mut self) -> Step
        requires { self.old.stack.over ≡ false }
        ensures done { (a : List ℤ) → HasDone E.seen (E.rules self.old.environment) (E.state self.old.environment) self.old.stack
            (spec.Leave) a (Ok result) (E.state self.new.environment) self.new.stack a }
        ensures rules { E.rules self.new.environment ≡ E.rules self.old.environment }
    {
        drop_first(&mut self.stack.top.rest);
        leave_loop(&mut self.stack.top.rest);
        Step::Quiet
    }

    fn output(&mut self, number: i32) -> Step
        requires { self.old.stack.over ≡ false }
        ensures done { (a : List ℤ) → HasDone E.seen (E.rules self.old.environment) (E.state self.old.environment) self.old.stack
            (spec.Output number) a (Ok result) (E.state self.new.environment) self.new.stack a }
        ensures rules { E.rules self.new.environment ≡ E.rules self.old.environment }
    {
        self.pass();
        Step::Shown(Event::Output(number))
    }

    // Stores a value and drops the statement that runs next. After an error nothing has changed.
    fn store(&mut self, dest: &'p Dest, value: Value<E::Function>) -> Result<(), AllocError>
        requires { self.old.stack.over ≡ false }
        ensures done { OnOk result (config_with E.seen (E.state self.new.environment) self.new.stack ≡
            stored (E.rules self.old.environment).access (E.state self.old.environment) (behind_statement E.seen self.old.stack.top)
            (seen_frames E.seen self.old.stack.below) dest.entry.now (seen_value E.seen.function value)) }
        ensures kept { OnErr result (config_with E.seen (E.state self.new.environment) self.new.stack ≡
            config_with E.seen (E.state self.old.environment) self.old.stack) }
        ensures rules { E.rules self.new.environment ≡ E.rules self.old.environment }
    {
        let origin = self.stack.top.origin;
        let locals = &mut self.stack.top.locals;
        store(&mut self.environment, origin, locals, dest, value)?;
        self.pass();
        Ok(())
    }

    fn input(&mut self, dest: &'p Dest, answers: &mut Answers) -> Result<Step, RunError>
        requires { self.old.stack.over ≡ false }
        ensures done { HasDone E.seen (E.rules self.old.environment) (E.state self.old.environment) self.old.stack
            (spec.Input dest.entry.now) answers.old result (E.state self.new.environment) self.new.stack answers.new }
        ensures rules { E.rules self.new.environment ≡ E.rules self.old.environment }
    {
        let Some(number) = answers.first() else {
            return Ok(Step::Waiting);
        };
        self.store(dest, Value::Num(number))?;
        answers.skip();
        Ok(Step::Shown(Event::Input(number)))
    }

    fn choice(&mut self, dest: &'p Dest, k: u32, answers: &mut Answers) -> Result<Step, RunError>
        requires { self.old.stack.over ≡ false }
        ensures done { HasDone E.seen (E.rules self.old.environment) (E.state self.old.environment) self.old.stack
            (spec.Choice dest.entry.now k) answers.old result (E.state self.new.environment) self.new.stack answers.new }
        ensures rules { E.rules self.new.environment ≡ E.rules self.old.environment }
    {
        let Some(number) = answers.first() else {
            return Ok(Step::Waiting);
        };
        let chosen = number != 0;
        self.store(dest, Value::Num(truth(chosen)))?;
        answers.skip();
        Ok(Step::Shown(Event::Choice(k, chosen)))
    }

    fn store_element(&mut self, array: &'p Name, at: i32, element: i32, pos: Pos) -> Step
        requires { self.old.stack.over ≡ false }
        ensures done { (a : List ℤ) → HasDone E.seen (E.rules self.old.environment) (E.state self.old.environment) self.old.stack
            (spec.Store_element array.entry.now at element pos) a (Ok result) (E.state self.new.environment) self.new.stack a }
        ensures rules { E.rules self.new.environment ≡ E.rules self.old.environment }
    {
        let origin = self.stack.top.origin;
        if !self.environment.set_element(origin, array, at, element) {
            return self.fault(Trap::Index, pos);
        }
        self.pass();
        Step::Quiet
    }

    // What the frame on top hands on: 0 for a function without a result.
    fn given(&self, value: Value<E::Function>) -> Value<E::Function>
        ensures { (N : Access E.F E.State E.O) → seen_value E.seen.function result ≡
            given N self.now.stack.top.gives (seen_value E.seen.function value) }
    {
        if self.stack.top.gives {
            value
        } else {
            Value::Num(0)
        }
    }

    // Leaves the frame on top.
    fn give_back(&mut self, value: Value<E::Function>) -> Result<Step, RunError>
        requires { self.old.stack.over ≡ false }
        ensures done { (a : List ℤ) → HasDone E.seen (E.rules self.old.environment) (E.state self.old.environment) self.old.stack
            (spec.Return (seen_value E.seen.function value)) a result (E.state self.new.environment) self.new.stack a }
        ensures rules { E.rules self.new.environment ≡ E.rules self.old.environment }
    {
        let given = self.given(value);
        let dest = self.stack.top.dest;
        let Some(mut frame) = self.stack.below.pop() else {
            self.stack.over = true;
            return Ok(Step::Shown(Event::End(given.number())));
        };
        let origin = frame.origin;
        match store_result(
            &mut self.environment,
            origin,
            &mut frame.locals,
            dest,
            given,
        ) {
            Ok(()) => {
                self.stack.top = frame;
                Ok(Step::Quiet)
            }
            Err(_) => {
                self.stack.below.push(frame).unwrap();
                Err(RunError::NoMemory)
            }
        }
    }

    // Puts a frame on top, for which there is room, in the place of the statement that runs next.
    fn push(&mut self, frame: Frame<'p, E::Function, E::Origin>)
        requires live { self.old.stack.over ≡ false }
        requires room { vec_len self.old.stack.below < vec_capacity self.old.stack.below }
        requires shallow { vec_len self.old.stack.below + 1 < frame_limit }
        ensures config { config_with E.seen (E.state self.new.environment) self.new.stack ≡
            Live (E.state self.old.environment) (seen_frame E.seen frame.entry)
            (behind_statement E.seen self.old.stack.top ∷ seen_frames E.seen self.old.stack.below) }
        ensures environment { self.new.environment ≡ self.old.environment }
    {
        drop_first(&mut self.stack.top.rest);
        let caller = mem::replace(&mut self.stack.top, frame);
        self.stack.below.push(caller).unwrap();
    }

    // Calls a function with these arguments.
    fn enter_function(
        &mut self,
        alloc: Global,
        function: E::Function,
        args: &[Value<E::Function>],
        dest: &'p Dest,
    ) -> Result<Step, RunError>
        requires { self.old.stack.over ≡ false }
        ensures done { (a : List ℤ) → Makes_or_fails
            (entered (E.rules self.old.environment).access (E.state self.old.environment)
            (behind_statement E.seen self.old.stack.top) (seen_frames E.seen self.old.stack.below)
            (E.seen.function function) (map (seen_value E.seen.function) args.now) dest.entry.now)
            (config_with E.seen (E.state self.old.environment) self.old.stack) a result
            (config_with E.seen (E.state self.new.environment) self.new.stack) a }
        ensures rules { E.rules self.new.environment ≡ E.rules self.old.environment }
    {
        self.stack.reserve()?;
        let definition = self.environment.enter(function);
        let frame = frame_of::<E>(alloc, definition, args, Some(dest))?;
        self.push(frame);
        Ok(Step::Quiet)
    }

    fn call(
        &mut self,
        alloc: Global,
        callee: Value<E::Function>,
        args: &'p [Expr],
        dest: &'p Dest,
        pos: Pos,
    ) -> Result<Step, RunError>
        requires { self.old.stack.over ≡ false }
        ensures done { (a : List ℤ) → HasDone E.seen (E.rules self.old.environment) (E.state self.old.environment) self.old.stack
            (spec.Call (seen_value E.seen.function callee) args.entry.now dest.entry.now pos) a result (E.state self.new.environment) self.new.stack a }
        ensures rules { E.rules self.new.environment ≡ E.rules self.old.environment }
    {
        let values = match self.arguments(alloc, args)? {
            Ok(values) => values,
            Err(trap) => return Ok(self.fault(trap, pos)),
        };
        match callee {
            Value::Code(function) => self.enter_function(alloc, function, &values, dest),
            Value::Num(_) | Value::Null => Ok(self.fault(Trap::NullCall, pos)),
        }
    }

    // Begins the update. After an error nothing has changed.
    fn swap(&mut self, alloc: Global) -> Result<(), RunError>
        requires { self.old.stack.over ≡ false }
        ensures done { OnOk result (config_with E.seen (E.state self.new.environment) self.new.stack ≡
            swapped (E.rules self.old.environment) (E.state self.old.environment)
            (behind_statement E.seen self.old.stack.top) (seen_frames E.seen self.old.stack.below)) }
        ensures deep { IsErrOf result RunError.Deep → frame_limit < frame_count
            (swapped (E.rules self.old.environment) (E.state self.old.environment)
            (behind_statement E.seen self.old.stack.top) (seen_frames E.seen self.old.stack.below)) }
        ensures kept { OnErr result (config_with E.seen (E.state self.new.environment) self.new.stack ≡
            config_with E.seen (E.state self.old.environment) self.old.stack) }
        ensures rules { E.rules self.new.environment ≡ E.rules self.old.environment }
    {
        self.stack.reserve()?;
        let definition = self.environment.transformer();
        let frame = first_frame::<E>(alloc, definition)?;
        self.environment.update(alloc)?;
        self.push(frame);
        Ok(())
    }

    fn update(&mut self, alloc: Global) -> Result<Step, RunError>
        requires { self.old.stack.over ≡ false }
        ensures done { (a : List ℤ) → HasDone E.seen (E.rules self.old.environment) (E.state self.old.environment) self.old.stack
            (spec.Update) a result (E.state self.new.environment) self.new.stack a }
        ensures rules { E.rules self.new.environment ≡ E.rules self.old.environment }
    {
        self.swap(alloc)?;
        Ok(Step::Quiet)
    }

    fn ask(&mut self, alloc: Global, k: u32, answers: &mut Answers) -> Result<Step, RunError>
        requires { self.old.stack.over ≡ false }
        ensures done { HasDone E.seen (E.rules self.old.environment) (E.state self.old.environment) self.old.stack
            (spec.Ask k) answers.old result (E.state self.new.environment) self.new.stack answers.new }
        ensures rules { E.rules self.new.environment ≡ E.rules self.old.environment }
    {
        let Some(number) = answers.first() else {
            return Ok(Step::Waiting);
        };
        if number == 0 {
            self.pass();
            answers.skip();
            return Ok(Step::Shown(Event::Choice(k, false)));
        }
        self.swap(alloc)?;
        answers.skip();
        Ok(Step::Shown(Event::Choice(k, true)))
    }

    fn perform(
        &mut self,
        alloc: Global,
        action: Action<'p, E::Function>,
        answers: &mut Answers,
    ) -> Result<Step, RunError>
        requires { self.old.stack.over ≡ false }
        ensures done { HasDone E.seen (E.rules self.old.environment) (E.state self.old.environment) self.old.stack
            (seen_action E.seen.function action.entry) answers.old result (E.state self.new.environment) self.new.stack answers.new }
        ensures rules { E.rules self.new.environment ≡ E.rules self.old.environment }
    {
        match action {
            Action::Skip => {
                self.pass();
                Ok(Step::Quiet)
            }
            Action::Enter(body) => self.enter(body),
            Action::Loop(body, mark) => self.enter_loop(body, mark),
            Action::Leave => Ok(self.leave_loop()),
            Action::Store(dest, value) => {
                self.store(dest, value)?;
                Ok(Step::Quiet)
            }
            Action::StoreElement(array, at, element, pos) => {
                Ok(self.store_element(array, at, element, pos))
            }
            Action::Call(callee, args, dest, pos) => self.call(alloc, callee, args, dest, pos),
            Action::Return(value) => self.give_back(value),
            Action::Fault(trap, pos) => Ok(self.fault(trap, pos)),
            Action::Input(dest) => self.input(dest, answers),
            Action::Output(number) => Ok(self.output(number)),
            Action::Choice(dest, k) => self.choice(dest, k, answers),
            Action::Ask(k) => self.ask(alloc, k, answers),
            Action::Update => self.update(alloc),
        }
    }

    fn advance(&mut self, alloc: Global, answers: &mut Answers) -> Result<Step, RunError>
        ensures done { Makes_or_fails (move_with E.seen (E.rules self.old.environment) (E.state self.old.environment) self.old.stack)
            (config_with E.seen (E.state self.old.environment) self.old.stack) answers.old result
            (config_with E.seen (E.state self.new.environment) self.new.stack) answers.new }
        ensures rules { E.rules self.new.environment ≡ E.rules self.old.environment }
    {
        if self.stack.over {
            return Ok(Step::Stopped);
        }
        match first(&mut self.stack.top.rest) {
            None => self.give_back(Value::Num(0)),
            Some(statement) => {
                let action = self.asked(statement);
                self.perform(alloc, action, answers)
            }
        }
    }

    /// Makes the next step of the run.
    ///
    /// `Step::Waiting` comes exactly where the statement takes an answer and none is left,
    /// `Step::Stopped` exactly where the run is over; then nothing changes. `RunError::Deep` comes
    /// exactly where the step would make one frame more than 10,000. After an error the run and the
    /// answers are as before.
    pub fn step(&mut self, alloc: Global, answers: &mut Answers) -> Result<Step, RunError>
        ensures made { IfOk result (λ shown. Makes (move_with E.seen (E.rules self.old.environment) (E.state self.old.environment) self.old.stack)
            (config_with E.seen (E.state self.old.environment) self.old.stack) answers.old shown
            (config_with E.seen (E.state self.new.environment) self.new.stack) answers.new) }
        ensures depth { frame_count (config_with E.seen (E.state self.new.environment) self.new.stack) ≤ frame_limit }
        ensures deep { IsErrOf result RunError.Deep → IsTooDeep (move_with E.seen (E.rules self.old.environment) (E.state self.old.environment) self.old.stack) answers.old }
        ensures config { OnErr result (config_with E.seen (E.state self.new.environment) self.new.stack ≡
            config_with E.seen (E.state self.old.environment) self.old.stack) }
        ensures answers { OnErr result (answers.new ≡ answers.old) }
        ensures rules { E.rules self.new.environment ≡ E.rules self.old.environment }
    {
        self.advance(alloc, answers)
    }

    /// A run over this environment that begins with this code. The only error is want of memory.
    pub fn new(
        alloc: Global,
        environment: E,
        definition: Definition<'p, E::Origin>,
    ) -> Result<Run<'p, E>, AllocError>
        ensures config { IfOk result (λ run. (N : Access E.F E.State E.O) →
            config_with E.seen (E.state run.environment) run.stack ≡ Live (E.state environment)
            (frame_of N (seen_definition E.seen.origin definition.entry) [] Nowhere) []) }
        ensures rules { IfOk result (λ run. E.rules run.environment ≡ E.rules environment) }
    {
        let top = first_frame::<E>(alloc, definition)?;
        let stack = Stack {
            top,
            below: Vec::new(alloc),
            over: false,
        };
        Ok(Run { environment, stack })
    }
}
