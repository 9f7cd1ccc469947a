//! What may stand in a clause.

ghost use Rattle.std.specs.Prelude.{◌≡◌, ◌++◌, Bool, IfOk, OnOk};
ghost use Rattle.std.specs.Option.{option_map};
ghost use Rattle.std.specs.Str.{bytes_eq};
ghost use Rattle.c_lang.specs.Programs.{global_named};
ghost use Rattle.loop_invariants.specs.EntryNames as entry;
ghost use Rattle.loop_invariants.specs.SetNames.{is_among};
ghost use Rattle.loop_invariants.specs.Clauses as spec;
ghost use Rattle.loop_invariants.specs.Loops as loops;
ghost use Rattle.loop_invariants.specs.Code.Seeking.{names_in};
ghost use Rattle.terms.specs.Symbols.{same_sym};
ghost use Rattle.terms.specs.Trees.{read, denied};
ghost use Rattle.loop_invariants.specs.Code.Allowed.{seen_names, seen_place, seen_under, are_terms, are_forms};

use crate::loops::visible_at;
use c_lang::{Func, Name, Shape};
use itoa::Buffer;
use name_tables::ProgramNames;
use std::alloc::{AllocError, Global};
use std::marker::Model;
use terms::{ArrayRef, ArrayView, Fact, Form, FormRef, FormView, Sym, TermRef, TermView};

/// The most operators on a path of a formula.
const OPERATOR_LIMIT: u32 = 64;

/// The greatest number that a formula may have.
const LITERAL_LIMIT: i128 = 2_147_483_647;

/// What may stand in a clause at some place of a program, which contracts see as the program and the place:
/// the program's globals, these parameters and locals, the parameters at entry, and the result and the globals
/// at entry where they may.
pub struct Allowed<'a> {
    names: &'a ProgramNames<'a>,
    place: Place,
    // the texts of the parameters at entry
    parameters: Vec<Name>,
}

// By hand, so that a proof has one step for each that is dropped.
impl Drop for Allowed<'_> {
    fn drop(self) {
        let Allowed {
            names: _names,
            place: _place,
            parameters: _parameters,
        } = self;
    }
}

impl<'a> Model for Allowed<'a> {
    ghost use Rattle.std.specs.Prelude.{◌≡◌};
    ghost use Rattle.std.specs.Coded.{codes};
    ghost use Rattle.c_lang.specs.contracts.program.Program as the_program;
    ghost use Rattle.loop_invariants.specs.Clauses.{Site, parameter_texts};
    ghost use Rattle.loop_invariants.specs.Code.Allowed.{seen_place};

    ghost Value = { Site };

    ghost coded = { Prim.hlevel (codes, the_program.the_row.coded) };

    ghost view = { λ a. record { program = a.names.now; place = seen_place a.place } };

    ghost invariant = { λ a. a.parameters.items ≡ parameter_texts a.place.parameters };
}

// The text of the value at entry of the parameter with this number.
fn parameter_text(alloc: Global, number: usize) -> Result<Name, AllocError>
    ensures { IfOk result (λ text. text ≡ entry.parameter_text number) }
{
    let mut bytes = Vec::from_slice(alloc, b"$")?;
    let mut buffer = Buffer::new();
    bytes.extend_from_slice(buffer.format(number).as_bytes())?;
    Ok(Name::from_vec(bytes))
}

// The texts of the values at entry of so many parameters.
fn parameter_texts(alloc: Global, count: usize) -> Result<Vec<Name>, AllocError>
    ensures { IfOk result (λ texts. texts.items ≡ spec.parameter_texts count) }
{
    let mut texts = Vec::new(alloc);
    for before in 0..count {
        texts.push(parameter_text(alloc, before + 1)?)?;
    }
    Ok(texts)
}

/// Where a clause stands: the parameters and locals of which it may speak, how many parameters the function
/// has, whether it may speak of the result, and of globals at entry.
#[derive(Debug, Drop)]
pub(crate) struct Place {
    locals: Vec<Name>,
    parameters: usize,
    result: bool,
    at_entry: bool,
}

fn holds_array(shape: &Shape) -> bool
    ensures { result ≡ spec.holds_array shape.now }
{
    match shape {
        Shape::Int(_) => false,
        Shape::Arr(_) => true,
        Shape::Fp(_, _) => false,
    }
}

fn is_array(names: &ProgramNames<'_>, name: &Name) -> bool
    ensures { result ≡ spec.is_array (global_named names.now.globals name.now) }
{
    match names.global(name) {
        None => false,
        Some(global) => holds_array(&global.shape),
    }
}

fn is_scalar(names: &ProgramNames<'_>, name: &Name) -> bool
    ensures { result ≡ spec.is_scalar (global_named names.now.globals name.now) }
{
    match names.global(name) {
        None => false,
        Some(global) => !holds_array(&global.shape),
    }
}

// Whether the name is the text of the global's value at entry.
fn is_entry_text(global: &Name, name: &Name) -> bool
    ensures { result ≡ bytes_eq (entry.entry_text global.now) name.now }
{
    let bytes = name.as_bytes();
    match bytes.strip_prefix(b"pre(") {
        None => false,
        Some(rest) => match rest.strip_suffix(b")") {
            None => false,
            Some(inner) => global.as_bytes() == inner,
        },
    }
}

fn is_entry_scalar(names: &ProgramNames<'_>, name: &Name) -> bool
    ensures { result ≡ spec.is_entry_of spec.is_scalar names.now.globals name.now }
{
    names.program().globals.as_slice().iter().any(|global| is_scalar(names, &global.name)
        && is_entry_text(&global.name, name))
}

fn is_entry_array(names: &ProgramNames<'_>, name: &Name) -> bool
    ensures { result ≡ spec.is_entry_of spec.is_array names.now.globals name.now }
{
    names.program().globals.as_slice().iter().any(|global| is_array(names, &global.name)
        && is_entry_text(&global.name, name))
}

fn is_listed(names: &[Name], name: &Name) -> bool
    ensures { result ≡ is_among name.now names.now }
{
    names.iter().any(|listed| name == listed)
}

// A copy of each name, behind what stands there.
fn put_owned(alloc: Global, out: &mut Vec<Name>, names: &[&Name]) -> Result<(), AllocError>
    ensures { OnOk result (out.new.items ≡ out.old.items ++ names_in names.now) }
{
    for name in names {
        out.push(name.copy(alloc)?)?;
    }
    Ok(())
}

// At a loop of the function where these names are visible.
fn loop_place(alloc: Global, func: &Func, visible: &[&Name]) -> Result<Place, AllocError>
    ensures { IfOk result (λ place. seen_place place ≡ spec.at_loop func.now (names_in visible.now)) }
{
    let mut locals = Vec::new(alloc);
    put_owned(alloc, &mut locals, visible)?;
    Ok(Place {
        locals,
        parameters: func.params.len(),
        result: false,
        at_entry: true,
    })
}

impl<'a> Allowed<'a> {
    // What may stand at this place of the program. The only error is want of memory.
    fn new(
        alloc: Global,
        names: &'a ProgramNames<'a>,
        place: Place,
    ) -> Result<Allowed<'a>, AllocError>
        ensures { IfOk result (λ allowed. allowed ≡ spec.site names.entry.now (seen_place place)) }
    {
        let parameters = parameter_texts(alloc, place.parameters)?;
        Ok(Allowed {
            names,
            place,
            parameters,
        })
    }

    /// What may stand in what the function asks of its callers. The only error is want of memory.
    pub fn in_needs(
        alloc: Global,
        names: &'a ProgramNames<'a>,
        func: &Func,
    ) -> Result<Allowed<'a>, AllocError>
        ensures { IfOk result (λ allowed. allowed ≡ spec.site names.entry.now (spec.at_needs func.now)) }
    {
        let place = Place {
            locals: Vec::new(alloc),
            parameters: func.params.len(),
            result: false,
            at_entry: false,
        };
        Allowed::new(alloc, names, place)
    }

    /// What may stand in what the function promises its callers. The only error is want of memory.
    pub fn in_promises(
        alloc: Global,
        names: &'a ProgramNames<'a>,
        func: &Func,
    ) -> Result<Allowed<'a>, AllocError>
        ensures { IfOk result (λ allowed. allowed ≡ spec.site names.entry.now (spec.at_promises func.now)) }
    {
        let place = Place {
            locals: Vec::new(alloc),
            parameters: func.params.len(),
            result: func.gives,
            at_entry: true,
        };
        Allowed::new(alloc, names, place)
    }

    // The same, where these names are visible.
    fn among(
        alloc: Global,
        names: &'a ProgramNames<'a>,
        func: &Func,
        visible: &[&Name],
    ) -> Result<Allowed<'a>, AllocError>
        ensures { IfOk result (λ allowed. allowed ≡ spec.site names.entry.now (spec.at_loop func.now (names_in visible.now))) }
    {
        let place = loop_place(alloc, func, visible)?;
        Allowed::new(alloc, names, place)
    }

    // What may stand at the function's loop of this number, if it has it. The only error is want of memory.
    fn in_loop_of(
        alloc: Global,
        names: &'a ProgramNames<'a>,
        func: &Func,
        number: u32,
    ) -> Result<Option<Allowed<'a>>, AllocError>
        ensures { IfOk result (λ allowed. allowed
            ≡ option_map (λ visible. spec.site names.entry.now (spec.at_loop func.now visible)) (loops.visible_at func.now number)) }
    {
        match visible_at(alloc, func, number)? {
            None => Ok(None),
            Some(visible) => Ok(Some(Allowed::among(alloc, names, func, &visible)?)),
        }
    }

    /// What may stand at the loop of this number, counted from 1, of the function with this name, if there
    /// is such a loop. The only error is want of memory.
    pub fn in_loop(
        alloc: Global,
        names: &'a ProgramNames<'a>,
        func: &Name,
        number: u32,
    ) -> Result<Option<Allowed<'a>>, AllocError>
        ensures { IfOk result (λ allowed. allowed
            ≡ option_map (spec.site names.entry.now) (spec.loop_place names.entry.now func.now number)) }
    {
        match names.func(func) {
            None => Ok(None),
            Some(func) => Allowed::in_loop_of(alloc, names, func, number),
        }
    }

    fn may_be_number(&self, name: &Name) -> bool
        ensures { result ≡ (seen_names self.now).number name.now }
    {
        is_scalar(self.names, name)
            || (is_listed(&self.place.locals, name)
                || (is_listed(&self.parameters, name)
                    || ((self.place.result && name.as_bytes() == b"$r".as_slice())
                        || (self.place.at_entry && is_entry_scalar(self.names, name)))))
    }

    fn may_be_array(&self, name: &Name) -> bool
        ensures { result ≡ (seen_names self.now).array name.now }
    {
        is_array(self.names, name) || (self.place.at_entry && is_entry_array(self.names, name))
    }

    // A name that stands for a number, outside a quantifier or in its body.
    fn number(&self, inside: bool, symbol: &Sym) -> bool
        ensures { result ≡ spec.is_plain (seen_under inside self.now).number symbol.now }
    {
        symbol.count == 0
            && ((inside && symbol.base.as_bytes() == b"$".as_slice())
                || self.may_be_number(&symbol.base))
    }

    fn array(&self, array: &ArrayRef<'_>) -> bool
        ensures { (inside : Bool) → result ≡ spec.may_be_array (seen_under inside self.now) array.now }
    {
        match array.view() {
            ArrayView::Base(symbol) => symbol.count == 0 && self.may_be_array(&symbol.base),
            ArrayView::Store(_, _, _) => false,
        }
    }

    #[cycle(term)]
    fn terms(&self, inside: bool, operators: u32, left: &TermRef<'_>, right: &TermRef<'_>) -> bool
        ensures { result ≡ are_terms (seen_under inside self.now) operators left.now right.now }
    {
        match operators.checked_sub(1) {
            None => false,
            Some(below) => self.term(inside, below, left) && self.term(inside, below, right),
        }
    }

    #[cycle(term)]
    fn element(
        &self,
        inside: bool,
        operators: u32,
        array: &ArrayRef<'_>,
        index: &TermRef<'_>,
    ) -> bool
        ensures { result ≡ spec.may_be_term (seen_under inside self.now) operators (read array.now index.now) }
    {
        match operators.checked_sub(1) {
            None => false,
            Some(below) => self.array(array) && self.term(inside, below, index),
        }
    }

    #[cycle(term)]
    fn term(&self, inside: bool, operators: u32, term: &TermRef<'_>) -> bool
        ensures { result ≡ spec.may_be_term (seen_under inside self.now) operators term.now }
    {
        match term.view() {
            TermView::Num(value) => 0 <= value && value <= LITERAL_LIMIT,
            TermView::Of(symbol) => self.number(inside, symbol),
            TermView::Add(left, right) => self.terms(inside, operators, &left, &right),
            TermView::Sub(left, right) => self.terms(inside, operators, &left, &right),
            TermView::Mul(left, right) => self.terms(inside, operators, &left, &right),
            TermView::Div(_, _) => false,
            TermView::Rem(_, _) => false,
            TermView::Read(array, index) => self.element(inside, operators, &array, &index),
            TermView::Truth(_) => false,
        }
    }

    #[cycle(form)]
    fn forms(&self, inside: bool, operators: u32, left: &FormRef<'_>, right: &FormRef<'_>) -> bool
        ensures { result ≡ are_forms (seen_under inside self.now) operators left.now right.now }
    {
        match operators.checked_sub(1) {
            None => false,
            Some(below) => self.form(inside, below, left) && self.form(inside, below, right),
        }
    }

    #[cycle(form)]
    fn denial(&self, inside: bool, operators: u32, form: &FormRef<'_>) -> bool
        ensures { result ≡ spec.may_be_form (seen_under inside self.now) operators (denied form.now) }
    {
        match operators.checked_sub(1) {
            None => false,
            Some(below) => self.form(inside, below, form),
        }
    }

    #[cycle(form)]
    fn form(&self, inside: bool, operators: u32, form: &FormRef<'_>) -> bool
        ensures { result ≡ spec.may_be_form (seen_under inside self.now) operators form.now }
    {
        match form.view() {
            FormView::True => false,
            FormView::False => false,
            FormView::Le(left, right) => self.terms(inside, operators, &left, &right),
            FormView::Eq(left, right) => self.terms(inside, operators, &left, &right),
            FormView::Not(inner) => self.denial(inside, operators, &inner),
            FormView::And(left, right) => self.forms(inside, operators, &left, &right),
            FormView::Or(left, right) => self.forms(inside, operators, &left, &right),
        }
    }

    /// Whether a `forall` may give its number this name there: no global has it, and no parameter or local of
    /// which the clause may speak. It takes no memory.
    pub fn may_bind(&self, name: &Name) -> bool
        ensures { result ≡ spec.may_bind self.now.program self.now.place name.now }
    {
        self.names.global(name).is_none() && !is_listed(&self.place.locals, name)
    }

    /// Whether the fact may stand there. It takes no memory.
    pub fn fact(&self, fact: &Fact) -> bool
        ensures { result ≡ spec.may_stand self.now.program self.now.place fact.now }
    {
        match fact {
            Fact::Plain(form) => self.form(false, OPERATOR_LIMIT, &form.as_ref()),
            Fact::All { var, lo, hi, body } => {
                is_bound(var)
                    && (self.term(false, OPERATOR_LIMIT, &lo.as_ref())
                        && (self.term(false, OPERATOR_LIMIT, &hi.as_ref())
                            && self.form(true, OPERATOR_LIMIT, &body.as_ref())))
            }
        }
    }
}

// Whether it is the name that facts bind.
fn is_bound(symbol: &Sym) -> bool
    ensures { result ≡ same_sym symbol.now entry.bound }
{
    symbol.count == 0 && symbol.base.as_bytes() == b"$".as_slice()
}
