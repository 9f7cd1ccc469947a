//! A whole program.

ghost use Rattle.std.specs.Prelude.{◌≡◌, ◌++◌, ◌+◌, ◌<◌, IfOk, OnOk, codes, length};
ghost use Rattle.std.specs.List.{flat_map};
ghost use Rattle.c_lang.specs.declared.unit.Unit.TheVariants.{Merge};
ghost use Rattle.c_lang.specs.Limits.{height_limit};
ghost use Rattle.c_grammar.specs.Written.{Parses};
ghost use Rattle.c_types.specs.Plain.{plain};
ghost use Rattle.merge_printer.specs.Printable.{IsPrintable};
ghost use Rattle.merge_printer.specs.Programs as spec;
ghost use Rattle.merge_printer.specs.Statements.{position_text};

use crate::declarations::put_declaration;
use crate::statements::put_statements;
use crate::text::{put_length, put_number, put_position, put_signed, put_text};
use c_lang::{Func, GlobalVar, Kind, Name, Pos, Program, Proto, Shape};
use itoa::Buffer;
use std::alloc::{AllocError, Global};

/// The text of a merged program: the include line, the prototypes, the globals and the functions,
/// each declaration and statement on a line of its own behind a `#line` directive with its
/// position. The only error is want of memory.
pub fn program_text(alloc: Global, program: &Program) -> Result<Vec<u8>, AllocError>
    ensures { IfOk result (λ text. text.items ≡ spec.program_text program.now) }
{
    let mut out = Vec::new(alloc);
    put_text(&mut out, b"#include \"dsu.h\"\n")?;
    put_protos(&mut out, program.protos.as_slice())?;
    put_globals(&mut out, program.globals.as_slice())?;
    put_funcs(&mut out, program.funcs.as_slice())?;
    Ok(out)
}

/// The text of a merged program that is read back as that program: lexed and parsed as unit Merge it
/// is the same program, positions included, where names of functions are variables, null is the
/// literal 0 and a call of a pointer is a call.
///
/// The program is written in unit Merge and nothing is refused of it; its positions have lines from
/// 1 to 2147483647 in units of programs; and its text is at most 72 high and has at most 72 brackets
/// open at once. The only error is want of memory.
pub fn print_program(alloc: Global, program: &Program) -> Result<Vec<u8>, AllocError>
    requires { IsPrintable (plain program.now) }
    ensures text { IfOk result (λ text. text.items ≡ spec.program_text program.now) }
    ensures parses { IfOk result (λ text. Parses Merge (height_limit Merge) text.items (plain program.now)) }
{
    program_text(alloc, program)
}

fn put_protos(out: &mut Vec<u8>, protos: &[Proto]) -> Result<(), AllocError>
    ensures { OnOk result (out.new.items ≡ out.old.items ++ flat_map spec.proto_text protos.now) }
{
    for proto in protos {
        put_proto(out, proto)?;
    }
    Ok(())
}

fn put_globals(out: &mut Vec<u8>, globals: &[GlobalVar]) -> Result<(), AllocError>
    ensures { OnOk result (out.new.items ≡ out.old.items ++ flat_map spec.global_text globals.now) }
{
    for global in globals {
        put_global(out, global)?;
    }
    Ok(())
}

fn put_funcs(out: &mut Vec<u8>, funcs: &[Func]) -> Result<(), AllocError>
    ensures { OnOk result (out.new.items ≡ out.old.items ++ flat_map spec.func_text funcs.now) }
{
    for func in funcs {
        put_func(out, func)?;
    }
    Ok(())
}

fn put_global(out: &mut Vec<u8>, global: &GlobalVar) -> Result<(), AllocError>
    ensures { OnOk result (out.new.items ≡ out.old.items ++ spec.global_text global.now) }
{
    put_position(out, global.pos)?;
    match &global.shape {
        Shape::Int(value) => put_int(out, &global.name, *value),
        Shape::Arr(elements) => put_array(out, &global.name, elements.as_slice()),
        Shape::Fp(arity, function) => put_pointer(out, &global.name, *arity, function),
    }
}

fn put_int(out: &mut Vec<u8>, name: &Name, value: i32) -> Result<(), AllocError>
    ensures { OnOk result (out.new.items ≡ out.old.items ++ spec.int_text name.now value) }
{
    put_text(out, b"int ")?;
    put_text(out, name.as_bytes())?;
    put_text(out, b" = ")?;
    put_signed(out, value)?;
    put_text(out, b";\n")
}

fn put_array(out: &mut Vec<u8>, name: &Name, elements: &[i32]) -> Result<(), AllocError>
    ensures { OnOk result (out.new.items ≡ out.old.items ++ spec.array_text name.now elements.now) }
{
    put_text(out, b"int ")?;
    put_text(out, name.as_bytes())?;
    put_text(out, b"[")?;
    put_length(out, elements.len())?;
    put_text(out, b"]")?;
    put_initializer(out, shown_elements(elements))?;
    put_text(out, b";\n")
}

// The elements up to the last that isn't 0.
fn shown_elements(elements: &[i32]) -> &[i32]
    ensures { result.now ≡ spec.shown_elements elements.now }
{
    let mut shown = elements;
    while let Some((0, rest)) = shown.split_last() {
        shown = rest;
    }
    shown
}

fn put_initializer(out: &mut Vec<u8>, elements: &[i32]) -> Result<(), AllocError>
    ensures { OnOk result (out.new.items ≡ out.old.items ++ spec.initializer elements.now) }
{
    match elements {
        [] => Ok(()),
        [first, rest @ ..] => {
            put_text(out, b" = {")?;
            put_signed(out, *first)?;
            put_more_numbers(out, rest)?;
            put_text(out, b"}")
        }
    }
}

fn put_more_numbers(out: &mut Vec<u8>, numbers: &[i32]) -> Result<(), AllocError>
    ensures { OnOk result (out.new.items ≡ out.old.items ++ spec.more_numbers numbers.now) }
{
    for number in numbers {
        put_text(out, b", ")?;
        put_signed(out, *number)?;
    }
    Ok(())
}

fn put_pointer(
    out: &mut Vec<u8>,
    name: &Name,
    arity: u8,
    function: &Option<Name>,
) -> Result<(), AllocError>
    ensures { OnOk result (out.new.items ≡ out.old.items ++ spec.pointer_text name.now arity function.now) }
{
    put_declaration(out, Kind::Fp(arity), name.as_bytes())?;
    put_text(out, b" = ")?;
    put_pointer_value(out, function)?;
    put_text(out, b";\n")
}

fn put_pointer_value(out: &mut Vec<u8>, function: &Option<Name>) -> Result<(), AllocError>
    ensures { OnOk result (out.new.items ≡ out.old.items ++ spec.pointer_value function.now) }
{
    match function {
        None => put_text(out, b"0"),
        Some(name) => put_text(out, name.as_bytes()),
    }
}

// The result and the name of a function.
fn put_head_start(out: &mut Vec<u8>, gives: bool, name: &Name) -> Result<(), AllocError>
    ensures { OnOk result (out.new.items ≡ out.old.items ++ spec.head_start gives name.now) }
{
    put_text(
        out,
        if gives {
            b"int ".as_slice()
        } else {
            b"void ".as_slice()
        },
    )?;
    put_text(out, name.as_bytes())
}

fn put_proto(out: &mut Vec<u8>, proto: &Proto) -> Result<(), AllocError>
    ensures { OnOk result (out.new.items ≡ out.old.items ++ spec.proto_text proto.now) }
{
    put_position(out, proto.pos)?;
    put_head_start(out, proto.gives, &proto.name)?;
    put_text(out, b"(")?;
    put_kinds(out, proto.params.as_slice())?;
    put_text(out, b");\n")
}

// The parameters of a prototype, named `dsu_a1`, `dsu_a2` and so on.
fn put_numbered(out: &mut Vec<u8>, kind: Kind, number: usize) -> Result<(), AllocError>
    ensures { OnOk result (out.new.items ≡ out.old.items ++ spec.numbered kind number) }
{
    let mut buffer = Buffer::new();
    let mut name = Vec::from_slice(*out.allocator(), b"dsu_a")?;
    name.extend_from_slice(buffer.format(number).as_bytes())?;
    put_declaration(out, kind, &name)
}

fn put_kinds(out: &mut Vec<u8>, kinds: &[Kind]) -> Result<(), AllocError>
    ensures { OnOk result (out.new.items ≡ out.old.items ++ spec.kinds_text kinds.now) }
{
    match kinds {
        [] => put_text(out, b"void"),
        [first, rest @ ..] => {
            put_numbered(out, *first, 1)?;
            put_more_kinds(out, rest)
        }
    }
}

fn put_more_kinds(out: &mut Vec<u8>, kinds: &[Kind]) -> Result<(), AllocError>
    ensures { OnOk result (out.new.items ≡ out.old.items ++ spec.more_kinds 2 kinds.now) }
{
    for (index, kind) in kinds.iter().enumerate() {
        put_text(out, b", ")?;
        put_numbered(out, *kind, index + 2)?;
    }
    Ok(())
}

fn put_more_parameters(out: &mut Vec<u8>, params: &[(Kind, Name)]) -> Result<(), AllocError>
    ensures { OnOk result (out.new.items ≡ out.old.items ++ spec.more_parameters params.now) }
{
    for param in params {
        put_text(out, b", ")?;
        put_declaration(out, param.0, param.1.as_bytes())?;
    }
    Ok(())
}

fn put_parameters(out: &mut Vec<u8>, params: &[(Kind, Name)]) -> Result<(), AllocError>
    ensures { OnOk result (out.new.items ≡ out.old.items ++ spec.parameters_text params.now) }
{
    match params {
        [] => put_text(out, b"void"),
        [first, rest @ ..] => {
            put_declaration(out, first.0, first.1.as_bytes())?;
            put_more_parameters(out, rest)
        }
    }
}

// A function's position, head and opening brace.
fn put_head(
    out: &mut Vec<u8>,
    pos: Pos,
    gives: bool,
    name: &Name,
    params: &[(Kind, Name)],
) -> Result<(), AllocError>
    ensures { OnOk result (out.new.items ≡ out.old.items ++ (position_text pos ++ (spec.head_start gives name.now ++ (codes "(" ++ (spec.parameters_text params.now ++ codes ") {\n"))))) }
{
    put_position(out, pos)?;
    put_head_start(out, gives, name)?;
    put_text(out, b"(")?;
    put_parameters(out, params)?;
    put_text(out, b") {\n")
}

fn put_func(out: &mut Vec<u8>, func: &Func) -> Result<(), AllocError>
    ensures { OnOk result (out.new.items ≡ out.old.items ++ spec.func_text func.now) }
{
    put_head(
        out,
        func.pos,
        func.gives,
        &func.name,
        func.params.as_slice(),
    )?;
    put_statements(out, func.body.as_slice())?;
    put_text(out, b"}\n")
}
