//! What each command answers.

use anyhow::{Result, bail};
use c_lang::{Expr, Fail, Program, Stmt, Unit};
use c_lexer::{Token, Word, lex};
use c_parser::parse_text;
use c_types::{Typed, check};
use merge_printer::program_text;
use std::alloc::{AllocError, Global};
use std::str;

/// The answer of a case.
pub fn answer(alloc: Global, command: &str, unit: Unit, text: &[u8]) -> Result<String> {
    let answer = match command {
        "lex" => tokens(alloc, unit, text),
        "parse" => counts(alloc, unit, text),
        "print" => printed(alloc, unit, text),
        "lines" => lines(alloc, unit, text),
        "check" => checked(alloc, unit, text),
        "resolve" => resolved(alloc, unit, text),
        _ => bail!("no such command: {command}"),
    };
    Ok(shown(alloc, answer)?)
}

/// What was found, or the refusal. Want of memory is the only error.
fn shown(alloc: Global, answer: Result<String, Fail>) -> Result<String, AllocError> {
    match answer {
        Ok(found) => Ok(found),
        Err(Fail::Refused(why)) => format!(in alloc; "{why}"),
        Err(Fail::NoMemory) => Err(AllocError),
    }
}

fn typed(alloc: Global, unit: Unit, text: &[u8]) -> Result<Typed, Fail> {
    check(alloc, unit, parse_text(alloc, unit, text)?)
}

// A keyword as `k34` and a punctuator as `p0`, by their numbers; names and numbers as they stand.
fn token_text(alloc: Global, token: &Token) -> Result<String, AllocError> {
    match &token.what {
        Word::Key(number) => format!(in alloc; "k{number}"),
        Word::Punct(number) => format!(in alloc; "p{number}"),
        Word::Number(number) => format!(in alloc; "{number}"),
        Word::Ident(name) => {
            let name = str::from_utf8(name.as_bytes()).unwrap_or("?");
            format!(in alloc; "{name}")
        }
    }
}

/// The tokens, with a position before the first one that has it.
fn tokens(alloc: Global, unit: Unit, text: &[u8]) -> Result<String, Fail> {
    let mut said = String::from_str(alloc, "tokens")?;
    let mut last = None;
    for token in &lex(alloc, unit, text)? {
        if last != Some(token.pos) {
            last = Some(token.pos);
            said.push_str(format!(in alloc; " @{}:{}", token.pos.unit, token.pos.line)?.as_str())?;
        }
        said.push_str(" ")?;
        said.push_str(token_text(alloc, token)?.as_str())?;
    }
    Ok(said)
}

/// How many globals, prototypes and functions, the statements of each function, and what is refused
/// early.
fn counts(alloc: Global, unit: Unit, text: &[u8]) -> Result<String, Fail> {
    let program = parse_text(alloc, unit, text)?;
    Ok(program_counts(alloc, &program)?)
}

fn program_counts(alloc: Global, program: &Program) -> Result<String, AllocError> {
    let mut said = format!(in alloc;
        "{} {} {}",
        program.globals.len(),
        program.protos.len(),
        program.funcs.len()
    )?;
    for func in program.funcs.as_slice() {
        said.push_str(format!(in alloc; " ({})", func.body.len())?.as_str())?;
    }
    for why in program.early.as_slice() {
        said.push_str(format!(in alloc; ", {} at {}", why.number, why.pos.line)?.as_str())?;
    }
    Ok(said)
}

fn text_of(alloc: Global, unit: Unit, text: &[u8]) -> Result<Vec<u8>, Fail> {
    let program = parse_text(alloc, unit, text)?;
    Ok(program_text(alloc, &program)?)
}

/// The printed text.
fn printed(alloc: Global, unit: Unit, text: &[u8]) -> Result<String, Fail> {
    let printed = text_of(alloc, unit, text)?;
    Ok(
        str::from_utf8(&printed)
            .unwrap_or("?")
            .replace(alloc, "\n", "\\n")?,
    )
}

/// The printed text without its directives.
fn lines(alloc: Global, unit: Unit, text: &[u8]) -> Result<String, Fail> {
    let printed = text_of(alloc, unit, text)?;
    let mut said = String::new(alloc);
    for line in str::from_utf8(&printed).unwrap_or("?").lines() {
        if !line.starts_with('#') {
            said.push_str(line)?;
            said.push_str("\\n")?;
        }
    }
    Ok(said)
}

fn checked(alloc: Global, unit: Unit, text: &[u8]) -> Result<String, Fail> {
    let _program = typed(alloc, unit, text)?;
    Ok(String::from_str(alloc, "typed")?)
}

fn comparison(left: &Expr, right: &Expr) -> &'static str {
    match (left, right) {
        (Expr::Var(_), Expr::FunRef(_)) => "variable == function",
        (Expr::FunRef(_), Expr::Null) => "function == null",
        _ => "other",
    }
}

fn statement_word(statement: &Stmt) -> &'static str {
    match statement {
        Stmt::Point { .. } => "point",
        Stmt::Call { .. } => "call",
        Stmt::CallBy { .. } => "pointer",
        Stmt::Output { .. } => "output",
        Stmt::Return {
            value: Some(Expr::Bin(_, left, right)),
            ..
        } => comparison(left.get(), right.get()),
        Stmt::Return { .. } => "return",
        _ => "other",
    }
}

/// What the statements of the last function were resolved to.
fn resolved(alloc: Global, unit: Unit, text: &[u8]) -> Result<String, Fail> {
    let typed = typed(alloc, unit, text)?;
    let mut said = String::from_str(alloc, "resolved")?;
    if let Some(last) = typed.program().funcs.as_slice().last() {
        for statement in last.body.as_slice() {
            said.push_str(" ")?;
            said.push_str(statement_word(statement))?;
        }
    }
    Ok(said)
}
