//! Formulas in postfix, as cases write them.

use std::alloc::AllocError;
use std::str;
use terms::{Fact, Node, NodeKind, Sym};

// A space, where something stands before it.
fn put_space(out: &mut String) -> Result<(), AllocError> {
    if out.is_empty() {
        Ok(())
    } else {
        out.push_str(" ")
    }
}

fn put_word(out: &mut String, word: &str) -> Result<(), AllocError> {
    put_space(out)?;
    out.push_str(word)
}

fn put_number(out: &mut String, number: i128) -> Result<(), AllocError> {
    put_space(out)?;
    write!(out, "{number}")
}

pub fn put_name(name: &Sym, out: &mut String) -> Result<(), AllocError> {
    put_word(out, str::from_utf8(name.base.as_bytes()).unwrap_or("?"))?;
    if name.count != 0 {
        write!(out, "{}", name.count)?;
    }
    Ok(())
}

fn put_node(node: &Node, out: &mut String) -> Result<(), AllocError> {
    match &node.kind {
        NodeKind::Num(number) => put_number(out, *number),
        NodeKind::Of(name) => put_name(name, out),
        NodeKind::Base(name) => put_name(name, out),
        NodeKind::Add => put_word(out, "+"),
        NodeKind::Sub => put_word(out, "-"),
        NodeKind::Mul => put_word(out, "*"),
        NodeKind::Div => put_word(out, "/"),
        NodeKind::Rem => put_word(out, "%"),
        NodeKind::Read => put_word(out, "[]"),
        NodeKind::Truth => put_word(out, "?"),
        NodeKind::Store => put_word(out, "[]="),
        NodeKind::True => put_word(out, "true"),
        NodeKind::False => put_word(out, "false"),
        NodeKind::Le => put_word(out, "<="),
        NodeKind::Eq => put_word(out, "="),
        NodeKind::Not => put_word(out, "!"),
        NodeKind::And => put_word(out, "&"),
        NodeKind::Or => put_word(out, "|"),
    }
}

pub fn put_nodes(nodes: &[Node], out: &mut String) -> Result<(), AllocError> {
    for node in nodes {
        put_node(node, out)?;
    }
    Ok(())
}

pub fn put_fact(fact: &Fact, out: &mut String) -> Result<(), AllocError> {
    match fact {
        Fact::Plain(form) => put_nodes(form.nodes(), out),
        Fact::All { var, lo, hi, body } => {
            put_name(var, out)?;
            put_word(out, ":")?;
            put_nodes(lo.nodes(), out)?;
            put_word(out, ":")?;
            put_nodes(hi.nodes(), out)?;
            put_word(out, ":")?;
            put_nodes(body.nodes(), out)
        }
    }
}
