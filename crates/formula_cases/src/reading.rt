//! Formulas are written in postfix: `x 1 + A i [] <=` is `x + 1 <= A[i]`. Arrays have capital letters,
//! and a name's count is its last digit.

use crate::case_error::CaseError;
use crate::halves;
use c_lang::Name;
use std::alloc::Global;
use terms::{ArrayTerm, Fact, Form, Sym, Term};

/// What was read and is not yet part of something larger.
#[derive(Drop)]
struct Stacks {
    alloc: Global,
    terms: Vec<Term>,
    arrays: Vec<ArrayTerm>,
    forms: Vec<Form>,
}

/// A name, as `x`, or `x2` with the count 2.
pub fn symbol(alloc: Global, word: &str) -> Result<Sym, CaseError> {
    let base = word.trim_end_matches(|c: char| c.is_ascii_digit());
    let count = word.strip_prefix(base).unwrap_or("");
    Ok(Sym {
        base: Name::new(alloc, base.as_bytes())?,
        count: count.parse::<u32>().unwrap_or(0),
    })
}

impl Stacks {
    fn new(alloc: Global) -> Stacks {
        Stacks {
            alloc,
            terms: Vec::new(alloc),
            arrays: Vec::new(alloc),
            forms: Vec::new(alloc),
        }
    }

    fn term(&mut self) -> Result<Term, CaseError> {
        self.terms.pop().ok_or(CaseError::Malformed)
    }

    fn array(&mut self) -> Result<ArrayTerm, CaseError> {
        self.arrays.pop().ok_or(CaseError::Malformed)
    }

    fn form(&mut self) -> Result<Form, CaseError> {
        self.forms.pop().ok_or(CaseError::Malformed)
    }

    fn operation(&mut self, word: &str) -> Result<Term, CaseError> {
        let right = self.term()?;
        let left = self.term()?;
        let made = match word {
            "+" => Term::add(left, right),
            "-" => Term::sub(left, right),
            "*" => Term::mul(left, right),
            "/" => Term::div(left, right),
            _ => Term::rem(left, right),
        };
        Ok(made?)
    }

    fn element(&mut self) -> Result<Term, CaseError> {
        let index = self.term()?;
        let array = self.array()?;
        Ok(Term::read(array, index)?)
    }

    fn truth(&mut self) -> Result<Term, CaseError> {
        let form = self.form()?;
        Ok(Term::truth(form)?)
    }

    fn store(&mut self) -> Result<ArrayTerm, CaseError> {
        let value = self.term()?;
        let index = self.term()?;
        let array = self.array()?;
        Ok(ArrayTerm::store(array, index, value)?)
    }

    fn comparison(&mut self, word: &str) -> Result<Form, CaseError> {
        let right = self.term()?;
        let left = self.term()?;
        let made = match word {
            "=" => Form::equal(left, right),
            _ => Form::at_most(left, right),
        };
        Ok(made?)
    }

    fn junction(&mut self, word: &str) -> Result<Form, CaseError> {
        let right = self.form()?;
        let left = self.form()?;
        let made = match word {
            "&" => Form::both(left, right),
            _ => Form::either(left, right),
        };
        Ok(made?)
    }

    fn negation(&mut self) -> Result<Form, CaseError> {
        let form = self.form()?;
        Ok(Form::denied(form)?)
    }

    // A number, or a name of a number or an array.
    fn read_leaf(&mut self, word: &str) -> Result<(), CaseError> {
        if let Ok(number) = word.parse::<i128>() {
            self.terms.push(Term::number(self.alloc, number)?)?;
            return Ok(());
        }
        let name = symbol(self.alloc, word)?;
        if word.starts_with(|c: char| c.is_ascii_uppercase()) {
            self.arrays.push(ArrayTerm::base(self.alloc, name)?)?;
        } else {
            self.terms.push(Term::name(self.alloc, name)?)?;
        }
        Ok(())
    }

    fn read_term(&mut self, word: &str) -> Result<(), CaseError> {
        let made = match word {
            "[]" => self.element()?,
            "?" => self.truth()?,
            _ => self.operation(word)?,
        };
        Ok(self.terms.push(made)?)
    }

    fn read_array(&mut self) -> Result<(), CaseError> {
        let made = self.store()?;
        Ok(self.arrays.push(made)?)
    }

    fn read_form(&mut self, word: &str) -> Result<(), CaseError> {
        let made = match word {
            "true" => Form::always(self.alloc)?,
            "false" => Form::never(self.alloc)?,
            "!" => self.negation()?,
            "<=" | "=" => self.comparison(word)?,
            _ => self.junction(word)?,
        };
        Ok(self.forms.push(made)?)
    }

    fn read(&mut self, text: &str) -> Result<(), CaseError> {
        for word in text.split_whitespace() {
            match word {
                "+" | "-" | "*" | "/" | "%" | "[]" | "?" => self.read_term(word)?,
                "[]=" => self.read_array()?,
                "true" | "false" | "!" | "<=" | "=" | "&" | "|" => self.read_form(word)?,
                _ => self.read_leaf(word)?,
            }
        }
        Ok(())
    }
}

pub fn term(alloc: Global, text: &str) -> Result<Term, CaseError> {
    let mut stacks = Stacks::new(alloc);
    stacks.read(text)?;
    stacks.term()
}

pub fn array(alloc: Global, text: &str) -> Result<ArrayTerm, CaseError> {
    let mut stacks = Stacks::new(alloc);
    stacks.read(text)?;
    stacks.array()
}

pub fn form(alloc: Global, text: &str) -> Result<Form, CaseError> {
    let mut stacks = Stacks::new(alloc);
    stacks.read(text)?;
    stacks.form()
}

/// A form, or a fact about a range by its parts: `k : 0 : x : A k [] x <=`.
pub fn fact(alloc: Global, text: &str) -> Result<Fact, CaseError> {
    let (name, range) = halves(text);
    if range.is_empty() {
        return Ok(Fact::Plain(form(alloc, text)?));
    }
    let (low, rest) = halves(range);
    let (high, body) = halves(rest);
    let var = symbol(alloc, name)?;
    let lo = term(alloc, low)?;
    let hi = term(alloc, high)?;
    let body = form(alloc, body)?;
    Ok(Fact::All { var, lo, hi, body })
}
