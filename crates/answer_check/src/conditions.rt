// Conditions from their words, which are in postfix form.

use crate::terms::term_of;
use check_lines::unknown_line;
use cube_val::{Items, TextVal};
use plain_answer::{Cond, Lit, Test};
use sqlite_items::Boxed;
use std::alloc::Global;
use std::io;

// A literal.
fn lit_of(alloc: Global, word: &str) -> io::Result<Lit> {
    if let Ok(number) = word.parse::<i128>() {
        return Ok(Lit::Number(number));
    }
    match TextVal::new(alloc, word.as_bytes()) {
        Ok(text) => Ok(Lit::Text(text)),
        Err(_) => Err(unknown_line()),
    }
}

// Literals with a colon between two.
fn lits_of(alloc: Global, words: &str) -> io::Result<Items<Lit>> {
    let mut lits = Items::new(alloc);
    for word in words.split(':') {
        let lit = lit_of(alloc, word)?;
        lits.push(lit)?;
    }
    Ok(lits)
}

// The comparison of this name.
fn comparison_of(name: &str) -> io::Result<Test> {
    match name {
        "eq" => Ok(Test::Eq),
        "ne" => Ok(Test::Ne),
        "lt" => Ok(Test::Lt),
        "le" => Ok(Test::Le),
        "gt" => Ok(Test::Gt),
        "ge" => Ok(Test::Ge),
        _ => Err(unknown_line()),
    }
}

// A test of a term with literals.
fn test_with(alloc: Global, name: &str, rest: &str) -> io::Result<Cond> {
    let Some((term, lits)) = rest.split_once(':') else {
        return Err(unknown_line());
    };
    let term = term_of(term)?;
    if name == "any" {
        return Ok(Cond::AnyOf(term, lits_of(alloc, lits)?));
    }
    let test = comparison_of(name)?;
    Ok(Cond::Compare(term, test, lit_of(alloc, lits)?))
}

// A test.
fn test_of(alloc: Global, word: &str) -> io::Result<Cond> {
    let Some((name, rest)) = word.split_once(':') else {
        return Err(unknown_line());
    };
    if name == "null" {
        return Ok(Cond::IsNull(term_of(rest)?));
    }
    test_with(alloc, name, rest)
}

// The last condition, in a box.
fn last_of(alloc: Global, stack: &mut Vec<Cond>) -> io::Result<Boxed<Cond>> {
    match stack.pop() {
        Some(condition) => Ok(Boxed::new(alloc, condition)?),
        None => Err(unknown_line()),
    }
}

// The contrary of the last condition in its place.
fn negate(alloc: Global, stack: &mut Vec<Cond>) -> io::Result<()> {
    let a = last_of(alloc, stack)?;
    stack.push(Cond::Not(a))?;
    Ok(())
}

// Both of the last two conditions in their place.
fn conjoin(alloc: Global, stack: &mut Vec<Cond>) -> io::Result<()> {
    let b = last_of(alloc, stack)?;
    let a = last_of(alloc, stack)?;
    stack.push(Cond::And(a, b))?;
    Ok(())
}

// One of the last two conditions in their place.
fn disjoin(alloc: Global, stack: &mut Vec<Cond>) -> io::Result<()> {
    let b = last_of(alloc, stack)?;
    let a = last_of(alloc, stack)?;
    stack.push(Cond::Or(a, b))?;
    Ok(())
}

// Adds a test.
fn add_test(alloc: Global, stack: &mut Vec<Cond>, word: &str) -> io::Result<()> {
    let test = test_of(alloc, word)?;
    stack.push(test)?;
    Ok(())
}

// What a word does to the conditions before it.
fn put_word(alloc: Global, stack: &mut Vec<Cond>, word: &str) -> io::Result<()> {
    match word {
        "not" => negate(alloc, stack),
        "and" => conjoin(alloc, stack),
        "or" => disjoin(alloc, stack),
        _ => add_test(alloc, stack, word),
    }
}

/// The condition that the words write in postfix form.
pub(crate) fn condition_of(alloc: Global, words: &str) -> io::Result<Cond> {
    let mut stack = Vec::new(alloc);
    for word in words.split(' ') {
        put_word(alloc, &mut stack, word)?;
    }
    if stack.len() > 1 {
        return Err(unknown_line());
    }
    match stack.pop() {
        Some(condition) => Ok(condition),
        None => Err(unknown_line()),
    }
}
