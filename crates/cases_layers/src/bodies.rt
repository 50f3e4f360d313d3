//! Bodies of methods, as they are read where no token names anything (ECMA-335 II.25.4).

use crate::fault::Fault;
use crate::nameless::Nameless;
use crate::values::{bytes_of, two};
use assembly_tree::{Body, Clause};
use body_codec::{BodyFault, decode, named_tokens};
use std::alloc::Global;

/// What the bytes of `body BYTES` are, or which tokens those of `tokens BYTES` name.
pub fn push_answer(alloc: Global, out: &mut String, line: &str) -> Result<(), Fault> {
    match line.split_once(' ') {
        Some(("body", bytes)) => push_body(alloc, out, bytes_of(alloc, bytes)?.as_slice()),
        Some(("tokens", bytes)) => push_tokens(alloc, out, bytes_of(alloc, bytes)?.as_slice()),
        None if line == "body" => push_body(alloc, out, &[]),
        _ => Err(Fault::Meaningless),
    }
}

fn push_fault(out: &mut String, fault: BodyFault) -> Result<(), Fault> {
    if fault == BodyFault::NoMemory {
        return Err(Fault::NoMemory);
    }
    write!(out, "{fault:?}")?;
    Ok(())
}

fn push_body(alloc: Global, out: &mut String, bytes: &[u8]) -> Result<(), Fault> {
    match decode(alloc, bytes, &Nameless) {
        Ok((body, size)) => push_parts(out, &body, size),
        Err(fault) => push_fault(out, fault),
    }
}

fn push_parts(out: &mut String, body: &Body, size: usize) -> Result<(), Fault> {
    let (bound, count) = (body.bound, body.code.len());
    write!(out, "{size} bytes, bound {bound}, {count} instructions")?;
    for clause in body.clauses.as_slice() {
        push_clause(out, clause)?;
    }
    Ok(())
}

fn push_clause(out: &mut String, clause: &Clause) -> Result<(), Fault> {
    write!(
        out,
        ", try {} to {} handler {} to {}",
        clause.try_start, clause.try_end, clause.handler_start, clause.handler_end
    )?;
    Ok(())
}

fn push_tokens(alloc: Global, out: &mut String, bytes: &[u8]) -> Result<(), Fault> {
    match named_tokens(alloc, bytes) {
        Ok(tokens) => {
            for token in tokens.as_slice() {
                write!(out, "{token:08X} ")?;
            }
            Ok(())
        }
        Err(fault) => push_fault(out, fault),
    }
}
