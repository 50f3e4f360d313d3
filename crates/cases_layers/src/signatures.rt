//! Signatures, as they are read where no token names anything, and types in a pool (ECMA-335 II.23.2).

use crate::fault::Fault;
use crate::files::push_line;
use crate::nameless::Nameless;
use crate::values::{bytes_of, two};
use sig_codec::{decode_method, decode_type};
use sig_pool::SigPool;
use std::alloc::Global;
use type_terms::{MethodSig, SigType};

/// A pool of types.
#[derive(Drop)]
struct Pooled {
    pool: SigPool,
}

/// The answers to lines: whether bytes spell a type (`type BYTES`), what method they spell (`method BYTES`), or how many types the
/// pool has and whether two types have one id there (`intern BYTES, BYTES`).
pub fn push_answers(alloc: Global, out: &mut String, text: &str) -> Result<(), Fault> {
    let mut told = Pooled::new(alloc);
    told.push_lines(alloc, out, text)
}

impl Pooled {
    /// A pool without types.
    fn new(alloc: Global) -> Pooled {
        Pooled {
            pool: SigPool::new(alloc),
        }
    }

    fn push_lines(&mut self, alloc: Global, out: &mut String, text: &str) -> Result<(), Fault> {
        for line in text.lines() {
            if push_line(out, line)? {
                self.push_answer(alloc, out, line)?;
                out.push('\n')?;
            }
        }
        Ok(())
    }

    fn push_answer(&mut self, alloc: Global, out: &mut String, line: &str) -> Result<(), Fault> {
        match line.split_once(' ') {
            Some(("type", bytes)) => push_type(alloc, out, bytes_of(alloc, bytes)?.as_slice()),
            Some(("method", bytes)) => push_method(alloc, out, bytes_of(alloc, bytes)?.as_slice()),
            Some(("intern", rest)) => self.push_interned(alloc, out, rest),
            None if line == "type" => push_type(alloc, out, &[]),
            _ => Err(Fault::Meaningless),
        }
    }

    fn push_interned(&mut self, alloc: Global, out: &mut String, rest: &str) -> Result<(), Fault> {
        let Some((first, second)) = rest.split_once(", ") else {
            return Err(Fault::Meaningless);
        };
        let same = self.spells_alike(alloc, first, second)?;
        let count = self.pool.len();
        let one = if same { "one id" } else { "two ids" };
        write!(out, "{one}, {count} types")?;
        Ok(())
    }

    /// Whether the types that bytes spell have one id in the pool.
    fn spells_alike(&mut self, alloc: Global, first: &str, second: &str) -> Result<bool, Fault> {
        let (first, second) = pair(spelled(alloc, first), spelled(alloc, second))?;
        self.interns_alike(&first, &second)
    }

    fn interns_alike(&mut self, first: &SigType, second: &SigType) -> Result<bool, Fault> {
        let first = self.pool.intern(first)?;
        let second = self.pool.intern(second)?;
        Ok(self.pool.same(first, second))
    }
}

/// Both, or the first fault.
fn pair<A: Drop>(first: Result<A, Fault>, second: Result<A, Fault>) -> Result<(A, A), Fault> {
    let first = first?;
    let second = second?;
    Ok((first, second))
}

/// The type that bytes spell.
fn spelled(alloc: Global, bytes: &str) -> Result<SigType, Fault> {
    let bytes = bytes_of(alloc, bytes)?;
    match decode_type(alloc, bytes.as_slice(), &Nameless)? {
        Some(found) => Ok(found),
        None => Err(Fault::Meaningless),
    }
}

fn push_type(alloc: Global, out: &mut String, bytes: &[u8]) -> Result<(), Fault> {
    let answer = if spells_type(alloc, bytes)? {
        "a type"
    } else {
        "none"
    };
    out.push_str(answer)?;
    Ok(())
}

fn spells_type(alloc: Global, bytes: &[u8]) -> Result<bool, Fault> {
    let found = decode_type(alloc, bytes, &Nameless)?;
    Ok(found.is_some())
}

fn push_method(alloc: Global, out: &mut String, bytes: &[u8]) -> Result<(), Fault> {
    match decode_method(alloc, bytes, &Nameless)? {
        Some(sig) => push_sig(out, &sig),
        None => {
            out.push_str("none")?;
            Ok(())
        }
    }
}

fn push_sig(out: &mut String, sig: &MethodSig) -> Result<(), Fault> {
    let (this, explicit, vararg) = (sig.has_this, sig.explicit_this, sig.vararg);
    let (generic, count) = (sig.generic, sig.params.len());
    write!(
        out,
        "instance {this}, explicit {explicit}, vararg {vararg}, generic {generic}, {count} parameters:"
    )?;
    push_prim(out, &sig.ret)?;
    for of in sig.params.as_slice() {
        push_prim(out, of)?;
    }
    Ok(())
}

fn push_prim(out: &mut String, of: &SigType) -> Result<(), Fault> {
    match of {
        SigType::Prim(prim) => write!(out, " {prim:?}")?,
        _ => out.push_str(" another")?,
    }
    Ok(())
}
