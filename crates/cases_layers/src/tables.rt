//! Streams of tables as they open, and coded indexes (ECMA-335 II.24.2.6).

use crate::fault::Fault;
use crate::values::{bytes_of, number8, number32, two};
use metadata_tables::{Coded, TableView, pack_coded, unpack_coded};
use std::alloc::Global;

/// How the stream `open BYTES` opens; the index that `pack KIND TABLE ROW` is spelled by, or the row that `unpack KIND INDEX` names.
pub fn push_answer(alloc: Global, out: &mut String, line: &str) -> Result<(), Fault> {
    match two(line)? {
        ("open", bytes) => push_opened(out, bytes_of(alloc, bytes)?.as_slice()),
        ("pack", rest) => push_packed(out, rest),
        ("unpack", rest) => push_unpacked(out, rest),
        _ => Err(Fault::Meaningless),
    }
}

fn push_opened(out: &mut String, stream: &[u8]) -> Result<(), Fault> {
    match TableView::open(stream) {
        Ok(_) => out.push_str("ok")?,
        Err(fault) => write!(
            out,
            "I{} at table {:02X} row {}",
            fault.rule, fault.table, fault.row
        )?,
    }
    Ok(())
}

fn coded(name: &str) -> Result<Coded, Fault> {
    match name {
        "TypeDefOrRef" => Ok(Coded::TypeDefOrRef),
        "HasConstant" => Ok(Coded::HasConstant),
        "HasCustomAttribute" => Ok(Coded::HasCustomAttribute),
        "MemberRefParent" => Ok(Coded::MemberRefParent),
        "HasSemantics" => Ok(Coded::HasSemantics),
        "MethodDefOrRef" => Ok(Coded::MethodDefOrRef),
        "CustomAttributeType" => Ok(Coded::CustomAttributeType),
        "ResolutionScope" => Ok(Coded::ResolutionScope),
        "TypeOrMethodDef" => Ok(Coded::TypeOrMethodDef),
        _ => Err(Fault::Meaningless),
    }
}

fn push_packed(out: &mut String, rest: &str) -> Result<(), Fault> {
    let (kind, rest) = two(rest)?;
    let (table, row) = two(rest)?;
    let (kind, table, row) = (coded(kind)?, number8(table)?, number32(row)?);
    if row > 0xFF_FFFF {
        return Err(Fault::Meaningless);
    }
    match pack_coded(kind, table, row) {
        Some(index) => write!(out, "{index}")?,
        None => out.push_str("none")?,
    }
    Ok(())
}

fn push_unpacked(out: &mut String, rest: &str) -> Result<(), Fault> {
    let (kind, index) = two(rest)?;
    match unpack_coded(coded(kind)?, number32(index)?) {
        Some((table, row)) => write!(out, "table {table:02X} row {row}")?,
        None => out.push_str("none")?,
    }
    Ok(())
}
