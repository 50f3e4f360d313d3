//! Fields with data: too little of it, or no stated size.

ghost use Rattle.source_nodes.specs.Walk.{IsForest};

use check_data::mapped_fields::{DataFaults, data_faults};
use check_names::class_rules::collect_classes;
use il_base::NoMemory;
use il_lexer::types::Tokens;
use il_lexer::{end_place, spans_of, tokens};
use ilasm_grammar::parse;
use source_model::derivations_are_forests;
use source_nodes::reader::Reader;
use source_syntax::name_lists::{Naming, collect};
use std::alloc::{AllocError, Global};
use std::test::Fail;

/// Sources, one a line. The label of the first field with more bytes than its data has the mark `~` before it, and that of the
/// first whose type has no stated size the mark `^`.
const CASES: &str = "\
    .field static int32 F at Q .data Q = int8[4]\n\
    .field static int32 F at ~Q .data Q = int8[3]\n\
    .field static int32 F at Q .data Q = { int8(1), int16(2), int8[1] }\n\
    .field static int64 F at ~Q .data Q = bytearray (01 02 03 04 05 06 07)\n\
    .field static native int F at ^Q .data Q = int8[9]\n\
    .field static string F at ^Q .data Q = int8[9]\n\
    .field static int32 F at Nowhere\n\
    .field static int32 F .field native int G .data Q = int8\n\
    .field static int32& F at ^Q .data Q = int8[9]\n\
    .field static int32[] F at ^Q .data Q = int8[9]\n\
    .field static int16 modopt(X) modreq(Y) F at Q .data Q = int8[2]\n\
    .field static int16 modopt(X) modreq(Y) F at ~Q .data Q = int8[1]\n\
    .field static int32 F at Q .data Q = int8[4] .data Q = int8[3]\n\
    .field static int32 F at ~Q .data Q = int8[3] .data Q = int8[4]\n\
    .field static int32 F at ~P .field static int32 G at Q .data P = int8[3] .data Q = int8[4]\n\
    .class S { .size 5 .field static valuetype S X at ~Q } .data Q = int8[4]\n\
    .class S { .size 5 .size 4 .field static valuetype S X at Q } .data Q = int8[4]\n\
    .class S { .size 0 .field static valuetype S X at ^Q } .data Q = int8[4]\n\
    .class S { .pack 1 .field static valuetype S X at ^Q } .data Q = int8[4]\n\
    .class S { .size 3 .field static class S X at ^Q } .data Q = int8[4]\n\
    .field static valuetype S X at Q .class S { .size 4 } .data Q = int8[4] .class S { .size 5 }\n\
    .field static valuetype S X at ~Q .class S { .size 5 } .data Q = int8[4] .class S { .size 4 }\n\
    .field static valuetype C/S X at Q .class S { .size 5 } .class C { .class S { .size 4 } } .data Q = int8[4]\n\
    .field static valuetype C/S X at ~Q .class S { .size 4 } .class C { .class S { .size 5 } } .data Q = int8[4]\n\
    .field static valuetype C/S X at ^Q .class S { .size 4 } .class C { .size 4 .class T { .size 4 } } .data Q = int8[4]\n\
    .assembly extern m { } .class S { .size 4 } .field static valuetype [m]S X at ^Q .data Q = int8[4]\n\
    .class S { .size 4 } .field static valuetype [m]S X at Q .data Q = int8[4]\n\
    .class S<T> { .size 4 } .field static valuetype S<int32> X at ^Q .data Q = int8[4]\n\
    .class A.S { .size 4 } .field static valuetype S X at ^Q .field static valuetype A.S Y at ~R .data Q = int8[4] .data R = int8\n\
    .class C { .class D { .data Q = int8[4] .field static int64 X at ~Q } }\n\
    .class S { .size 4294967295 .field static valuetype S X at ~Q } .data Q = int8[4]\n\
    .class S { .size 4294967296 .field static valuetype S X at Q } .data Q = int8[4]\n\
    .class S { .size 4294967295 .field static valuetype S X at Q } .data Q = int64[536870912]";

/// The places of the marked labels, in bytes of the source without marks; None where there is no mark.
#[derive(Clone, Copy, Debug, PartialEq, Eq)]
struct Places {
    short: Option<usize>,
    without_size: Option<usize>,
}

/// The source of a case, and the places that are marked in it.
fn read(alloc: Global, case: &str) -> Result<(String, Places), AllocError> {
    let mut source = String::new(alloc);
    let mut places = Places {
        short: None,
        without_size: None,
    };
    for c in case.chars() {
        match c {
            '~' => places.short = Some(source.len()),
            '^' => places.without_size = Some(source.len()),
            _ => source.push(c)?,
        }
    }
    Ok((source, places))
}

fn place_of(tokens: &Tokens, token: Option<u32>) -> Option<usize> {
    match token {
        Some(k) => match tokens.get(k as usize) {
            Some(found) => Some(found.start as usize),
            None => None,
        },
        None => None,
    }
}

/// The places that the rules find.
fn found(alloc: Global, source: &str) -> Result<Places, NoMemory> {
    let bytes = source.as_bytes();
    if bytes.len() > 1000 {
        return Err(NoMemory);
    }
    let Ok(tokens) = tokens(alloc, bytes) else {
        return Err(NoMemory);
    };
    let Ok(tree) = parse(alloc, &tokens, end_place(bytes)) else {
        return Err(NoMemory);
    };
    derivations_are_forests();
    let spans = spans_of(alloc, tokens.as_slice())?;
    let reader = Reader {
        source: bytes,
        spans: spans.as_slice(),
        nodes: tree.as_slice(),
    };
    let faults = faults_of(alloc, &reader)?;
    Ok(Places {
        short: place_of(&tokens, faults.short),
        without_size: place_of(&tokens, faults.without_size),
    })
}

fn faults_of(alloc: Global, reader: &Reader) -> Result<DataFaults, NoMemory>
    requires { IsForest reader.now.nodes.now }
{
    let externs = collect(alloc, reader, Naming::Assembly)?;
    let labels = collect(alloc, reader, Naming::Label)?;
    let classes = collect_classes(alloc, reader)?;
    data_faults(alloc, reader, &externs, &classes, &labels)
}

#[test]
fn fields_with_data(rt: HostRuntime) -> Result<(), Fail> {
    for case in CASES.lines() {
        let (source, places) = read(rt.alloc(), case)?;
        assert_eq!(rt; found(rt.alloc(), source.as_str())?, places, "at {case:?}");
    }
    Ok(())
}
