ghost use Rattle.std.specs.Prelude.{◌≡◌, ◌||◌};
ghost use Rattle.std.specs.List.{flat_map};
ghost use Rattle.assembly_tree.specs.Loading.{has_text};
ghost use Rattle.assembly_tree.specs.Room.{instruction_texts, method_texts};

use crate::{Ins, Method, Operand};

/// Whether instructions load a text, or it is known that others do.
pub fn load_more(known: bool, methods: &[Method]) -> bool
    ensures { result ≡ (known || has_text (flat_map method_texts methods.now)) }
{
    known || methods_load(methods)
}

/// Whether instructions of these methods load a text.
fn methods_load(methods: &[Method]) -> bool
    ensures { result ≡ has_text (flat_map method_texts methods.now) }
{
    for method in methods {
        if method_loads(method) {
            return true;
        }
    }
    false
}

fn method_loads(method: &Method) -> bool
    ensures { result ≡ has_text (method_texts method.now) }
{
    match &method.body {
        None => false,
        Some(body) => code_loads(body.code.as_slice()),
    }
}

/// Whether any of these instructions loads a text.
fn code_loads(code: &[Ins]) -> bool
    ensures { result ≡ has_text (flat_map instruction_texts code.now) }
{
    for ins in code {
        if is_load(ins) {
            return true;
        }
    }
    false
}

#[tactic(auto, unfolding(crate::specs::Room::instruction_texts))]
fn is_load(ins: &Ins) -> bool
    ensures { result ≡ has_text (instruction_texts ins.now) }
{
    match &ins.operand {
        Operand::Text(_) => true,
        Operand::Nothing
        | Operand::Var(_)
        | Operand::Int(_)
        | Operand::Real(_)
        | Operand::Target(_)
        | Operand::Targets(_)
        | Operand::Method(_)
        | Operand::Field(_)
        | Operand::Of(_) => false,
    }
}
