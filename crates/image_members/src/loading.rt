//! The heap of user strings, filled with each text that the assembly's instructions load (ECMA-335
//! II.24.2.4, III.4.16).
ghost use Rattle.std.specs.Prelude.{◌≡◌, ◌+◌, ◌^◌, ◌≤◌, [], false, length, IfOk, OnOk};
ghost use Rattle.std.specs.List.{flat_map};
ghost use Rattle.assembly_tree.specs.Room.{operand_texts, instruction_texts, body_texts, method_texts, typedef_texts, texts};
ghost use Rattle.assembly_tree.specs.Weight.{weight_of};
ghost use Rattle.image_tokens.specs.Loaded.{AreLoaded, Loads, entry_sizes};

use assembly_tree::{Assembly, Ins, Method, Operand, TypeDef};
use heaps::UserHeap;
use il_base::NoMemory;
use image_tokens::user_texts::add_units;
use std::alloc::Global;

/// The heap with each text that the assembly loads. `loads` may be false only where it loads none: then no walk looks
/// for them.
pub fn load_texts(alloc: Global, a: &Assembly, loads: bool) -> Result<UserHeap, NoMemory>
    requires weight { weight_of a.now ≤ 2 ^ 26 }
    requires loads { loads ≡ false → texts a.now ≡ [] }
    ensures { IfOk result (λ user. AreLoaded user (texts a.now)) }
{
    let mut user = UserHeap::new(alloc)?;
    if !loads {
        return Ok(user);
    }
    load_methods(alloc, &mut user, a.methods.as_slice())?;
    load_types(alloc, &mut user, a.types.as_slice())?;
    Ok(user)
}

/// Loads the texts of types, with those that they nest.
fn load_types(alloc: Global, user: &mut UserHeap, types: &[TypeDef]) -> Result<(), NoMemory>
    requires { length user.old.bytes + entry_sizes (flat_map typedef_texts types.now) ≤ 2 ^ 26 }
    ensures { OnOk result (Loads user.old user.new (flat_map typedef_texts types.now)) }
{
    for of in types {
        load_methods(alloc, user, of.methods.as_slice())?;
        load_types(alloc, user, of.nested.as_slice())?;
    }
    Ok(())
}

/// Loads the texts of methods.
fn load_methods(alloc: Global, user: &mut UserHeap, methods: &[Method]) -> Result<(), NoMemory>
    requires { length user.old.bytes + entry_sizes (flat_map method_texts methods.now) ≤ 2 ^ 26 }
    ensures { OnOk result (Loads user.old user.new (flat_map method_texts methods.now)) }
{
    for method in methods {
        load_method(alloc, user, method)?;
    }
    Ok(())
}

fn load_method(alloc: Global, user: &mut UserHeap, method: &Method) -> Result<(), NoMemory>
    requires { length user.old.bytes + entry_sizes (method_texts method.now) ≤ 2 ^ 26 }
    ensures { OnOk result (Loads user.old user.new (method_texts method.now)) }
{
    match &method.body {
        None => Ok(()),
        Some(body) => load_code(alloc, user, body.code.as_slice()),
    }
}

/// Loads the texts of instructions.
fn load_code(alloc: Global, user: &mut UserHeap, code: &[Ins]) -> Result<(), NoMemory>
    requires { length user.old.bytes + entry_sizes (flat_map instruction_texts code.now) ≤ 2 ^ 26 }
    ensures { OnOk result (Loads user.old user.new (flat_map instruction_texts code.now)) }
{
    for ins in code {
        load_operand(alloc, user, &ins.operand)?;
    }
    Ok(())
}

fn load_operand(alloc: Global, user: &mut UserHeap, operand: &Operand) -> Result<(), NoMemory>
    requires { length user.old.bytes + entry_sizes (operand_texts operand.now) ≤ 2 ^ 26 }
    ensures { OnOk result (Loads user.old user.new (operand_texts operand.now)) }
{
    match operand {
        Operand::Text(units) => {
            add_units(alloc, user, units.get())?;
            Ok(())
        }
        Operand::Nothing
        | Operand::Var(_)
        | Operand::Int(_)
        | Operand::Real(_)
        | Operand::Target(_)
        | Operand::Targets(_)
        | Operand::Method(_)
        | Operand::Field(_)
        | Operand::Of(_) => Ok(()),
    }
}
