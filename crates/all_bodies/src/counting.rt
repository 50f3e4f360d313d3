//! How much an assembly declares.
ghost use Rattle.std.specs.Prelude.{◌≡◌, ◌≤◌, ◌^◌, length};
ghost use Rattle.std.specs.List.{sum_by};
ghost use Rattle.assembly_tree.specs.Nesting.{types_in};
ghost use Rattle.assembly_tree.specs.Weight.{method_weight, typedef_weight, weight_of};
ghost use Rattle.assembly_tree.specs.declared.members.Method.{Method as TheMethod};
ghost use Rattle.code_flow.specs.Methods.{all_methods};
ghost use Rattle.all_bodies.specs.Counts.{bodies, bodies_in, class_count, instruction_count, instructions, instructions_in};

use assembly_tree::{Assembly, Body, Method, TypeDef};

/// How much an assembly declares.
#[derive(Debug, Clone, Copy, Drop)]
pub struct Counts {
    /// Its types, those that others nest included, without `<Module>`.
    pub classes: u64,
    /// Its methods with a body.
    pub methods: u64,
    /// The instructions in their bodies.
    pub instructions: u64,
}

/// How many types, methods with a body and instructions an assembly of weight at most 2^26 declares. Takes no memory.
pub fn count(a: &Assembly) -> Counts
    requires { weight_of a.now ≤ 2 ^ 26 }
    ensures classes { result.classes ≡ class_count a.now }
    ensures methods { result.methods ≡ length (all_methods a.now) }
    ensures instructions { result.instructions ≡ instruction_count a.now }
{
    let methods = a.methods.as_slice();
    let types = a.types.as_slice();
    let classes = classes_among(types);
    let outside = bodies_of(methods);
    let inside = bodies_among(types);
    let instructions_outside = instructions_of(methods);
    let instructions_inside = instructions_among(types);
    Counts {
        classes,
        methods: outside + inside,
        instructions: instructions_outside + instructions_inside,
    }
}

/// The number of these types and of those that they nest.
fn classes_among(types: &[TypeDef]) -> u64
    requires { sum_by typedef_weight types.now ≤ 2 ^ 26 }
    ensures { result ≡ sum_by types_in types.now }
{
    let mut count = 0;
    for of in types {
        let nested = of.nested.as_slice();
        let inside = classes_among(nested);
        count += 1 + inside;
    }
    count
}

/// The number of methods with a body in these types and in those that they nest.
fn bodies_among(types: &[TypeDef]) -> u64
    requires { sum_by typedef_weight types.now ≤ 2 ^ 26 }
    ensures { result ≡ sum_by bodies_in types.now }
{
    let mut count = 0;
    for of in types {
        let methods = of.methods.as_slice();
        let nested = of.nested.as_slice();
        let own = bodies_of(methods);
        let inside = bodies_among(nested);
        count += own + inside;
    }
    count
}

/// The number of instructions in the bodies of these types and of those that they nest.
fn instructions_among(types: &[TypeDef]) -> u64
    requires { sum_by typedef_weight types.now ≤ 2 ^ 26 }
    ensures { result ≡ sum_by instructions_in types.now }
{
    let mut count = 0;
    for of in types {
        let methods = of.methods.as_slice();
        let nested = of.nested.as_slice();
        let own = instructions_of(methods);
        let inside = instructions_among(nested);
        count += own + inside;
    }
    count
}

/// The number of these methods that have a body.
fn bodies_of(methods: &[Method]) -> u64
    requires { sum_by method_weight methods.now ≤ 2 ^ 26 }
    ensures { result ≡ sum_by (λ (m : TheMethod). bodies m.body) methods.now }
{
    let mut count = 0;
    for method in methods {
        let own = body_count(&method.body);
        count += own;
    }
    count
}

/// 1 where there is a body, and else 0.
fn body_count(body: &Option<Body>) -> u64
    ensures { result ≡ bodies body.now }
{
    match body {
        Some(_) => 1,
        None => 0,
    }
}

/// The number of instructions in the bodies of these methods.
fn instructions_of(methods: &[Method]) -> u64
    requires { sum_by method_weight methods.now ≤ 2 ^ 26 }
    ensures { result ≡ sum_by (λ (m : TheMethod). instructions m.body) methods.now }
{
    let mut count = 0;
    for method in methods {
        let own = code_length(&method.body);
        count += own;
    }
    count
}

/// The number of instructions of a body, where there is one.
fn code_length(body: &Option<Body>) -> u64
    ensures { result ≡ instructions body.now }
{
    match body {
        Some(body) => body.code.len() as u64,
        None => 0,
    }
}
