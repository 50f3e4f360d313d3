ghost use Rattle.std.specs.Prelude.{◌≡◌, ◌^◌, ◌+◌, min, List, IfOk, slice_index};
ghost use Rattle.image_model.specs.Rows.{HasRow};
ghost use Rattle.row_weights.specs.Rows.{AreKnown, known, MethodTold, FieldTold, GenericTold, generic_in, TellRows, TellMethods, method_told};

use crate::Members;
use il_base::NoMemory;
use metadata_tables::{Coded, unpack_coded};
use signature_facts::Owners;
use std::alloc::Global;

/// The greatest number that is told of a weight.
const MOST: u64 = 1 << 27;

/// What the rows of MethodDef, MemberRef and MethodSpec weigh as references; 2^27 stands for that and more.
#[derive(Drop)]
pub struct MethodWeights {
    // By rows; those of row 0 count for nothing.
    methods: Vec<u32>,
    members: Vec<u32>,
    instances: Vec<u32>,
}

impl MethodWeights {
    /// The weights of all rows, each found once.
    ///
    /// # Errors
    ///
    /// There was no memory for them.
    pub fn new<O: Owners>(
        alloc: Global,
        given: &Members<'_, '_, O>,
    ) -> Result<MethodWeights, NoMemory>
        requires { AreKnown (known given.now.image.now given.now.names.now.weights (O.facts given.now.signatures.now.owners.now)) }
        ensures { IfOk result (TellMethods given.now.image.now) }
    {
        let methods = methods_of(alloc, given)?;
        let members = members_of(alloc, given)?;
        let instances = instances_of(alloc, given, methods.as_slice(), members.as_slice())?;
        Ok(MethodWeights {
            methods,
            members,
            instances,
        })
    }

    /// What the method or the MemberRef that a token names weighs.
    #[tactic(auto, unfolding(crate::specs::Rows::method_told))]
    pub fn of(&self, token: u64) -> u32
        ensures { result ≡ method_told self.now token }
    {
        let row = token % 0x100_0000;
        match token / 0x100_0000 {
            0x06 => at(&self.methods, row),
            0x0A => at(&self.members, row),
            0x2B => at(&self.instances, row),
            _ => 0,
        }
    }
}

/// The weight at a row, or 0.
fn at(weights: &[u32], row: u64) -> u32
    ensures { result ≡ slice_index weights.now row }
{
    match weights.get(row as usize) {
        Some(weight) => *weight,
        None => 0,
    }
}

/// A weight, or 2^27 where it is more.
fn told(weight: u64) -> u32
    ensures { result ≡ min weight (2 ^ 27) }
{
    weight.min(MOST) as u32
}

/// The weights of the rows of MethodDef.
fn methods_of<O: Owners>(alloc: Global, given: &Members<'_, '_, O>) -> Result<Vec<u32>, NoMemory>
    requires { AreKnown (known given.now.image.now given.now.names.now.weights (O.facts given.now.signatures.now.owners.now)) }
    ensures { IfOk result (λ weights. TellRows given.now.image.now 0x06 (MethodTold given.now.image.now 0x06) weights.items) }
{
    let count = given.image.tables().rows(0x06);
    let mut weights = Vec::from_elem(alloc, 0, count as usize + 1)?;
    for row in 0..count {
        weights[row as usize + 1] = told(given.method(row + 1));
    }
    Ok(weights)
}

/// The weights of the rows of MemberRef.
fn members_of<O: Owners>(alloc: Global, given: &Members<'_, '_, O>) -> Result<Vec<u32>, NoMemory>
    requires { AreKnown (known given.now.image.now given.now.names.now.weights (O.facts given.now.signatures.now.owners.now)) }
    ensures methods { IfOk result (λ weights. TellRows given.now.image.now 0x0A (MethodTold given.now.image.now 0x0A) weights.items) }
    ensures fields { IfOk result (λ weights. TellRows given.now.image.now 0x0A (FieldTold given.now.image.now 0x0A) weights.items) }
{
    let count = given.image.tables().rows(0x0A);
    let mut weights = Vec::from_elem(alloc, 0, count as usize + 1)?;
    for row in 0..count {
        weights[row as usize + 1] = told(given.member(row + 1));
    }
    Ok(weights)
}

/// The weights of the rows of MethodSpec.
fn instances_of<O: Owners>(
    alloc: Global,
    given: &Members<'_, '_, O>,
    methods: &[u32],
    members: &[u32],
) -> Result<Vec<u32>, NoMemory>
    requires known { AreKnown (known given.now.image.now given.now.names.now.weights (O.facts given.now.signatures.now.owners.now)) }
    requires methods { TellRows given.now.image.now 0x06 (MethodTold given.now.image.now 0x06) methods.now }
    requires members { TellRows given.now.image.now 0x0A (MethodTold given.now.image.now 0x0A) members.now }
    ensures { IfOk result (λ weights. TellRows given.now.image.now 0x2B (MethodTold given.now.image.now 0x2B) weights.items) }
{
    let count = given.image.tables().rows(0x2B);
    let mut weights = Vec::from_elem(alloc, 0, count as usize + 1)?;
    for row in 0..count {
        weights[row as usize + 1] = told(instance(given, methods, members, row + 1));
    }
    Ok(weights)
}

/// What a row of MethodSpec weighs: its method and the arguments (II.22.29).
fn instance<O: Owners>(
    given: &Members<'_, '_, O>,
    methods: &[u32],
    members: &[u32],
    row: u32,
) -> u64
    requires there { HasRow given.now.image.now 0x2B row }
    requires known { AreKnown (known given.now.image.now given.now.names.now.weights (O.facts given.now.signatures.now.owners.now)) }
    requires methods { TellRows given.now.image.now 0x06 (MethodTold given.now.image.now 0x06) methods.now }
    requires members { TellRows given.now.image.now 0x0A (MethodTold given.now.image.now 0x0A) members.now }
    ensures { MethodTold given.now.image.now 0x2B row result }
{
    let generic = generic_of(given, methods, members, row);
    u64::from(generic) + u64::from(given.arguments(row))
}

/// What the method of a MethodSpec weighs without arguments.
#[tactic(auto, unfolding(metadata_tables::specs::Schema::schema))]
fn generic_of<O: Owners>(
    given: &Members<'_, '_, O>,
    methods: &[u32],
    members: &[u32],
    row: u32,
) -> u32
    requires there { HasRow given.now.image.now 0x2B row }
    requires known { AreKnown (known given.now.image.now given.now.names.now.weights (O.facts given.now.signatures.now.owners.now)) }
    requires methods { TellRows given.now.image.now 0x06 (MethodTold given.now.image.now 0x06) methods.now }
    requires members { TellRows given.now.image.now 0x0A (MethodTold given.now.image.now 0x0A) members.now }
    ensures { GenericTold given.now.image.now row result }
{
    let method = given.image.tables().cell(0x2B, row, 0);
    match unpack_coded(Coded::MethodDefOrRef, method) {
        Some((table, row)) => generic_at(methods, members, table, row),
        None => 0,
    }
}

/// What a row of MethodDef, or else of MemberRef, weighs.
fn generic_at(methods: &[u32], members: &[u32], table: u8, row: u32) -> u32
    ensures { result ≡ generic_in methods.now members.now table row }
{
    if table == 0x06 {
        at(methods, u64::from(row))
    } else {
        at(members, u64::from(row))
    }
}
