ghost use Rattle.std.specs.Prelude.{◌≡◌, ◌≤◌, ◌<◌, ◌↔◌, ◌⊎◌, ℕ, IsTrue, IfOk, Some, false};
ghost use Rattle.image_model.specs.Rows.{count_of, HasRow};
ghost use Rattle.image_model.specs.Structure.{HasScopes};
ghost use Rattle.image_model.specs.Streams.{strings_of};
ghost use Rattle.metadata_tables.specs.Faults.{IsEarlier};
ghost use Rattle.row_demands.specs.Structured.{MeetStructure};
ghost use Rattle.distinct_members.specs.Signed.{CanTell, TellFacts};
ghost use Rattle.distinct_members.specs.Twice.{AreTwins, TypesTwice, FieldsTwice, MethodsTwice, EventsTwice, PropertiesTwice};

use crate::kinds::{Events, Fields, Methods, Properties};
use crate::likeness::Members;
use crate::types::Types;
use demand_search::Demand;
use il_base::NoMemory;
use image_model::tokens_name_one_thing;
use image_streams::Image;
use name_numbers::TextHashes;
use row_twins::first_twin;
use signature_equality::Numbering;
use signature_facts::Owners;
use std::alloc::Global;
use std::marker::Model;
use type_names::TypeNames;

/// Of each table the first row that stands twice, where there is one.
#[derive(Clone, Copy)]
pub(crate) struct Twins {
    pub(crate) types: Option<u32>,
    pub(crate) fields: Option<u32>,
    pub(crate) methods: Option<u32>,
    pub(crate) events: Option<u32>,
    pub(crate) properties: Option<u32>,
}

/// No type and no member stands twice (I15): types by their paths; fields, methods and properties of a type by name and signature;
/// its events by name (II.22.15, II.22.26, II.22.37).
#[derive(Drop)]
pub struct DistinctMembers<'i, 'a> {
    image: &'i Image<'a>,
    twins: Twins,
}

impl<'i, 'a> Model for DistinctMembers<'i, 'a> {
    ghost use Rattle.std.specs.Prelude.{ℕ, List};
    ghost use Rattle.distinct_members.specs.Twice.{AreTwins};

    ghost Value = { List ℕ };

    ghost view = { λ it. it.image.now };

    ghost invariant = { λ it. AreTwins it.image.now it.twins };
}

impl<'i, 'a> DistinctMembers<'i, 'a> {
    /// The demand on an image that meets I1 to I14, by the numbers of its types, the hashes of its texts, facts of what its tokens
    /// name, and a test that tells tokens that name the same. Each type and member is looked at once, and compared with those that
    /// have its hash.
    ///
    /// # Errors
    ///
    /// There was no memory for the hashes.
    pub fn new<O: Owners, N: Numbering>(
        alloc: Global,
        image: &'i Image<'a>,
        names: &TypeNames<'_, 'a>,
        texts: &TextHashes<'_>,
        facts: &O,
        numbers: &N,
    ) -> Result<DistinctMembers<'i, 'a>, NoMemory>
        requires same { names.now.image ≡ image.now }
        requires texts { texts.now ≡ strings_of image.now }
        requires meets { MeetStructure image.now }
        requires scopes { (table row : ℕ) → HasScopes image.now table row }
        requires tells { CanTell image.now (N.canon numbers.now) }
        requires facts { TellFacts image.now (O.facts facts.now) }
        ensures { IfOk result (λ it. it ≡ image.now) }
    {
        tokens_name_one_thing();
        let types = types_twice(alloc, image, names)?;
        let fields = fields_twice(alloc, image, texts, facts, numbers)?;
        let methods = methods_twice(alloc, image, texts, facts, numbers)?;
        let events = events_twice(alloc, image, texts)?;
        let properties = properties_twice(alloc, image, texts, facts, numbers)?;
        let twins = Twins {
            types,
            fields,
            methods,
            events,
            properties,
        };
        Ok(DistinctMembers { image, twins })
    }
}

/// The first type that stands twice.
fn types_twice(
    alloc: Global,
    image: &Image<'_>,
    names: &TypeNames<'_, '_>,
) -> Result<Option<u32>, NoMemory>
    requires same { names.now.image ≡ image.now }
    requires meets { MeetStructure image.now }
    requires scopes { (table row : ℕ) → HasScopes image.now table row }
    ensures { IfOk result (TypesTwice image.now) }
{
    let types = Types { image, names };
    first_twin(alloc, &types)
}

/// The first field that stands twice.
fn fields_twice<O: Owners, N: Numbering>(
    alloc: Global,
    image: &Image<'_>,
    texts: &TextHashes<'_>,
    facts: &O,
    numbers: &N,
) -> Result<Option<u32>, NoMemory>
    requires texts { texts.now ≡ strings_of image.now }
    requires meets { MeetStructure image.now }
    requires tells { CanTell image.now (N.canon numbers.now) }
    requires facts { TellFacts image.now (O.facts facts.now) }
    ensures { IfOk result (FieldsTwice image.now) }
{
    let kind = Fields {
        image,
        facts,
        numbers,
    };
    let members = Members { kind: &kind, texts };
    first_twin(alloc, &members)
}

/// The first method that stands twice.
fn methods_twice<O: Owners, N: Numbering>(
    alloc: Global,
    image: &Image<'_>,
    texts: &TextHashes<'_>,
    facts: &O,
    numbers: &N,
) -> Result<Option<u32>, NoMemory>
    requires texts { texts.now ≡ strings_of image.now }
    requires meets { MeetStructure image.now }
    requires tells { CanTell image.now (N.canon numbers.now) }
    requires facts { TellFacts image.now (O.facts facts.now) }
    ensures { IfOk result (MethodsTwice image.now) }
{
    let kind = Methods {
        image,
        facts,
        numbers,
    };
    let members = Members { kind: &kind, texts };
    first_twin(alloc, &members)
}

/// The first property that stands twice.
fn properties_twice<O: Owners, N: Numbering>(
    alloc: Global,
    image: &Image<'_>,
    texts: &TextHashes<'_>,
    facts: &O,
    numbers: &N,
) -> Result<Option<u32>, NoMemory>
    requires texts { texts.now ≡ strings_of image.now }
    requires meets { MeetStructure image.now }
    requires tells { CanTell image.now (N.canon numbers.now) }
    requires facts { TellFacts image.now (O.facts facts.now) }
    ensures { IfOk result (PropertiesTwice image.now) }
{
    let kind = Properties {
        image,
        facts,
        numbers,
    };
    let members = Members { kind: &kind, texts };
    first_twin(alloc, &members)
}

/// The first event that stands twice.
fn events_twice(
    alloc: Global,
    image: &Image<'_>,
    texts: &TextHashes<'_>,
) -> Result<Option<u32>, NoMemory>
    requires texts { texts.now ≡ strings_of image.now }
    requires meets { MeetStructure image.now }
    ensures { IfOk result (EventsTwice image.now) }
{
    let kind = Events { image };
    let members = Members { kind: &kind, texts };
    first_twin(alloc, &members)
}

impl<'i, 'a> Demand for DistinctMembers<'i, 'a> {
    ghost use Rattle.image_model.specs.Rows.{count_of};
    ghost use Rattle.distinct_members.specs.Twice.{AreDistinctByNames};

    ghost meets = { λ it table row. AreDistinctByNames it table row };

    ghost rows = { λ it table. count_of it table };

    fn asks(&self, table: u8) -> bool {
        matches!(table, 0x02 | 0x04 | 0x06 | 0x14 | 0x17)
    }

    fn count(&self, table: u8) -> u32 {
        self.image.tables().rows(table)
    }

    fn row_meets(&self, table: u8, row: u32) -> bool {
        match table {
            0x02 => is_other(self.twins.types, row),
            0x04 => is_other(self.twins.fields, row),
            0x06 => is_other(self.twins.methods, row),
            0x14 => is_other(self.twins.events, row),
            0x17 => is_other(self.twins.properties, row),
            _ => true,
        }
    }

    fn others_meet(&self) {
        rows_stand_in_tables(self.image);
    }
}

/// Whether a row isn't the one that stands twice.
fn is_other(twin: Option<u32>, row: u32) -> bool
    ensures { IsTrue result ↔ (twin ≡ Some row → ⊥) }
{
    match twin {
        Some(twin) => twin != row,
        None => true,
    }
}

/// A law: rows stand in the tables of the profile alone, and there up to their number.
fn rows_stand_in_tables(image: &Image<'_>)
    ensures { (table row : ℕ) → (45 ≤ table) ⊎ (count_of image.now table < row) → HasRow image.now table row → ⊥ }
{
    let _tables = image.tables();
}
