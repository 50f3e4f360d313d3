ghost use Rattle.std.specs.Prelude.{◌≡◌, ◌≤◌, ◌^◌, IfOk, length};
ghost use Rattle.method_states.specs.States.{AreStates};
ghost use Rattle.row_demands.specs.Structured.{MeetStructure};

use il_base::NoMemory;
use image_streams::Image;
use image_used::{Used, used_rows};
use method_states::{BodyState, MethodStates, look_at_bodies};
use row_groups::Outers;
use std::alloc::Global;
use std::marker::Model;
use type_names::TypeNames;

/// The types of an image: what encloses each, and numbers for the names of types and references.
#[derive(Drop)]
struct Types<'i, 'a> {
    outers: Outers<'i, 'a>,
    names: TypeNames<'i, 'a>,
}

/// The methods of an image: what is said of their bodies, and the rows of reference tables that are used.
#[derive(Drop)]
struct Methods<'i, 'a> {
    said: MethodStates,
    used: Used<'i, 'a>,
}

/// What is known of an image that meets I8 to I12 before its names are asked for: the types, what is said of the bodies of methods,
/// and the rows of reference tables in use. Contracts see the image's bytes.
#[derive(Drop)]
pub struct Survey<'i, 'a> {
    image: &'i Image<'a>,
    types: Types<'i, 'a>,
    methods: Methods<'i, 'a>,
}

impl<'i, 'a> Model for Survey<'i, 'a> {
    ghost use Rattle.std.specs.Prelude.{◌≡◌, ℕ, List};
    ghost use Rattle.method_states.specs.States.{AreStates};

    ghost Value = { List ℕ };

    ghost view = { λ it. it.image.now };

    ghost invariant = { λ it. (it.types.outers ≡ it.image.now) × (it.types.names.image ≡ it.image.now) × AreStates it.image.now it.methods.said.states × (it.methods.used ≡ it.image.now) };
}

impl<'i, 'a> Survey<'i, 'a> {
    /// Looks at the types, the bodies and the rows in use of an image, each once.
    ///
    /// # Errors
    ///
    /// There was no memory for what is known of them.
    pub fn new(alloc: Global, image: &'i Image<'a>) -> Result<Survey<'i, 'a>, NoMemory>
        requires small { length image.now ≤ 2 ^ 26 }
        requires meets { MeetStructure image.now }
        ensures { IfOk result (λ it. it ≡ image.now) }
    {
        let types = types_of(alloc, image)?;
        let methods = methods_of(alloc, image)?;
        Ok(Survey {
            image,
            types,
            methods,
        })
    }

    /// The image.
    pub fn image(&self) -> &'i Image<'a>
        ensures { result.now ≡ self.now }
    {
        self.image
    }

    /// The type that encloses each.
    pub fn outers(&self) -> &Outers<'i, 'a>
        ensures { result.now ≡ self.now }
    {
        &self.types.outers
    }

    /// The numbers of the names of types and references.
    pub fn names(&self) -> &TypeNames<'i, 'a>
        ensures { result.now.image ≡ self.now }
    {
        &self.types.names
    }

    /// What is said of the body of each method, by its row.
    pub fn states(&self) -> &[BodyState]
        ensures { AreStates self.now result.now }
    {
        self.methods.said.states.as_slice()
    }

    /// The rows of reference tables that are used.
    pub fn used(&self) -> &Used<'i, 'a>
        ensures { result.now ≡ self.now }
    {
        &self.methods.used
    }
}

/// The types of an image.
fn types_of<'i, 'a>(alloc: Global, image: &'i Image<'a>) -> Result<Types<'i, 'a>, NoMemory>
    requires small { length image.now ≤ 2 ^ 26 }
    requires meets { MeetStructure image.now }
    ensures outers { IfOk result (λ it. it.outers ≡ image.now) }
    ensures names { IfOk result (λ it. it.names.image ≡ image.now) }
{
    let outers = Outers::new(alloc, image)?;
    let names = TypeNames::new(alloc, image, &outers)?;
    Ok(Types { outers, names })
}

/// The methods of an image.
fn methods_of<'i, 'a>(alloc: Global, image: &'i Image<'a>) -> Result<Methods<'i, 'a>, NoMemory>
    ensures said { IfOk result (λ it. AreStates image.now it.said.states) }
    ensures used { IfOk result (λ it. it.used ≡ image.now) }
{
    let said = look_at_bodies(alloc, image)?;
    let used = used_rows(alloc, image, &said.named)?;
    Ok(Methods { said, used })
}
