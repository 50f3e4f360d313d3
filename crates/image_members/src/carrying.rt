//! What rows carry beside their cells: attributes, generic parameters, constants and accessors, whose rows
//! name them as their parent, owner or association (ECMA-335 II.22.9, II.22.10, II.22.20, II.22.28).
ghost use Rattle.std.specs.Prelude.{◌≡◌, ◌∷◌, [], ◌++◌, map, IfOk, OnOk};
ghost use Rattle.image_members.specs.Lists.{type_attributes, type_generics};
ghost use Rattle.image_members.specs.Places.{lent};

use assembly_tree::{
    Accessors, Attributes, Constant, Event, Field, Generic, Generics, Method, Param, Property,
    TypeDef,
};
use il_base::{Items, NoMemory};
use std::alloc::Global;

/// What carries a value of this kind.
pub trait Carries<P> {
    /// The value that it carries.
    ghost value_of: { Self → P };

    /// The value that it carries.
    fn carried(&self) -> &P
        ensures { result.now ≡ value_of self.now };
}

/// What each of these carries, in their order.
pub fn all_carried<'a, P, T: Carries<P>>(
    alloc: Global,
    carriers: &[&'a T],
) -> Result<Items<&'a P>, NoMemory>
    ensures { IfOk result (λ all. lent all ≡ map T.value_of (lent carriers.now)) }
{
    let mut all = Items::with_capacity(alloc, carriers.len())?;
    add_carried(&mut all, carriers)?;
    Ok(all)
}

/// The first value, and then what each of these carries, in their order.
pub fn carried_after<'a, P, T: Carries<P>>(
    alloc: Global,
    first: &'a P,
    carriers: &[&'a T],
) -> Result<Items<&'a P>, NoMemory>
    ensures { IfOk result (λ all. lent all ≡ first.now ∷ map T.value_of (lent carriers.now)) }
{
    let mut all = Items::with_capacity(alloc, carriers.len().saturating_add(1))?;
    all.push(first)?;
    add_carried(&mut all, carriers)?;
    Ok(all)
}

/// Adds what each of these carries, in their order.
fn add_carried<'a, P, T: Carries<P>>(
    all: &mut Items<&'a P>,
    carriers: &[&'a T],
) -> Result<(), NoMemory>
    ensures { OnOk result (lent all.new ≡ lent all.old ++ map T.value_of (lent carriers.now)) }
{
    for carrier in carriers {
        all.push(carrier.carried())?;
    }
    Ok(())
}

impl Carries<Attributes> for TypeDef {
    ghost value_of = { type_attributes };

    fn carried(&self) -> &Attributes {
        &self.attributes
    }
}

impl Carries<Attributes> for Field {
    ghost value_of = { λ f. f.attributes };

    fn carried(&self) -> &Attributes {
        &self.attributes
    }
}

impl Carries<Attributes> for Method {
    ghost value_of = { λ m. m.attributes };

    fn carried(&self) -> &Attributes {
        &self.attributes
    }
}

impl Carries<Attributes> for Param {
    ghost value_of = { λ p. p.attributes };

    fn carried(&self) -> &Attributes {
        &self.attributes
    }
}

impl Carries<Attributes> for Property {
    ghost value_of = { λ p. p.attributes };

    fn carried(&self) -> &Attributes {
        &self.attributes
    }
}

impl Carries<Attributes> for Event {
    ghost value_of = { λ e. e.attributes };

    fn carried(&self) -> &Attributes {
        &self.attributes
    }
}

impl Carries<Attributes> for Generic {
    ghost value_of = { λ g. g.attributes };

    fn carried(&self) -> &Attributes {
        &self.attributes
    }
}

impl Carries<Generics> for TypeDef {
    ghost value_of = { type_generics };

    fn carried(&self) -> &Generics {
        &self.generics
    }
}

impl Carries<Generics> for Method {
    ghost value_of = { λ m. m.generics };

    fn carried(&self) -> &Generics {
        &self.generics
    }
}

impl Carries<Option<Constant>> for Field {
    ghost value_of = { λ f. f.constant };

    fn carried(&self) -> &Option<Constant> {
        &self.constant
    }
}

impl Carries<Option<Constant>> for Param {
    ghost value_of = { λ p. p.constant };

    fn carried(&self) -> &Option<Constant> {
        &self.constant
    }
}

impl Carries<Option<Constant>> for Property {
    ghost value_of = { λ p. p.constant };

    fn carried(&self) -> &Option<Constant> {
        &self.constant
    }
}

impl Carries<Accessors> for Property {
    ghost value_of = { λ p. p.accessors };

    fn carried(&self) -> &Accessors {
        &self.accessors
    }
}

impl Carries<Accessors> for Event {
    ghost value_of = { λ e. e.accessors };

    fn carried(&self) -> &Accessors {
        &self.accessors
    }
}
