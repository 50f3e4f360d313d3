//! An image that names nothing.

use il_lists::Units;
use sig_codec::Namer;
use type_terms::{FieldRef, MethodRef, Owner, Types};

/// An image that names nothing.
#[derive(Drop)]
pub struct Nameless;

impl Namer for Nameless {
    ghost use Rattle.std.specs.Prelude.{None};

    ghost owners = { λ _ _. None };

    ghost methods = { λ _ _. None };

    ghost fields = { λ _ _. None };

    ghost locals = { λ _ _. None };

    ghost texts = { λ _ _. None };

    fn owner_of(&self, _token: u32) -> Option<&Owner> {
        None
    }

    fn method_of(&self, _token: u32) -> Option<&MethodRef> {
        None
    }

    fn field_of(&self, _token: u32) -> Option<&FieldRef> {
        None
    }

    fn locals_of(&self, _token: u32) -> Option<&Types> {
        None
    }

    fn text_of(&self, _token: u32) -> Option<&Units> {
        None
    }
}
