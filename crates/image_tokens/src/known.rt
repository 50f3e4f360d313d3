//! The tokens of what a tree names.
ghost use Rattle.std.specs.Prelude.{◌≡◌, ◌↔◌, [], IsTrue};

use crate::found::{Found, Term};
use crate::hashing::mix_units;
use crate::name_hashes::{are_same, hash_name};
use il_base::{NoMemory, Units};
use sig_codec::Numberer;
use std::alloc::Global;
use type_terms::equality::{are_same_types, is_same_field, is_same_method, is_same_type};
use type_terms::hashing::{START, mix_field, mix_method, mix_type, mix_types};
use type_terms::{FieldRef, MethodRef, Owner, SigType, TypeName, Types};

/// The tokens that have been given.
#[derive(Drop)]
pub struct Known<'a> {
    pub names: Found<'a, TypeName>,
    pub specs: Found<'a, SigType>,
    pub methods: Found<'a, MethodRef>,
    pub fields: Found<'a, FieldRef>,
    pub locals: Found<'a, Types>,
    pub texts: Found<'a, Units>,
}

impl<'a> Known<'a> {
    /// No tokens. Takes no memory.
    pub fn new(alloc: Global) -> Known<'a>
        ensures { result ≡ record { names = []; specs = []; methods = []; fields = []; locals = []; texts = [] } }
    {
        Known {
            names: Found::new(alloc),
            specs: Found::new(alloc),
            methods: Found::new(alloc),
            fields: Found::new(alloc),
            locals: Found::new(alloc),
            texts: Found::new(alloc),
        }
    }
}

impl<'a> Numberer for Known<'a> {
    ghost use Rattle.std.specs.Prelude.{ℕ, List, Option};
    ghost use Rattle.image_tokens.specs.Found.{token_in};
    ghost use Rattle.image_tokens.specs.KnownTokens.{methods_apart, fields_apart, locals_apart, texts_apart, owner_token};

    ghost owner_tokens = { λ k. owner_token k.names k.specs };

    ghost method_tokens = { λ k. token_in methods_apart k.methods };

    ghost field_tokens = { λ k. token_in fields_apart k.fields };

    ghost locals_tokens = { λ k. token_in locals_apart k.locals };

    ghost text_tokens = { λ k. token_in texts_apart k.texts };

    fn token_of_owner(&self, owner: &Owner) -> Option<u32> {
        match owner {
            Owner::Name(name) => self.names.find(name),
            Owner::Spec(of) => self.specs.find(of),
        }
    }

    fn token_of_method(&self, method: &MethodRef) -> Option<u32> {
        self.methods.find(method)
    }

    fn token_of_field(&self, field: &FieldRef) -> Option<u32> {
        self.fields.find(field)
    }

    fn token_of_locals(&self, locals: &Types) -> Option<u32> {
        self.locals.find(locals)
    }

    fn token_of_text(&self, text: &Units) -> Option<u32> {
        self.texts.find(text)
    }

    fn token_of_name(&self, _alloc: Global, name: &TypeName) -> Result<Option<u32>, NoMemory> {
        Ok(self.names.find(name))
    }
}

impl Term for TypeName {
    ghost use Rattle.image_tokens.specs.KnownTokens.{names_apart};
    ghost use Rattle.image_tokens.specs.NameHashes.{name_hash};

    ghost hash = { name_hash };

    ghost stored = { names_apart };

    fn hashed(&self) -> u64 {
        hash_name(self)
    }

    fn is_same(&self, other: &TypeName, hashed: u64) -> bool {
        are_same(self, other, hashed)
    }
}

impl Term for SigType {
    ghost use Rattle.type_terms.specs.Hashing.{start, mix_type};
    ghost use Rattle.image_tokens.specs.KnownTokens.{types_apart};

    ghost hash = { mix_type start };

    ghost stored = { types_apart };

    fn hashed(&self) -> u64 {
        mix_type(START, self)
    }

    fn is_same(&self, other: &SigType, _hashed: u64) -> bool {
        is_same_type(self, other)
    }
}

impl Term for MethodRef {
    ghost use Rattle.type_terms.specs.Hashing.{start, mix_method};
    ghost use Rattle.image_tokens.specs.KnownTokens.{methods_apart};

    ghost hash = { mix_method start };

    ghost stored = { methods_apart };

    fn hashed(&self) -> u64 {
        mix_method(START, self)
    }

    fn is_same(&self, other: &MethodRef, _hashed: u64) -> bool {
        is_same_method(self, other)
    }
}

impl Term for FieldRef {
    ghost use Rattle.type_terms.specs.Hashing.{start, mix_field};
    ghost use Rattle.image_tokens.specs.KnownTokens.{fields_apart};

    ghost hash = { mix_field start };

    ghost stored = { fields_apart };

    fn hashed(&self) -> u64 {
        mix_field(START, self)
    }

    fn is_same(&self, other: &FieldRef, _hashed: u64) -> bool {
        is_same_field(self, other)
    }
}

impl Term for Types {
    ghost use Rattle.type_terms.specs.Hashing.{start, mix_types};
    ghost use Rattle.image_tokens.specs.KnownTokens.{locals_apart};

    ghost hash = { mix_types start };

    ghost stored = { locals_apart };

    fn hashed(&self) -> u64 {
        mix_types(START, self.as_slice())
    }

    fn is_same(&self, other: &Types, _hashed: u64) -> bool {
        are_same_types(self.as_slice(), other.as_slice())
    }
}

impl Term for Units {
    ghost use Rattle.type_terms.specs.Hashing.{start, mix_text};
    ghost use Rattle.image_tokens.specs.KnownTokens.{texts_apart};

    ghost hash = { mix_text start };

    ghost stored = { texts_apart };

    fn hashed(&self) -> u64 {
        mix_units(START, self)
    }

    fn is_same(&self, other: &Units, _hashed: u64) -> bool {
        is_text(self, other)
    }
}

/// Whether two texts are equal.
fn is_text(a: &Units, b: &Units) -> bool
    ensures { IsTrue result ↔ (a.now ≡ b.now) }
{
    a.as_slice() == b.as_slice()
}
