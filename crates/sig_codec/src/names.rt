ghost use Rattle.std.specs.Prelude.{◌≡◌, IfOk};
ghost use Rattle.std.specs.Option.{option_copied};

use il_base::{Copies, NoMemory, Units};
use std::alloc::Global;
use type_terms::{FieldRef, MethodRef, Owner, TypeName, Types};

/// What the tokens of an image name. A token is a table's number in the highest byte and a row in the three below, or 0x70
/// and an index for a user string (ECMA-335 II.22, III.1.9). Each call answers None exactly where its map lacks the token.
pub trait Namer {
    ghost use Rattle.std.specs.Prelude.{ℕ, List, Option};
    ghost use Rattle.type_terms.specs.declared.term.Owner.{Owner};
    ghost use Rattle.type_terms.specs.declared.term.SigType.{SigType};
    ghost use Rattle.type_terms.specs.declared.reference.MethodRef.{MethodRef};
    ghost use Rattle.type_terms.specs.declared.reference.FieldRef.{FieldRef};

    /// The types that tokens name.
    ghost owners: { Self → ℕ → Option Owner };

    /// The methods that tokens name.
    ghost methods: { Self → ℕ → Option MethodRef };

    /// The fields that tokens name.
    ghost fields: { Self → ℕ → Option FieldRef };

    /// The types of the locals that tokens name.
    ghost locals: { Self → ℕ → Option (List SigType) };

    /// The texts, in UTF-16, that tokens name.
    ghost texts: { Self → ℕ → Option (List ℕ) };

    /// The type with this token.
    fn owner_of(&self, token: u32) -> Option<&Owner>
        ensures { option_copied result ≡ owners self.now token };

    /// The method with this token.
    fn method_of(&self, token: u32) -> Option<&MethodRef>
        ensures { option_copied result ≡ methods self.now token };

    /// The field with this token.
    fn field_of(&self, token: u32) -> Option<&FieldRef>
        ensures { option_copied result ≡ fields self.now token };

    /// The types of the locals with this token.
    fn locals_of(&self, token: u32) -> Option<&Types>
        ensures { option_copied result ≡ locals self.now token };

    /// The text with this token.
    fn text_of(&self, token: u32) -> Option<&Units>
        ensures { option_copied result ≡ texts self.now token };
}

/// Which tokens an image has for what its code and signatures name. Each call answers None exactly where its map lacks the
/// value.
pub trait Numberer {
    ghost use Rattle.std.specs.Prelude.{ℕ, List, Option};
    ghost use Rattle.type_terms.specs.declared.term.Owner.{Owner};
    ghost use Rattle.type_terms.specs.declared.term.Owner.TheVariants as owner;
    ghost use Rattle.type_terms.specs.declared.term.SigType.{SigType};
    ghost use Rattle.type_terms.specs.declared.reference.MethodRef.{MethodRef};
    ghost use Rattle.type_terms.specs.declared.reference.FieldRef.{FieldRef};

    /// The tokens of types.
    ghost owner_tokens: { Self → Owner → Option ℕ };

    /// The tokens of methods.
    ghost method_tokens: { Self → MethodRef → Option ℕ };

    /// The tokens of fields.
    ghost field_tokens: { Self → FieldRef → Option ℕ };

    /// The tokens of lists of locals.
    ghost locals_tokens: { Self → List SigType → Option ℕ };

    /// The tokens of texts, which are UTF-16.
    ghost text_tokens: { Self → List ℕ → Option ℕ };

    /// The token of a type.
    fn token_of_owner(&self, owner: &Owner) -> Option<u32>
        ensures { result ≡ owner_tokens self.now owner.now };

    /// The token of a method.
    fn token_of_method(&self, method: &MethodRef) -> Option<u32>
        ensures { result ≡ method_tokens self.now method.now };

    /// The token of a field.
    fn token_of_field(&self, field: &FieldRef) -> Option<u32>
        ensures { result ≡ field_tokens self.now field.now };

    /// The token of a list of locals.
    fn token_of_locals(&self, locals: &Types) -> Option<u32>
        ensures { result ≡ locals_tokens self.now locals.now };

    /// The token of a text.
    fn token_of_text(&self, text: &Units) -> Option<u32>
        ensures { result ≡ text_tokens self.now text.now };

    /// The token of the type with this name. A map that finds a name without a copy of it says so here.
    fn token_of_name(&self, alloc: Global, name: &TypeName) -> Result<Option<u32>, NoMemory>
        ensures { IfOk result (λ token. token ≡ owner_tokens self.now (owner.Name name.now)) }
    {
        let owner = Owner::Name(name.copy(alloc)?);
        Ok(self.token_of_owner(&owner))
    }
}
