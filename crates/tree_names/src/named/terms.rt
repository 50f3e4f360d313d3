ghost use Rattle.std.specs.Prelude.{◌≡◌, OnOk};
ghost use Rattle.std.specs.List.{flat_map};
ghost use Rattle.tree_names.specs.Looking.{seen_all};
ghost use Rattle.tree_names.specs.Named.{names_in_field_ref, names_in_method_ref, names_in_owner, names_in_signature, names_in_type};

use super::{Looks, Named};
use il_lists::NoMemory;
use type_terms::{FieldRef, MethodRef, MethodSig, Owner, SigType};

impl Named for SigType {
    ghost names = { names_in_type };

    fn show<L: Looks>(&self, to: &mut L) -> Result<(), NoMemory> {
        show_type(self, to)
    }
}

impl Named for Owner {
    ghost names = { names_in_owner };

    fn show<L: Looks>(&self, to: &mut L) -> Result<(), NoMemory> {
        show_owner(self, to)
    }
}

/// Shows the names in a type.
#[cycle(show)]
fn show_type<L: Looks>(t: &SigType, to: &mut L) -> Result<(), NoMemory>
    ensures { OnOk result (to.new ≡ seen_all L.seen to.old (names_in_type t.now)) }
{
    match t {
        SigType::Class(name) => to.look(name),
        SigType::Value(name) => to.look(name),
        SigType::Inst { name, args, .. } => {
            to.look(name.get())?;
            show_types(args.get().as_slice(), to)
        }
        SigType::SzArray(of) => show_type(of.get(), to),
        SigType::Array { of, .. } => show_type(of.get(), to),
        SigType::ByRef(of) => show_type(of.get(), to),
        SigType::Pointer(of) => show_type(of.get(), to),
        SigType::Pinned(of) => show_type(of.get(), to),
        SigType::Mod { by, of, .. } => {
            show_owner(by.get(), to)?;
            show_type(of.get(), to)
        }
        SigType::Prim(_) => Ok(()),
        SigType::Var(_) => Ok(()),
        SigType::MVar(_) => Ok(()),
    }
}

/// Shows the names in an owner.
#[cycle(show)]
fn show_owner<L: Looks>(owner: &Owner, to: &mut L) -> Result<(), NoMemory>
    ensures { OnOk result (to.new ≡ seen_all L.seen to.old (names_in_owner owner.now)) }
{
    match owner {
        Owner::Name(name) => to.look(name),
        Owner::Spec(of) => show_type(of, to),
    }
}

/// Shows the names in each type.
#[cycle(show)]
fn show_types<L: Looks>(types: &[SigType], to: &mut L) -> Result<(), NoMemory>
    ensures { OnOk result (to.new ≡ seen_all L.seen to.old (flat_map names_in_type types.now)) }
{
    for of in types {
        show_type(of, to)?;
    }
    Ok(())
}

impl Named for MethodSig {
    ghost names = { names_in_signature };

    #[tactic(auto, using(crate::proofs::Seeing::both_seen), unfolding(crate::specs::Named::names_in_signature))]
    fn show<L: Looks>(&self, to: &mut L) -> Result<(), NoMemory> {
        self.ret.show(to)?;
        self.params.show(to)
    }
}

impl Named for MethodRef {
    ghost names = { names_in_method_ref };

    #[tactic(auto, using(crate::proofs::Seeing::both_seen), unfolding(crate::specs::Named::names_in_method_ref))]
    fn show<L: Looks>(&self, to: &mut L) -> Result<(), NoMemory> {
        self.owner.show(to)?;
        self.sig.show(to)?;
        self.args.show(to)
    }
}

impl Named for FieldRef {
    ghost names = { names_in_field_ref };

    #[tactic(auto, using(crate::proofs::Seeing::both_seen), unfolding(crate::specs::Named::names_in_field_ref))]
    fn show<L: Looks>(&self, to: &mut L) -> Result<(), NoMemory> {
        self.owner.show(to)?;
        self.of.show(to)
    }
}
