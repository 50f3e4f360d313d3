//! What a production in a type, a signature or a reference breaks: names that aren't declared, numbers that are out of their
//! ranges, and types and paths that are too deep (ECMA-335 II.5.2, II.7.1, II.14.2, II.15.3, II.23.2).

ghost use Rattle.std.specs.Prelude.{◌≡◌, IfOk};
ghost use Rattle.type_terms.specs.Depth.{depth};
ghost use Rattle.ilasm_grammar.specs.declared.productions.TheConstants.{TYPE};
ghost use Rattle.source_model.specs.Forest.{Forest, first_token, preorder};
ghost use Rattle.source_model.specs.Nodes.{Around, Node};
ghost use Rattle.source_model.specs.Source.{Source};
ghost use Rattle.source_model.specs.TypeRules.{breaks_signature, is_nothing, type_too_deep, typar_undeclared};
ghost use Rattle.source_nodes.specs.Derived.{FitsBody, HasBodies};
ghost use Rattle.source_nodes.specs.Least.{least};
ghost use Rattle.source_syntax.specs.Namings.{AreNames};
ghost use Rattle.source_nodes.specs.Readers.{Reads};
ghost use Rattle.source_nodes.specs.Walk.{IsForest};
ghost use Rattle.source_syntax.specs.declared.name_lists.Naming.TheVariants as naming;
ghost use Rattle.check_visitor.specs.Surroundings.{IsDerived, IsNode};
ghost use Rattle.source_model.specs.Types.{type_of};
ghost use Rattle.check_names.specs.DeclaredClasses.{AreClasses};
ghost use Rattle.check_names.specs.TypeDepths.{own_token};
ghost use Rattle.check_members.specs.BrokenSignatures.{part_broken};

use check_names::class_rules::Classes;
use check_names::named_types::{Scopes, Types};
use check_names::nestings::long_path;
use check_names::out_of_range::number_in_signature;
use check_names::type_depths::depths_of;
use check_names::undeclared::index;
use check_visitor::asking::{Rule, Surrounding};
use il_base::NoMemory;
use ilasm_grammar::TreeNode;
use ilasm_grammar::productions::{TYPE, TYPE_BASE_BANG, TYPE_BASE_DOUBLE_BANG};
use source_nodes::least::sooner;
use source_nodes::reader::Reader;
use source_nodes::walk::first_token;
use source_syntax::name_lists::Named;
use std::alloc::Global;

/// No production of a signature breaks a rule: its names are declared, its numbers are in their ranges, and its types and paths
/// aren't too deep.
#[derive(Clone, Copy)]
pub struct BrokenSignatures<'a> {
    pub types: Types<'a>,
}

/// The rule for a source with these assemblies, this name of its own and these classes.
pub fn signatures_of<'a>(
    externs: &'a Named,
    own: &'a Named,
    classes: &'a Classes,
) -> BrokenSignatures<'a>
    ensures { (s : Source) → AreNames s naming.Assembly externs.now → AreNames s naming.Own own.now → AreClasses s classes.now → (n : Node) →
        is_nothing (part_broken result.types.scopes.keys.now result.types.scopes.own.now result.types.classes.now s n) ≡ is_nothing (breaks_signature s n) }
{
    let scopes = Scopes {
        keys: &externs.names,
        own: &own.names,
    };
    let types = Types {
        scopes,
        classes: &classes.paths,
    };
    BrokenSignatures { types }
}

impl<'a> Rule for BrokenSignatures<'a> {
    ghost broken = { λ rule s n. part_broken rule.types.scopes.keys.now rule.types.scopes.own.now rule.types.classes.now s n };

    fn first(
        &self,
        alloc: Global,
        reader: &Reader,
        place: &Surrounding,
        production: u16,
        below: &[TreeNode],
    ) -> Result<Option<u32>, NoMemory> {
        let scopes = self.types.scopes;
        let name = self.types.first(alloc, reader, place, production, below)?;
        let scope = scopes.first(alloc, reader, place, production, below)?;
        let typar = typar(alloc, reader, place, production, below)?;
        let number = number_in_signature(alloc, reader, production, below)?;
        let path = long_path(alloc, production, below)?;
        let to_scope = sooner(name, scope);
        let to_typar = sooner(to_scope, typar);
        let to_number = sooner(to_typar, number);
        let to_depth = sooner(to_number, deep_type(production, below));
        Ok(sooner(to_depth, path))
    }
}

// The name behind `!` or `!!` that is no generic parameter of the class or the method around it.
fn typar(
    alloc: Global,
    reader: &Reader,
    place: &Surrounding,
    production: u16,
    below: &[TreeNode],
) -> Result<Option<u32>, NoMemory>
    requires { IsForest below.now }
    ensures { (s : Source) (n : Node) → Reads reader.now s → IsNode place.now production below.now n → IsDerived s place.now n →
        IfOk result (λ k. k ≡ least (typar_undeclared s n)) }
{
    match production {
        TYPE_BASE_BANG => index(alloc, reader, place.class_typars, below),
        TYPE_BASE_DOUBLE_BANG => index(alloc, reader, place.method_typars, below),
        _ => Ok(None),
    }
}

// The first token of a type that is too deep.
fn deep_type(production: u16, below: &[TreeNode]) -> Option<u32>
    requires { IsForest below.now }
    ensures { (s : Source) (n : Node) → n.production ≡ production → preorder n.below ≡ below.now → FitsBody s n.production n.below → HasBodies s n.below →
        result ≡ least (type_too_deep s n) }
{
    match production {
        TYPE => token_if_deep(below),
        _ => None,
    }
}

// The same from what stands below the type's production.
fn token_if_deep(below: &[TreeNode]) -> Option<u32>
    requires { IsForest below.now }
    ensures { (s : Source) (a : Around) (f : Forest) → preorder f ≡ below.now → FitsBody s TYPE f → HasBodies s f →
        result ≡ own_token (depth (type_of s a f)) (first_token f) }
{
    let of = depths_of(below);
    if of.depth > 100 {
        Some(first_token(below))
    } else {
        None
    }
}
