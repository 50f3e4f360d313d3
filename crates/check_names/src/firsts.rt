//! The first that is broken of each class of rules, from the least token of each rule.

ghost use Rattle.std.specs.Prelude.{◌≡◌};
ghost use Rattle.source_model.specs.Denotes.{broken_b, broken_d, broken_n};
ghost use Rattle.source_model.specs.Faults.{earliest};
ghost use Rattle.source_model.specs.Source.{Source};
ghost use Rattle.check_names.specs.Breaches.{any_broken};
ghost use Rattle.check_names.specs.Leasts.{AreTwice, AreUnbounded, AreUndeclared};

use crate::merging::{Breach, earlier, of_rule};
use source_model::the_first_is_least;

/// The least tokens of what is declared twice, rule by rule.
#[derive(Debug, Clone, Copy, Drop)]
pub struct Twice {
    /// Types.
    pub types: Option<u32>,
    /// Members of a class.
    pub members: Option<u32>,
    /// Assemblies or their aliases.
    pub externs: Option<u32>,
    /// Labels of a method.
    pub labels: Option<u32>,
    /// Entry points.
    pub entries: Option<u32>,
    /// `.assembly` and `.module`.
    pub manifests: Option<u32>,
    /// Labels of data.
    pub data_labels: Option<u32>,
}

/// The least tokens of what is named and not declared, rule by rule.
#[derive(Debug, Clone, Copy, Drop)]
pub struct Undeclared {
    /// Types.
    pub types: Option<u32>,
    /// Assemblies, and `System.Object`.
    pub externs: Option<u32>,
    /// Labels of a method.
    pub labels: Option<u32>,
    /// Arguments and locals.
    pub variables: Option<u32>,
    /// Generic parameters.
    pub typars: Option<u32>,
    /// Accessors that aren't methods of their class.
    pub accessors: Option<u32>,
    /// The assembly itself.
    pub assembly: Option<u32>,
    /// Labels of data.
    pub data_labels: Option<u32>,
}

/// The least tokens of what is out of its bounds, rule by rule.
#[derive(Debug, Clone, Copy, Drop)]
pub struct Unbounded {
    /// Numbers and counts.
    pub numbers: Option<u32>,
    /// Short branches.
    pub branches: Option<u32>,
    /// The ranges of clauses.
    pub clauses: Option<u32>,
    /// The depths of types.
    pub types: Option<u32>,
    /// Branches to the end of the code.
    pub ends: Option<u32>,
    /// The depths of classes and paths.
    pub nestings: Option<u32>,
    /// Data with fewer bytes than its field.
    pub short: Option<u32>,
    /// Fields with data whose types have no size.
    pub without_size: Option<u32>,
}

/// The first of what is declared twice.
#[tactic(auto, unfolding(source_model::specs::Denotes::broken_d))]
pub fn first_twice(least: &Twice) -> Option<Breach>
    ensures { (s : Source) → AreTwice s least.now → any_broken result ≡ earliest (broken_d s) }
{
    the_first_is_least();
    let types = of_rule(1, least.types);
    let members = of_rule(2, least.members);
    let externs = of_rule(3, least.externs);
    let labels = of_rule(4, least.labels);
    let entries = of_rule(5, least.entries);
    let manifests = of_rule(6, least.manifests);
    let data_labels = of_rule(7, least.data_labels);
    let to_members = earlier(types, members);
    let to_externs = earlier(to_members, externs);
    let to_labels = earlier(to_externs, labels);
    let to_entries = earlier(to_labels, entries);
    let to_manifests = earlier(to_entries, manifests);
    earlier(to_manifests, data_labels)
}

/// The first of what is named and not declared.
#[tactic(auto, unfolding(source_model::specs::Denotes::broken_n))]
pub fn first_undeclared(least: &Undeclared) -> Option<Breach>
    ensures { (s : Source) → AreUndeclared s least.now → any_broken result ≡ earliest (broken_n s) }
{
    the_first_is_least();
    let types = of_rule(1, least.types);
    let externs = of_rule(2, least.externs);
    let labels = of_rule(3, least.labels);
    let variables = of_rule(4, least.variables);
    let typars = of_rule(5, least.typars);
    let accessors = of_rule(6, least.accessors);
    let assembly = of_rule(7, least.assembly);
    let data_labels = of_rule(8, least.data_labels);
    let to_externs = earlier(types, externs);
    let to_labels = earlier(to_externs, labels);
    let to_variables = earlier(to_labels, variables);
    let to_typars = earlier(to_variables, typars);
    let to_accessors = earlier(to_typars, accessors);
    let to_assembly = earlier(to_accessors, assembly);
    earlier(to_assembly, data_labels)
}

/// The first of what is out of its bounds.
#[tactic(auto, unfolding(source_model::specs::Denotes::broken_b))]
pub fn first_unbounded(least: &Unbounded) -> Option<Breach>
    ensures { (s : Source) → AreUnbounded s least.now → any_broken result ≡ earliest (broken_b s) }
{
    the_first_is_least();
    let numbers = of_rule(1, least.numbers);
    let branches = of_rule(2, least.branches);
    let clauses = of_rule(3, least.clauses);
    let types = of_rule(4, least.types);
    let ends = of_rule(5, least.ends);
    let nestings = of_rule(6, least.nestings);
    let short = of_rule(7, least.short);
    let without_size = of_rule(8, least.without_size);
    let to_branches = earlier(numbers, branches);
    let to_clauses = earlier(to_branches, clauses);
    let to_types = earlier(to_clauses, types);
    let to_ends = earlier(to_types, ends);
    let to_nestings = earlier(to_ends, nestings);
    let to_short = earlier(to_nestings, short);
    earlier(to_short, without_size)
}
