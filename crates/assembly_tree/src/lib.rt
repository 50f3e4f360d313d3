//! The assembly as a tree: names, flags, terms, bodies, layouts and data, without tokens, rows and code
//! offsets. It is what a source denotes, what an image reads as and what the checker checks.
#![tactic(auto)]

mod assembly;
mod body;
mod copying;
mod formed;
mod inner;
mod members;
mod sizes;
mod typedef;
mod weighing;

pub use assembly::{Assembly, ExternAssembly, Externs, Manifest};
pub use body::{Body, Clause, ClauseKind, Clauses, Code, Ins, Operand};
pub use formed::{conditions_are_named, well_formed};
pub use members::{
    Accessor, Accessors, Attribute, Attributes, Constant, Event, Events, Field, Fields, Generic,
    Generics, Method, Methods, Param, Params, Properties, Property,
};
pub use sizes::data_size;
pub use typedef::{Layout, MethodPath, TypeDef, TypeDefs};
pub use weighing::{MAX_WEIGHT, Weighed, weigh, weight};
