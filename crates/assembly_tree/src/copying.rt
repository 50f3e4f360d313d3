//! Copies of a tree's parts. The parts of one value are copied in one call, so that no early end has trees to drop field by
//! field: such drops are what the proofs of copies take longest for.

mod assemblies;
mod bodies;
mod members;
mod nests;
mod typedefs;
