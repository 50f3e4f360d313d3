//! Tests alone: what no checked method shows of the world of types, the worklist of the checker of bodies, and fields
//! with data. Answers were taken from the standard's rules and not from the program.
#![tactic(auto)]

#[cfg(test)]
mod data_rows;
#[cfg(test)]
mod keys;
#[cfg(test)]
mod orders;
#[cfg(test)]
mod worklist_rows;
#[cfg(test)]
mod worlds;
