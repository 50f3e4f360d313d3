//! The flags of a source's declarations: the words of each and their numbers, from 0, where a word replaces the bits of its
//! group and `flags(n)` adds bits (ECMA-335 II.6.2, II.10.1, II.15.4, II.16.1, II.17, II.18, II.23.1).
#![tactic(auto)]

pub mod declared_flags;
pub mod flag_rows;
mod flags;
pub mod gathering;
pub mod lines;
pub mod naturals;
pub mod outside;
