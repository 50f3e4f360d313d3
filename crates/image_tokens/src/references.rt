//! What is filled while an image is made: heaps, rows that are found again, and the tokens of what a tree
//! names.
ghost use Rattle.std.specs.Prelude.{◌≡◌, []};

use crate::heap_contents::Heaps;
use crate::known::Known;
use crate::row_list::RowList;
use crate::row_set::RowSet;
use il_base::NoMemory;
use std::alloc::Global;

/// What is declared, as rows by which names and references find it: types by encloser, name and space,
/// fields and methods by type, name and signature. Item k is row k + 1 of its table.
#[derive(Drop)]
pub struct Declared {
    pub types: RowSet,
    pub fields: RowList,
    pub methods: RowList,
    /// How many assemblies are named (II.22.5).
    pub externs: u32,
}

/// The rows of the tables of references: TypeRef, TypeSpec, MemberRef, MethodSpec and StandAloneSig.
#[derive(Drop)]
pub struct Referred {
    pub names: RowSet,
    pub specs: RowSet,
    pub members: RowSet,
    pub instances: RowSet,
    pub locals: RowSet,
}

/// All of it together.
#[derive(Drop)]
pub struct References<'a> {
    pub heaps: Heaps,
    pub declared: Declared,
    pub referred: Referred,
    pub known: Known<'a>,
}

impl<'a> References<'a> {
    /// Makes room for the tokens of so many names, where none has a token yet.
    pub fn make_room(&mut self, alloc: Global, names: usize) -> Result<(), NoMemory>
        ensures { self.new ≡ self.old }
    {
        self.known.names.make_room(alloc, names)
    }
}

impl Referred {
    /// No rows. Takes no memory.
    pub fn new(alloc: Global) -> Referred
        ensures { result ≡ record { names = []; specs = []; members = []; instances = []; locals = [] } }
    {
        Referred {
            names: RowSet::new(alloc),
            specs: RowSet::new(alloc),
            members: RowSet::new(alloc),
            instances: RowSet::new(alloc),
            locals: RowSet::new(alloc),
        }
    }
}
