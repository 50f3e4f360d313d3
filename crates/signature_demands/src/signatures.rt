ghost use Rattle.std.specs.Prelude.{◌≡◌};
ghost use Rattle.signature_demands.specs.Named.{MembersAreThere};

use crate::declared::{meets_field, meets_method, meets_property};
use crate::named::{meets_instance, meets_override};
use crate::references::{meets_locals, meets_member, meets_type};
use demand_search::Demand;
use image_used::Used;
use signature_facts::Owners;
use signature_verdicts::Judgements;

/// The demand on signatures (I14), by the verdicts on them and by which rows are used.
#[derive(Drop)]
pub struct Signatures<'k, 's, 'a, O: Owners> {
    /// The verdicts.
    pub all: &'k Judgements<'s, 'a, O>,
    /// The rows that are used.
    pub used: &'k Used<'s, 'a>,
    pub ghost of_image: { used.now ≡ all.now.image.now },
    pub ghost members: { MembersAreThere all.now.image.now },
}

impl<'k, 's, 'a, O: Owners> Signatures<'k, 's, 'a, O> {
    /// The demand on an image in which each MemberRef is there that a row of MethodImpl or MethodSpec names.
    pub fn new(all: &'k Judgements<'s, 'a, O>, used: &'k Used<'s, 'a>) -> Signatures<'k, 's, 'a, O>
        requires image { used.now ≡ all.now.image.now }
        requires members { MembersAreThere all.now.image.now }
        ensures image { result.all.now.image.now ≡ all.now.image.now }
        ensures owners { result.all.now.owners.now ≡ all.now.owners.now }
    {
        Signatures { all, used }
    }
}

impl<'k, 's, 'a, O: Owners> Demand for Signatures<'k, 's, 'a, O> {
    ghost use Rattle.image_model.specs.Rows.{count_of};
    ghost use Rattle.signature_bounds.specs.Bounded.{HasBounded};

    ghost meets = { λ it table row. HasBounded it.all.now.image.now (O.facts it.all.now.owners.now) table row };

    ghost rows = { λ it table. count_of it.all.now.image.now table };

    fn asks(&self, _table: u8) -> bool {
        true
    }

    fn count(&self, table: u8) -> u32 {
        self.all.image.tables().rows(table)
    }

    fn row_meets(&self, table: u8, row: u32) -> bool {
        if row == 0 {
            return true;
        }
        match table {
            0x04 => meets_field(self.all, row),
            0x06 => meets_method(self.all, row),
            0x0A => meets_member(self.all, self.used, row),
            0x11 => meets_locals(self.all, self.used, row),
            0x17 => meets_property(self.all, row),
            0x19 => meets_override(self.all, row),
            0x1B => meets_type(self.all, self.used, row),
            0x2B => meets_instance(self.all, self.used, row),
            _ => true,
        }
    }

    fn others_meet(&self) {
        let _tables = self.all.image.tables();
    }
}
