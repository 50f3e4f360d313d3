ghost use Rattle.std.specs.Prelude.{◌≡◌};
ghost use Rattle.assembly_tree.specs.WellFormed.{is_image_base, is_file_alignment, are_cor_flags, is_manifest, is_extern, are_globals};

use super::formed_parts::Formed;
use super::lists::are_different;
use super::names::{has_no_zero, is_name};
use crate::{Assembly, ExternAssembly, Manifest};

fn is_image_base(base: u32) -> bool
    ensures { result ≡ is_image_base base }
{
    base % 0x1_0000 == 0 && base >= 0x1_0000 && base <= 0xF000_0000
}

fn is_file_alignment(alignment: u32) -> bool
    ensures { result ≡ is_file_alignment alignment }
{
    alignment == 0x200 || alignment == 0x400 || alignment == 0x800 || alignment == 0x1000
}

fn are_cor_flags(flags: u32) -> bool
    ensures { result ≡ are_cor_flags flags }
{
    flags & 1 == 1 && flags & 0x18 == 0
}

impl Formed for Manifest {
    ghost formed = { is_manifest };

    #[tactic(auto, unfolding(crate::specs::WellFormed::is_manifest))]
    fn is_formed(&self, a: &Assembly) -> bool {
        is_name(&self.name)
            && has_no_zero(&self.culture)
            && is_name(&self.module)
            && is_image_base(self.image_base)
            && is_file_alignment(self.file_alignment)
            && are_cor_flags(self.cor_flags)
            && self.attributes.is_formed(a)
            && self.module_attributes.is_formed(a)
    }
}

impl Formed for ExternAssembly {
    ghost formed = { λ a e. is_extern e };

    #[tactic(auto, unfolding(crate::specs::WellFormed::is_extern))]
    fn is_formed(&self, _a: &Assembly) -> bool {
        is_name(&self.name) && has_no_zero(&self.culture)
    }
}

/// Whether what is declared outside of any class meets its conditions.
#[tactic(auto, unfolding(crate::specs::WellFormed::are_globals))]
pub fn are_globals(a: &Assembly) -> bool
    ensures { result ≡ are_globals a.now }
{
    a.fields.is_formed(a)
        && a.methods.is_formed(a)
        && are_different(a.fields.as_slice())
        && are_different(a.methods.as_slice())
}
