ghost use Rattle.std.specs.Prelude.{◌≡◌, ◌+◌, ◌*◌, ◌≤◌, ◌↔◌, ℕ, [], length, IsTrue, IsNone, IfSome, None, Some, MatchResult, MatchOption};
ghost use Rattle.pe_layout.specs.Fields.{u32_at};
ghost use Rattle.pe_layout.specs.Headers.{signature_place_of, optional_place_of, section_table_of, section_count_of};
ghost use Rattle.pe_layout.specs.FileMap.{readable};
ghost use Rattle.pe_layout.specs.CliHeader.{cli_header_of};
ghost use Rattle.pe_layout.specs.Faults.{has_headers, is_in_profile, pe_fault};
ghost use Rattle.pe_layout.specs.Numbers.{numbers_of};

use crate::field::{u16_at, u32_at};
use crate::profile::{SIGNATURE_PLACE, has_headers, is_in_profile};
use crate::section::{cli_header_at, readable_at};
use crate::{ManifestNumbers, PeFault};
use std::marker::Model;

/// An image of the profile, that contracts see as the bytes of its file.
#[derive(Debug, Drop)]
pub struct PeView<'a> {
    file: &'a [u8],
    // Where the optional header and the section headers begin, and how many of these there are.
    optional: usize,
    sections: usize,
    count: usize,
    cli: &'a [u8],
}

impl<'a> Model for PeView<'a> {
    ghost use Rattle.std.specs.Prelude.{ℕ, List};
    ghost use Rattle.pe_layout.specs.View.{IsOpened};

    ghost Value = { List ℕ };

    ghost view = { λ v. v.file.now };

    ghost invariant = { λ v. IsOpened v.file.now v.optional v.sections v.count v.cli.now };
}

/// Opens an image. It takes no memory, and no bytes lead it astray.
///
/// The error has rule 1 where the DOS, PE, COFF, optional or section headers don't lie in the file
/// with their signatures (ECMA-335 II.25.2); else rule 2 where the machine isn't an I386, the
/// optional header not that of PE32, or its directories fewer than 15 or more than it has room for;
/// else rule 3 where directory 14 doesn't lead to 72 bytes that can be read (ECMA-335 II.25.3.3).
pub fn open(file: &[u8]) -> Result<PeView<'_>, PeFault>
    ensures { MatchResult result (λ v. (v ≡ file.now) × (pe_fault file.now ≡ None)) (λ e. pe_fault file.now ≡ Some e) }
{
    if !has_headers(file) {
        return Err(PeFault { rule: 1, at: 0 });
    }
    let signature = u32_at(file, SIGNATURE_PLACE);
    if !is_in_profile(file, signature as usize) {
        return Err(PeFault {
            rule: 2,
            at: signature,
        });
    }
    let optional = signature as usize + 24;
    let sections = optional + u16_at(file, optional - 4) as usize;
    let count = u16_at(file, optional - 18) as usize;
    let Some(cli) = cli_header_at(file, sections, count, u32_at(file, optional + 208)) else {
        return Err(PeFault { rule: 3, at: 0 });
    };
    Ok(PeView {
        file,
        optional,
        sections,
        count,
        cli,
    })
}

impl<'a> PeView<'a> {
    /// What can be read from an RVA on (ECMA-335 II.25): it lies in the first section whose range
    /// holds it, and the bytes run to the end of that section's raw bytes or of the file.
    ///
    /// None exactly where not one byte can be read.
    pub fn at_rva(&self, rva: u32) -> Option<&'a [u8]>
        ensures none { IsNone result ↔ (readable self.now rva ≡ []) }
        ensures bytes { IfSome result (λ bytes. bytes.now ≡ readable self.now rva) }
    {
        readable_at(self.file, self.sections, self.count, rva)
    }

    /// The CLI header, to which directory 14 leads: 72 bytes (ECMA-335 II.25.3.3). Every image that
    /// was opened has it.
    pub fn cli_header(&self) -> &'a [u8]
        ensures value { result.now ≡ cli_header_of self.now }
        ensures len { length result.now ≡ 72 }
        ensures faultless { pe_fault self.now ≡ None }
    {
        self.cli
    }

    /// Four numbers of the optional header and the flags of the CLI header, as they stand.
    pub fn numbers(&self) -> ManifestNumbers
        ensures { result ≡ numbers_of self.now }
    {
        ManifestNumbers {
            image_base: u32_at(self.file, self.optional + 28),
            file_alignment: u32_at(self.file, self.optional + 36),
            stack_reserve: u32_at(self.file, self.optional + 72),
            subsystem: u16_at(self.file, self.optional + 68),
            cor_flags: u32_at(self.cli, 16),
        }
    }
}
