ghost use Rattle.std.specs.Prelude.{◌≡◌, ◌<◌, ◌≤◌, ◌+◌, ◌++◌, ◌^◌, ℕ, List, [], ◌∷◌, None, length, IfOk, OnOk};
ghost use Rattle.std.specs.List.{All};
ghost use Rattle.assembly_tree.specs.declared.body.Ins.{Ins};
ghost use Rattle.opcode_table.specs.declared.kind.OperandKind.TheVariants as kinds;
ghost use Rattle.body_codec.specs.Chains.{IsBegun, IsDraft, IsFirstWith, IsKept, IsLinked, IsPut, IsShort, IsWatched, from_on, offsets_of, site_bytes, site_size};
ghost use Rattle.body_codec.specs.Encoding.{offset};
ghost use Rattle.body_codec.specs.Written.{far_from};

use crate::encoding::number::{push_number, push_signed, put_signed};
use crate::encoding::site::{Site, displacement, first_far, width};
use il_lists::{Bytes, Items, NoMemory, Numbers};
use std::alloc::Global;

/// Code as far as it is written. A displacement to an instruction that isn't written yet is left open: its site waits for
/// the instruction, and is written when that begins.
#[derive(Drop)]
pub(crate) struct Draft {
    pub bytes: Bytes,
    /// Where each instruction begins, of those that have begun; at last where the code ends.
    pub offsets: Numbers,
    /// The latest site that waits for each instruction. Each site knows the one before it.
    pub latest: Items<Option<u32>>,
    /// What waits or has waited.
    pub sites: Items<Site>,
    /// The first short branch that is known not to reach.
    pub far: Option<u32>,
}

impl Draft {
    /// Nothing of any code. Takes no memory.
    pub fn new(alloc: Global) -> Draft {
        Draft {
            bytes: Items::new(alloc),
            offsets: Items::new(alloc),
            latest: Items::new(alloc),
            sites: Items::new(alloc),
            far: None,
        }
    }

    /// Begins anew, with nothing of code with so many instructions. The memory is used again.
    pub fn restart(&mut self, count: usize) -> Result<(), NoMemory>
        ensures bytes { OnOk result (self.new.bytes ≡ []) }
        ensures offsets { OnOk result (self.new.offsets ≡ []) }
        ensures sites { OnOk result (self.new.sites ≡ []) }
        ensures far { OnOk result (self.new.far ≡ None) }
        ensures count { OnOk result (length self.new.latest ≡ count) }
        ensures latest { OnOk result (All (λ o. o ≡ None) self.new.latest) }
    {
        self.bytes.truncate(0);
        self.offsets.truncate(0);
        self.sites.truncate(0);
        self.far = None;
        wait_for_none(&mut self.latest, count)?;
        // Most instructions take fewer bytes.
        self.bytes.reserve(count.saturating_mul(4))?;
        self.offsets.reserve(count.saturating_add(1))
    }

    /// Begins the next instruction at the end of the bytes: what waits for it is written.
    pub fn begin(&mut self) -> Result<(), NoMemory>
        requires linked { IsLinked self.old }
        requires more { length self.old.offsets < length self.old.latest }
        requires small { length self.old.bytes < 2 ^ 32 }
        ensures linked { OnOk result (IsLinked self.new) }
        ensures begun { OnOk result (IsBegun self.old self.new) }
        ensures draft { (code : List Ins) (want : List ℕ) → IsDraft (from_on (length self.old.offsets)) code (length self.old.offsets) want self.old → length want ≡ offset code (length self.old.offsets) → OnOk result (IsDraft (from_on (length self.old.offsets + 1)) code (length self.old.offsets) want self.new) }
    {
        let mut waiting = *self.latest.at(self.offsets.len());
        self.offsets.push(self.bytes.len() as u32)?;
        while let Some(number) = waiting {
            let site = *self.sites.at(number as usize);
            self.settle(&site);
            waiting = site.before;
        }
        Ok(())
    }

    /// Writes the displacement of a site whose instruction has begun.
    fn settle(&mut self, site: &Site)
        requires to { site.now.to < length self.old.offsets }
        requires inside { site.now.place + site_size site.now ≤ length self.old.bytes }
        requires small { length self.old.bytes < 2 ^ 32 }
        ensures same { self.new ≡ record self.old { bytes = self.new.bytes; far = self.new.far } }
        ensures bytes { IsPut self.old.bytes site.now.place (site_bytes self.old.offsets site.now) self.new.bytes }
        ensures far { IsFirstWith self.old.far site.now (far_from self.old.offsets site.now.end site.now.to) self.new.far }
    {
        let distance = displacement(*self.offsets.at(site.to as usize), site.end);
        self.far = first_far(self.far, site, distance);
        let size = width(site.kind);
        put_signed(&mut self.bytes, site.place as usize, size, distance);
    }

    /// Adds the displacement of a site at the end of the bytes, or room for it where its instruction hasn't begun.
    pub fn push_target(&mut self, site: Site) -> Result<(), NoMemory>
        requires linked { IsLinked self.old }
        requires place { site.place ≡ length self.old.bytes }
        requires to { site.to < length self.old.latest }
        requires some { 0 < site_size site }
        ensures linked { OnOk result (IsLinked self.new) }
        ensures kept { OnOk result (IsKept self.old self.new) }
        ensures grown { OnOk result (length self.new.bytes ≡ length self.old.bytes + site_size site) }
        ensures draft { (code : List Ins) (done : ℕ) (want : List ℕ) → IsDraft (from_on (length self.old.offsets)) code done want self.old → (site.kind ≡ kinds.Branch8 → IsShort code site.at site.to site.end) → OnOk result (IsDraft (from_on (length self.old.offsets)) code done (want ++ site_bytes (offsets_of code) site) self.new) }
        ensures watched { (code : List Ins) (done : ℕ) (want : List ℕ) → IsDraft (from_on (length self.old.offsets)) code done want self.old → (site.kind ≡ kinds.Branch8 → IsShort code site.at site.to site.end) → OnOk result (site.kind ≡ kinds.Branch8 → IsWatched (from_on (length self.old.offsets)) code self.new.sites self.new.far site.at site.to) }
    {
        if (site.to as usize) < self.offsets.len() {
            self.add_known(&site)?;
        } else {
            self.wait(site)?;
        }
        Ok(())
    }

    /// Adds the displacement of a site, whose instruction has begun, at the end of the bytes.
    fn add_known(&mut self, site: &Site) -> Result<(), NoMemory>
        requires { site.now.to < length self.old.offsets }
        ensures same { self.new ≡ record self.old { bytes = self.new.bytes; far = self.new.far } }
        ensures bytes { OnOk result (self.new.bytes ≡ self.old.bytes ++ site_bytes self.old.offsets site.now) }
        ensures far { IsFirstWith self.old.far site.now (far_from self.old.offsets site.now.end site.now.to) self.new.far }
    {
        let distance = displacement(*self.offsets.at(site.to as usize), site.end);
        self.far = first_far(self.far, site, distance);
        push_signed(&mut self.bytes, width(site.kind), distance)
    }

    /// Adds room for a site at the end of the bytes, and lets it wait for its instruction.
    fn wait(&mut self, site: Site) -> Result<(), NoMemory>
        requires linked { IsLinked self.old }
        requires place { site.place ≡ length self.old.bytes }
        requires to { site.to < length self.old.latest }
        requires later { length self.old.offsets ≤ site.to }
        requires some { 0 < site_size site }
        ensures linked { OnOk result (IsLinked self.new) }
        ensures kept { OnOk result (IsKept self.old self.new) }
        ensures grown { OnOk result (length self.new.bytes ≡ length self.old.bytes + site_size site) }
        ensures draft { (code : List Ins) (done : ℕ) (want : List ℕ) → IsDraft (from_on (length self.old.offsets)) code done want self.old → (site.kind ≡ kinds.Branch8 → IsShort code site.at site.to site.end) → OnOk result (IsDraft (from_on (length self.old.offsets)) code done (want ++ site_bytes (offsets_of code) site) self.new) }
        ensures watched { OnOk result ((code : List Ins) → site.kind ≡ kinds.Branch8 → IsWatched (from_on (length self.old.offsets)) code self.new.sites self.new.far site.at site.to) }
    {
        let number = self.sites.len() as u32;
        let to = site.to as usize;
        let before = *self.latest.at(to);
        push_number(&mut self.bytes, width(site.kind), 0)?;
        self.sites.push(Site { before, ..site })?;
        self.latest.set(to, Some(number));
        Ok(())
    }
}

/// Nothing waits for any of so many instructions.
fn wait_for_none(latest: &mut Items<Option<u32>>, count: usize) -> Result<(), NoMemory>
    ensures count { OnOk result (length latest.new ≡ count) }
    ensures none { OnOk result (All (λ o. o ≡ None) latest.new) }
{
    latest.truncate(0);
    latest.reserve(count)?;
    for _ in 0..count {
        latest.push(None)?;
    }
    Ok(())
}
