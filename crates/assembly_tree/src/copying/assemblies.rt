ghost use Rattle.std.specs.Prelude.{◌≡◌, IfOk};

use crate::{ExternAssembly, Layout, Manifest, MethodPath};
use il_lists::{Copies, NoMemory, four, six};
use std::alloc::Global;

impl Copies for ExternAssembly {
    fn copy(&self, alloc: Global) -> Result<ExternAssembly, NoMemory> {
        let (name, key, culture, hash) = four(
            &self.name,
            &self.key,
            &self.culture,
            &self.hash,
            alloc,
        )?;
        Ok(ExternAssembly {
            name,
            version: self.version,
            flags: self.flags,
            key,
            culture,
            hash,
        })
    }
}

impl Copies for Manifest {
    fn copy(&self, alloc: Global) -> Result<Manifest, NoMemory> {
        let (name, key, culture, module, attributes, module_attributes) = six(
            &self.name,
            &self.key,
            &self.culture,
            &self.module,
            &self.attributes,
            &self.module_attributes,
            alloc,
        )?;
        Ok(Manifest {
            name,
            version: self.version,
            flags: self.flags,
            key,
            culture,
            hash: self.hash,
            module,
            image_base: self.image_base,
            file_alignment: self.file_alignment,
            stack_reserve: self.stack_reserve,
            subsystem: self.subsystem,
            cor_flags: self.cor_flags,
            attributes,
            module_attributes,
        })
    }
}

impl Copies for Layout {
    fn copy(&self, _alloc: Global) -> Result<Layout, NoMemory> {
        Ok(*self)
    }
}

impl Copies for MethodPath {
    fn copy(&self, alloc: Global) -> Result<MethodPath, NoMemory> {
        let types = self.types.copy(alloc)?;
        Ok(MethodPath {
            types,
            method: self.method,
        })
    }
}
