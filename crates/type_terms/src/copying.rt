ghost use Rattle.std.specs.Prelude.{◌≡◌, IfOk};

use crate::{FieldRef, MethodRef, MethodSig, Owner, SigType, TypeId, TypeName, Types};
use il_lists::{Boxed, Copies, Items, NoMemory, four, three, two};
use std::alloc::Global;

impl Copies for TypeId {
    fn copy(&self, alloc: Global) -> Result<TypeId, NoMemory> {
        let (space, name) = two(&self.space, &self.name, alloc)?;
        Ok(TypeId { space, name })
    }
}

impl Copies for TypeName {
    fn copy(&self, alloc: Global) -> Result<TypeName, NoMemory> {
        let path = self.path.copy(alloc)?;
        Ok(TypeName {
            scope: self.scope,
            path,
        })
    }
}

impl Copies for SigType {
    fn copy(&self, alloc: Global) -> Result<SigType, NoMemory> {
        self.copied(alloc)
    }
}

impl Copies for Owner {
    fn copy(&self, alloc: Global) -> Result<Owner, NoMemory> {
        self.copied(alloc)
    }
}

impl SigType {
    /// An equal type of its own.
    #[cycle(copied)]
    fn copied(&self, alloc: Global) -> Result<SigType, NoMemory>
        ensures { IfOk result (λ c. c ≡ self.now) }
    {
        match self {
            SigType::Prim(prim) => Ok(SigType::Prim(*prim)),
            SigType::Class(name) => {
                let name = name.copy(alloc)?;
                Ok(SigType::Class(name))
            }
            SigType::Value(name) => {
                let name = name.copy(alloc)?;
                Ok(SigType::Value(name))
            }
            SigType::Inst { value, name, args } => {
                let name = name.copy(alloc)?;
                let args = SigType::copied_all(args.get().as_slice(), alloc)?;
                let args = Boxed::new(alloc, args)?;
                Ok(SigType::Inst {
                    value: *value,
                    name,
                    args,
                })
            }
            SigType::Var(number) => Ok(SigType::Var(*number)),
            SigType::MVar(number) => Ok(SigType::MVar(*number)),
            SigType::SzArray(of) => {
                let of = SigType::copied_box(of, alloc)?;
                Ok(SigType::SzArray(of))
            }
            SigType::Array {
                of,
                rank,
                sizes,
                lower,
            } => {
                let of = SigType::copied_box(of, alloc)?;
                let sizes = sizes.copy(alloc)?;
                let lower = lower.copy(alloc)?;
                Ok(SigType::Array {
                    of,
                    rank: *rank,
                    sizes,
                    lower,
                })
            }
            SigType::ByRef(of) => {
                let of = SigType::copied_box(of, alloc)?;
                Ok(SigType::ByRef(of))
            }
            SigType::Pointer(of) => {
                let of = SigType::copied_box(of, alloc)?;
                Ok(SigType::Pointer(of))
            }
            SigType::Mod { required, by, of } => {
                let by = by.get().copied(alloc)?;
                let by = Boxed::new(alloc, by)?;
                let of = SigType::copied_box(of, alloc)?;
                Ok(SigType::Mod {
                    required: *required,
                    by,
                    of,
                })
            }
            SigType::Pinned(of) => {
                let of = SigType::copied_box(of, alloc)?;
                Ok(SigType::Pinned(of))
            }
        }
    }

    #[cycle(copied)]
    fn copied_box(of: &Boxed<SigType>, alloc: Global) -> Result<Boxed<SigType>, NoMemory>
        ensures { IfOk result (λ c. c ≡ of.now) }
    {
        let of = of.get().copied(alloc)?;
        Boxed::new(alloc, of)
    }

    #[cycle(copied)]
    fn copied_all(types: &[SigType], alloc: Global) -> Result<Types, NoMemory>
        ensures { IfOk result (λ c. c ≡ types.now) }
    {
        let mut copies = Items::with_capacity(alloc, types.len())?;
        for of in types {
            let of = of.copied(alloc)?;
            copies.push(of)?;
        }
        Ok(copies)
    }
}

impl Owner {
    /// An equal owner of its own.
    #[cycle(copied)]
    fn copied(&self, alloc: Global) -> Result<Owner, NoMemory>
        ensures { IfOk result (λ c. c ≡ self.now) }
    {
        match self {
            Owner::Name(name) => {
                let name = name.copy(alloc)?;
                Ok(Owner::Name(name))
            }
            Owner::Spec(of) => {
                let of = of.copied(alloc)?;
                Ok(Owner::Spec(of))
            }
        }
    }
}

impl Copies for MethodSig {
    fn copy(&self, alloc: Global) -> Result<MethodSig, NoMemory> {
        let (ret, params) = two(&self.ret, &self.params, alloc)?;
        Ok(MethodSig {
            has_this: self.has_this,
            explicit_this: self.explicit_this,
            vararg: self.vararg,
            generic: self.generic,
            ret,
            params,
            sentinel: self.sentinel,
        })
    }
}

impl Copies for MethodRef {
    fn copy(&self, alloc: Global) -> Result<MethodRef, NoMemory> {
        let (owner, name, sig, args) = four(&self.owner, &self.name, &self.sig, &self.args, alloc)?;
        Ok(MethodRef {
            owner,
            name,
            sig,
            args,
        })
    }
}

impl Copies for FieldRef {
    fn copy(&self, alloc: Global) -> Result<FieldRef, NoMemory> {
        let (owner, name, of) = three(&self.owner, &self.name, &self.of, alloc)?;
        Ok(FieldRef { owner, name, of })
    }
}
