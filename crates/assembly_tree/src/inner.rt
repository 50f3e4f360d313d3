ghost use Rattle.std.specs.Prelude.{◌≡◌};
ghost use Rattle.assembly_tree.specs.declared.typedef.TypeDef.TheViews.{out-TypeDef};

use crate::TypeDef;

impl TypeDef {
    /// The types that it nests.
    pub(crate) fn inner(&self) -> &[TypeDef]
        ensures { result.now ≡ (out-TypeDef self.now).nested }
    {
        self.nested.as_slice()
    }
}
