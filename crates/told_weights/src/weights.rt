ghost use Rattle.std.specs.Prelude.{◌≡◌};

/// What is told of the weights of what the rows of an image name. Each number is the weight where it is below 2^27, and that or more
/// where the weight is; no call takes memory, so what is dear to tell is found beforehand.
pub trait RowWeights {
    ghost use Rattle.told_weights.specs.Told.{Told};

    /// The numbers that it tells.
    ghost told: { Self → Told };

    /// That of the type that a row of TypeDef, TypeRef or TypeSpec is.
    fn owner(&self, table: u8, row: u32) -> u64
        ensures { result ≡ (told self.now).owner table row };

    /// That of the method that a row of MethodDef, MemberRef or MethodSpec is.
    fn method(&self, table: u8, row: u32) -> u64
        ensures { result ≡ (told self.now).method table row };

    /// That of the type of a field.
    fn field(&self, row: u32) -> u64
        ensures { result ≡ (told self.now).field row };

    /// That of the signature of a method.
    fn signature(&self, row: u32) -> u64
        ensures { result ≡ (told self.now).signature row };

    /// That of the signature of a property.
    fn property(&self, row: u32) -> u64
        ensures { result ≡ (told self.now).property row };

    /// That of the body of a method; 0 where it has none.
    fn body(&self, row: u32) -> u64
        ensures { result ≡ (told self.now).body row };
}
