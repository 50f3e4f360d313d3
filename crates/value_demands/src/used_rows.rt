ghost use Rattle.std.specs.Prelude.{◌↔◌, IsTrue};
ghost use Rattle.image_model.specs.Rows.{HasRow};
ghost use Rattle.image_model.specs.Used.{IsUsed};

/// Which rows of MethodSpec are used (II.22.29).
pub trait UsedRows {
    ghost use Rattle.std.specs.Prelude.{ℕ, List};

    /// The image whose rows they are.
    ghost image: { Self → List ℕ };

    /// Whether a row of MethodSpec is used.
    fn is_instance_used(&self, row: u32) -> bool
        requires { HasRow (image self.now) 0x2B row }
        ensures { IsTrue result ↔ IsUsed (image self.now) 0x2B row };
}
