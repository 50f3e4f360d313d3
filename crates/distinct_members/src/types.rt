ghost use Rattle.std.specs.Prelude.{◌≡◌, ◌↔◌, ℕ, IsTrue};
ghost use Rattle.image_model.specs.Rows.{count_of, HasRow};
ghost use Rattle.image_model.specs.Structure.{HasScopes};
ghost use Rattle.name_numbers.specs.Names.{number_at};
ghost use Rattle.row_demands.specs.Structured.{MeetStructure};

use image_streams::Image;
use row_twins::Likeness;
use type_names::TypeNames;

/// Types are alike where they have one path.
#[derive(Drop)]
pub(crate) struct Types<'k, 'a> {
    pub(crate) image: &'k Image<'a>,
    pub(crate) names: &'k TypeNames<'k, 'a>,
}

impl<'k, 'a> Likeness for Types<'k, 'a> {
    ghost use Rattle.std.specs.Prelude.{◌≡◌, ℕ};
    ghost use Rattle.image_model.specs.Structure.{HasScopes};
    ghost use Rattle.row_demands.specs.Structured.{MeetStructure};
    ghost use Rattle.image_model.specs.Members.{HaveOnePath};
    ghost use Rattle.image_model.specs.Rows.{count_of};
    ghost use Rattle.name_numbers.specs.Names.{number_at};

    ghost ready = { λ it. (it.names.now.image ≡ it.image.now) × MeetStructure it.image.now × ((table row : ℕ) → HasScopes it.image.now table row) };

    ghost rows = { λ it. count_of it.image.now 0x02 };

    ghost alike = { λ it one other. HaveOnePath it.image.now one other };

    ghost hashed = { λ it row hash. hash ≡ number_at it.names.now.named row };

    fn count(&self) -> u32 {
        self.image.tables().rows(0x02)
    }

    fn hash_of(&self, row: u32) -> u64 {
        u64::from(number_of(self.image, self.names, row))
    }

    fn are_alike(&self, one: u32, other: u32) -> bool {
        self.names.tell_names();
        number_of(self.image, self.names, one) == number_of(self.image, self.names, other)
    }

    fn alike_are_hashed_alike(&self) {
        self.names.tell_names();
    }
}

/// The number of a type, which has one.
fn number_of(image: &Image<'_>, names: &TypeNames<'_, '_>, row: u32) -> u32
    requires same { names.now.image ≡ image.now }
    requires there { HasRow image.now 0x02 row }
    requires meets { MeetStructure image.now }
    requires scopes { (table row : ℕ) → HasScopes image.now table row }
    ensures { result ≡ number_at names.now.named row }
{
    let _image = image;
    names.tell_names();
    match names.of_type(row) {
        Some(number) => number,
        None => 0,
    }
}
