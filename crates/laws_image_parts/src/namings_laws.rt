//! Laws of what the tokens of members and texts name, for the proofs of crates above. None of these functions does anything when
//! it is called.
ghost use Rattle.laws_image_parts.specs.namings.Members.{FieldsAreRead, MethodsAreRead};
ghost use Rattle.laws_image_parts.specs.namings.Namings.{NamingsAreRead};
ghost use Rattle.laws_image_parts.specs.namings.Texts.{TextsAreRead};

use crate::laws::{rows_are_read, runs_are_read};
use crate::names_laws::{
    locals_are_read, members_are_owned, owners_are_read, parents_are_read, paths_are_read,
};
use heaps::one_content_at_an_index;
use metadata_tables::indexes_fit;
use sig_codec::{bytes_spell_one_signature, shortest_is_read, written_is_read};

/// Tokens of user strings name the texts that they were given to, and each other token names none (ECMA-335 II.24.2.4, III.1.9).
pub fn texts_are_read()
    ensures { TextsAreRead }
{
    one_content_at_an_index();
}

/// Tokens of Field, and of MemberRef with a field's signature, name the fields that they were given to, and each other token
/// names none (ECMA-335 II.22.15, II.22.25).
pub fn fields_are_read()
    ensures { FieldsAreRead }
{
    one_content_at_an_index();
    written_is_read();
    shortest_is_read();
    bytes_spell_one_signature();
    indexes_fit();
    rows_are_read();
    runs_are_read();
    paths_are_read();
    members_are_owned();
    parents_are_read();
}

/// Tokens of MethodDef, of MemberRef with a method's signature and of MethodSpec name the methods that they were given to, and
/// each other token names none (ECMA-335 II.22.25, II.22.26, II.22.29).
pub fn methods_are_read()
    ensures { MethodsAreRead }
{
    one_content_at_an_index();
    written_is_read();
    shortest_is_read();
    bytes_spell_one_signature();
    indexes_fit();
    rows_are_read();
    runs_are_read();
    paths_are_read();
    members_are_owned();
    parents_are_read();
}

/// One namer tells exactly what the tokens of the image name, and gives back all that was given one (ECMA-335 II.22, III.1.9).
pub fn namings_are_read()
    ensures { NamingsAreRead }
{
    owners_are_read();
    locals_are_read();
    texts_are_read();
    fields_are_read();
    methods_are_read();
}
