//! What references keep, whatever was referred to.
ghost use Rattle.laws_image_parts.specs.tidiness.Distinct.{HasDistinctContents, HasDistinctRows};

use image_tokens::references::References;

/// Each index of a heap that is in use has a content, and no content and no row of references stands twice. It changes nothing.
pub fn references_are_distinct(refs: &References<'_>)
    ensures contents { HasDistinctContents refs.now }
    ensures rows { HasDistinctRows refs.now }
{
    let _strings = refs.heaps.strings.bytes();
    let _blobs = refs.heaps.blobs.bytes();
    let _user = refs.heaps.user.bytes();
    let _names = refs.referred.names.len();
    let _members = refs.referred.members.len();
    let _locals = refs.referred.locals.len();
    let _specs = refs.referred.specs.len();
    let _instances = refs.referred.instances.len();
}
