ghost use Rattle.std.specs.Prelude.{◌≡◌};
ghost use Rattle.signature_verdicts.specs.Judging.{judged, judged_blob, judged_type, judged_method, judged_locals, judged_list};

use crate::{Kind, Verdict};
use heaps::blob_at;
use image_streams::Image;
use signature_facts::{
    Facts, ListFacts, MethodFacts, Owners, scan_field, scan_instantiation, scan_locals,
    scan_method, scan_property, scan_type,
};

/// The largest number of dimensions of an array.
const MAX_RANK: u32 = 32;

/// The largest number of generic parameters, of parameters and of locals.
const MAX_COUNT: u32 = 65_535;

/// The verdict on a signature that isn't spelled.
const DAMAGED: Verdict = Verdict {
    is_spelled: false,
    is_bounded: false,
    has_sentinel: false,
};

/// The verdict on the signature at an index of `#Blob`, read as this kind.
pub(crate) fn judge<O: Owners>(image: &Image<'_>, owners: &O, kind: Kind, index: u32) -> Verdict
    ensures { result ≡ judged image.now (O.facts owners.now) kind index }
{
    match blob_at(image.blobs(), index) {
        None => DAMAGED,
        Some(blob) => judge_blob(owners, kind, blob),
    }
}

/// The verdict on the bytes of a signature.
fn judge_blob<O: Owners>(owners: &O, kind: Kind, blob: &[u8]) -> Verdict
    ensures { result ≡ judged_blob (O.facts owners.now) kind blob.now }
{
    match kind {
        Kind::Type => judge_type(scan_type(blob, owners)),
        Kind::Field => judge_type(scan_field(blob, owners)),
        Kind::Method => judge_method(scan_method(blob, owners)),
        Kind::Property => judge_method(scan_property(blob, owners)),
        Kind::Locals => judge_locals(scan_locals(blob, owners)),
        Kind::Instantiation => judge_list(scan_instantiation(blob, owners)),
    }
}

fn judge_type(facts: Option<Facts>) -> Verdict
    ensures { result ≡ judged_type facts }
{
    match facts {
        None => DAMAGED,
        Some(facts) => Verdict {
            is_spelled: true,
            is_bounded: facts.rank <= MAX_RANK,
            has_sentinel: false,
        },
    }
}

fn judge_method(facts: Option<MethodFacts>) -> Verdict
    ensures { result ≡ judged_method facts }
{
    match facts {
        None => DAMAGED,
        Some(of) => Verdict {
            is_spelled: true,
            is_bounded: of.generic <= MAX_COUNT
                && of.params <= MAX_COUNT
                && of.facts.rank <= MAX_RANK,
            has_sentinel: of.has_sentinel,
        },
    }
}

fn judge_locals(facts: Option<ListFacts>) -> Verdict
    ensures { result ≡ judged_locals facts }
{
    match facts {
        None => DAMAGED,
        Some(of) => Verdict {
            is_spelled: true,
            is_bounded: of.count <= MAX_COUNT && of.facts.rank <= MAX_RANK,
            has_sentinel: false,
        },
    }
}

fn judge_list(facts: Option<ListFacts>) -> Verdict
    ensures { result ≡ judged_list facts }
{
    match facts {
        None => DAMAGED,
        Some(of) => Verdict {
            is_spelled: true,
            is_bounded: of.facts.rank <= MAX_RANK,
            has_sentinel: false,
        },
    }
}
