//! Members that are the same (ECMA-335 II.22.15, II.22.26, II.22.34, II.23.2.1).

ghost use Rattle.std.specs.Prelude.{◌≡◌};
ghost use Rattle.check_members.specs.SameMembers.{is_same_member};

use crate::member_sets::Member;
use type_terms::equality::is_same_signature;

/// Whether two members have the same name and the same signature.
pub fn is_same_member(member: &Member, other: &Member) -> bool
    ensures { result ≡ is_same_member member.now other.now }
{
    member.name.as_bytes() == other.name.as_bytes() && is_same_signature(&member.sig, &other.sig)
}
