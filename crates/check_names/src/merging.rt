//! The first of what several rules of one class find broken.

ghost use Rattle.std.specs.Prelude.{◌≡◌, ℕ, List, if◌then◌else◌};
ghost use Rattle.source_model.specs.Faults.{earlier, earliest, is_before, rule_at};
ghost use Rattle.check_names.specs.Breaches.{any_broken, broken_of};
ghost use Rattle.source_nodes.specs.Least.{least};

/// A rule, by its number in its class, is broken at a token.
#[derive(Debug, Clone, Copy, PartialEq, Eq, Drop)]
pub struct Breach {
    pub token: u32,
    pub rule: u8,
}

/// The first of what is broken by one rule, from the least of its tokens.
pub fn of_rule(rule: u8, token: Option<u32>) -> Option<Breach>
    ensures { (ks : List ℕ) → token ≡ least ks → any_broken result ≡ earliest (rule_at rule ks) }
{
    match token {
        None => None,
        Some(token) => Some(Breach { token, rule }),
    }
}

/// The first of two: the one at the lesser token, and of two at one token that of the lesser rule.
pub fn earlier(first: Option<Breach>, second: Option<Breach>) -> Option<Breach>
    ensures { any_broken result ≡ earlier (any_broken first) (any_broken second) }
{
    match (first, second) {
        (None, other) => other,
        (Some(x), None) => Some(x),
        (Some(x), Some(y)) => Some(first_of(x, y)),
    }
}

fn first_of(x: Breach, y: Breach) -> Breach
    ensures { broken_of result ≡ (if is_before (broken_of y) (broken_of x) then broken_of y else broken_of x) }
{
    if is_before(&y, &x) { y } else { x }
}

fn is_before(x: &Breach, y: &Breach) -> bool
    ensures { result ≡ is_before (broken_of x.now) (broken_of y.now) }
{
    x.token < y.token || (x.token == y.token && x.rule < y.rule)
}
