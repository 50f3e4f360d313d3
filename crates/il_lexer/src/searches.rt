//! How many bytes stand before the first one of a kind, sixteen looked at together.

ghost use Rattle.std.specs.Prelude.{◌≡◌, ◌+◌, ◌≤◌, not, length, IfSome, MatchOption};
ghost use Rattle.il_lexer.specs.Runs.{front};
ghost use Rattle.il_lexer.specs.Kinds.{is_among};

/// A kind of byte.
pub trait Kind {
    ghost use Rattle.std.specs.Prelude.{ℕ, Bool};

    ghost is_kind: { Self → ℕ → Bool };

    /// Whether a byte is of the kind.
    fn has(&self, byte: u8) -> bool
        ensures { result ≡ is_kind self.now byte };
}

/// The bytes before the first one of the kind, or all.
pub fn before<K: Kind>(kind: &K, rest: &[u8]) -> usize
    ensures value { result ≡ front (λ c. not (K.is_kind kind.now c)) rest.now }
    ensures fits { result ≤ length rest.now }
{
    let mut tail = rest;
    let mut at = 0;
    while let Some(more) = past_sixteen(kind, tail) {
        tail = more;
        at += 16;
    }
    at + before_singly(kind, tail)
}

// The same, byte by byte.
fn before_singly<K: Kind>(kind: &K, rest: &[u8]) -> usize
    ensures value { result ≡ front (λ c. not (K.is_kind kind.now c)) rest.now }
    ensures fits { result ≤ length rest.now }
{
    let mut tail = rest;
    let mut at = 0;
    while let Some(more) = past_one(kind, tail) {
        tail = more;
        at += 1;
    }
    at
}

// The bytes behind the first, where this isn't of the kind.
#[tactic(auto, using(crate::proofs::SearchLemmas::one_on))]
fn past_one<'a, K: Kind>(kind: &K, bytes: &'a [u8]) -> Option<&'a [u8]>
    ensures { MatchOption result (front (λ c. not (K.is_kind kind.now c)) bytes.now ≡ 0) (λ more. (front (λ c. not (K.is_kind kind.now c)) bytes.now ≡ 1 + front (λ c. not (K.is_kind kind.now c)) more.now) × (length bytes.now ≡ 1 + length more.now)) }
{
    let [first, more @ ..] = bytes else {
        return None;
    };
    if kind.has(*first) { None } else { Some(more) }
}

// The bytes behind the first sixteen, where none of these is of the kind. All sixteen are looked at, so that it is done
// at one stroke.
#[tactic(auto, using(crate::proofs::SearchLemmas::eight_on))]
fn past_sixteen<'a, K: Kind>(kind: &K, bytes: &'a [u8]) -> Option<&'a [u8]>
    ensures passed { IfSome result (λ more. front (λ c. not (K.is_kind kind.now c)) bytes.now ≡ 16 + front (λ c. not (K.is_kind kind.now c)) more.now) }
    ensures fewer { IfSome result (λ more. length bytes.now ≡ 16 + length more.now) }
{
    let [a, b, c, d, e, f, g, h, i, j, k, l, m, n, o, p, more @ ..] = bytes else {
        return None;
    };
    let front = is_among(kind, *a, *b, *c, *d, *e, *f, *g, *h);
    let back = is_among(kind, *i, *j, *k, *l, *m, *n, *o, *p);
    if front || back { None } else { Some(more) }
}

// Whether one of eight bytes is of the kind.
fn is_among<K: Kind>(kind: &K, a: u8, b: u8, c: u8, d: u8, e: u8, f: u8, g: u8, h: u8) -> bool
    ensures { result ≡ is_among (K.is_kind kind.now) a b c d e f g h }
{
    kind.has(a)
        || kind.has(b)
        || kind.has(c)
        || kind.has(d)
        || kind.has(e)
        || kind.has(f)
        || kind.has(g)
        || kind.has(h)
}
