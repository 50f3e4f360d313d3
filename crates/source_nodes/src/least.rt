//! The less of two tokens.

ghost use Rattle.std.specs.Prelude.{◌≡◌, nat_lt, if◌then◌else◌};
ghost use Rattle.source_nodes.specs.Least.{sooner};

/// The less of two tokens, where there are any.
pub fn sooner(first: Option<u32>, second: Option<u32>) -> Option<u32>
    ensures { result ≡ sooner first second }
{
    match (first, second) {
        (None, other) => other,
        (Some(k), None) => Some(k),
        (Some(k), Some(other)) => Some(less(k, other)),
    }
}

fn less(first: u32, second: u32) -> u32
    ensures { result ≡ (if nat_lt second first then second else first) }
{
    if second < first { second } else { first }
}
