ghost use Rattle.std.specs.Prelude.{◌≡◌, ◌≤◌, ◌<◌, ℕ, length};
ghost use Rattle.section_map.specs.Steps.{AreRising, IsReached, first_before, value_of};

/// The number that stands for no section: an image has fewer.
pub(crate) const NONE: u32 = 0x1_0000;

/// From an address on, up to the next step, a section is the first that holds each address; or none is.
#[derive(Debug, Clone, Copy, Drop)]
pub(crate) struct Step {
    /// The address.
    pub(crate) from: u64,
    /// The number of the section, or `NONE`.
    pub(crate) first: u32,
}

/// The section that is told of an address by steps that rise.
pub(crate) fn first_at(steps: &[Step], address: u32) -> u32
    requires { AreRising steps.now }
    ensures { result ≡ value_of steps.now address }
{
    first_before(steps, reached(steps, u64::from(address)))
}

/// How many steps an address has reached.
fn reached(steps: &[Step], address: u64) -> usize
    requires { AreRising steps.now }
    ensures { IsReached steps.now address result }
{
    let mut low = 0;
    let mut high = steps.len();
    while low < high {
        let middle = low + (high - low) / 2;
        if steps[middle].from <= address {
            low = middle + 1;
        } else {
            high = middle;
        }
    }
    low
}

/// The section that the last of the first `count` steps tells, or `NONE`.
pub(crate) fn first_before(steps: &[Step], count: usize) -> u32
    requires { count ≤ length steps.now }
    ensures { result ≡ first_before steps.now count }
{
    if count == 0 {
        return NONE;
    }
    steps[count - 1].first
}
