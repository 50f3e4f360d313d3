//! Places of bytes, from line to line.

ghost use Rattle.std.specs.Prelude.{◌≡◌, ◌+◌, ◌<◌, ◌≤◌, ◌^◌, length};
ghost use Rattle.il_lexer.specs.Lexing.{place_of, IsLine};
ghost use Rattle.il_base.specs.declared.pos.Pos.{Pos};

use crate::bytes::behind;
use crate::gaps::line_length;
use il_base::Pos;

/// A line of a source: its number, its first byte, and its line feed or the source's end.
#[derive(Clone, Copy, Drop)]
pub struct Line {
    pub number: u32,
    pub start: usize,
    pub end: usize,
}

// The line that begins at `start`.
fn line_from(source: &[u8], number: u32, start: usize) -> Line
    requires short { length source.now ≤ 2 ^ 27 }
    requires within { start ≤ length source.now }
    requires begins { place_of source.now start ≡ record { line = number; col = 1 } }
    ensures is { IsLine source.now result }
    ensures starts { result.start ≡ start }
{
    Line {
        number,
        start,
        end: start + line_length(behind(source, start)),
    }
}

/// The first line.
#[tactic(auto, unfolding(crate::specs::Lexing::place_of))]
pub fn first_line(source: &[u8]) -> Line
    requires short { length source.now ≤ 2 ^ 27 }
    ensures is { IsLine source.now result }
    ensures starts { result.start ≡ 0 }
{
    line_from(source, 1, 0)
}

// The line behind a line feed.
fn next_line(source: &[u8], line: Line) -> Line
    requires short { length source.now ≤ 2 ^ 27 }
    requires here { IsLine source.now line }
    requires more { line.end < length source.now }
    ensures is { IsLine source.now result }
    ensures starts { result.start ≡ line.end + 1 }
{
    line_from(source, line.number + 1, line.end + 1)
}

/// The place of the byte at `to`, to whose line `line` goes on.
pub fn place_on(source: &[u8], line: &mut Line, to: usize) -> Pos
    requires short { length source.now ≤ 2 ^ 27 }
    requires here { IsLine source.now line.old }
    requires order { line.old.start ≤ to }
    requires within { to ≤ length source.now }
    ensures value { result ≡ place_of source.now to }
    ensures is { IsLine source.now line.new }
    ensures starts { line.new.start ≤ to }
{
    while line.end < to {
        *line = next_line(source, *line);
    }
    Pos {
        line: line.number,
        col: (to - line.start) as u32 + 1,
    }
}

/// The place of the byte at `to`, to whose line `line` goes on or, where it stands before that, goes from the first line. Behind
/// the source's last byte there is only the source's end.
pub fn place_from(source: &[u8], line: &mut Line, to: usize) -> Pos
    requires short { length source.now ≤ 2 ^ 27 }
    requires here { IsLine source.now line.old }
    ensures value { result ≡ place_of source.now to }
    ensures is { IsLine source.now line.new }
{
    let within = to.min(source.len());
    if within < line.start {
        *line = first_line(source);
    }
    place_on(source, line, within)
}

/// The place of the byte at `at`, or of the source's end behind its last one. It asks at most 2^27 bytes. It walks over the source
/// from its front: it is for a fault, not for each token.
pub fn place_of(source: &[u8], at: usize) -> Pos
    requires { length source.now ≤ 2 ^ 27 }
    ensures { result ≡ place_of source.now at }
{
    let mut line = first_line(source);
    place_from(source, &mut line, at)
}
