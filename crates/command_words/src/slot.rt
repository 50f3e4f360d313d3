//! Words by themselves.
ghost use Rattle.std.specs.Prelude.{◌≡◌, false, codes, slice_index};
ghost use Rattle.std.specs.Str.{bytes_eq};
ghost use Rattle.command_words.specs.Words.{slot_of, is_slot, same_slot};

/// What a word behind a command is.
#[derive(Clone, Copy)]
pub(crate) enum Slot {
    /// A name of a file.
    File,
    /// `-dll` or `-exe`.
    Kind,
    /// `-output=NAME`.
    Output,
    /// `-optimize`.
    Optimize,
}

/// What a word is, where it is something.
#[tactic(auto, unfolding(crate::specs::Words::slot_of))]
pub(crate) fn slot_of(word: &str) -> Option<Slot>
    ensures { result ≡ slot_of word.now }
{
    if word.as_bytes().first() != Some(&b'-') {
        return Some(Slot::File);
    }
    if word == "-dll" {
        return Some(Slot::Kind);
    }
    if word == "-exe" {
        return Some(Slot::Kind);
    }
    if word == "-optimize" {
        return Some(Slot::Optimize);
    }
    output_named(word)
}

/// What a word is that begins with `-`, says no kind and asks for no short branches.
#[tactic(auto, unfolding(crate::specs::Words::slot_of))]
fn output_named(word: &str) -> Option<Slot>
    requires begins { slice_index word.now 0 ≡ 45 }
    requires no_dll { bytes_eq word.now (codes "-dll") ≡ false }
    requires no_exe { bytes_eq word.now (codes "-exe") ≡ false }
    requires no_optimize { bytes_eq word.now (codes "-optimize") ≡ false }
    ensures { result ≡ slot_of word.now }
{
    match word.strip_prefix("-output=") {
        Some(name) => {
            if name.is_empty() {
                None
            } else {
                Some(Slot::Output)
            }
        }
        None => None,
    }
}

/// Whether a word is of this kind.
pub(crate) fn is_slot(slot: Slot, word: &str) -> bool
    ensures { result ≡ is_slot slot word.now }
{
    match slot_of(word) {
        Some(found) => same_slot(found, slot),
        None => false,
    }
}

/// Whether the kinds are the same.
fn same_slot(a: Slot, b: Slot) -> bool
    ensures { result ≡ same_slot a b }
{
    match a {
        Slot::File => matches!(b, Slot::File),
        Slot::Kind => matches!(b, Slot::Kind),
        Slot::Output => matches!(b, Slot::Output),
        Slot::Optimize => matches!(b, Slot::Optimize),
    }
}
