ghost use Rattle.std.specs.Prelude.{◌≡◌, ◌<◌};
ghost use Rattle.opcode_table.specs.Lookup.{hash_from, candidate};

// A hash of 16 bits.
fn hash(word: &[u8]) -> usize
    ensures value { result ≡ hash_from 0 word.now }
    ensures below { result < 65536 }
{
    let mut hash = 0;
    for byte in word {
        hash = (hash * 15 + *byte as usize) % 65536;
    }
    hash
}

/// The only place at which `word` can stand in a table of words, by the shifts and slots of its perfect hash: the
/// shift of the hash's low seven bits is added to its high nine bits, and the slot there holds the place.
pub fn candidate(shifts: &[u8; 128], slots: &[u16; 512], word: &[u8]) -> usize
    ensures { result ≡ candidate shifts.now slots.now word.now }
{
    let hash = hash(word);
    let shift = shifts[hash % 128] as usize;
    slots[(hash / 128 + shift) % 512] as usize
}
