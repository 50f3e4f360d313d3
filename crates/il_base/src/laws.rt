ghost use Rattle.std.specs.Prelude.{◌≡◌, ◌⊎◌, ◌^◌, ◌<◌, ◌++◌, ◌≤ℤ◌, ℕ, ℤ, List, length, All};
ghost use Rattle.il_base.specs.Numbers.{Packed, PackedSigned, StandsAt, IsShortest, packed_bytes, packed_length, packed_signed_bytes, packed_signed_length, least_signed, greatest_signed};

/// No packed spelling begins another, and none spells two numbers: of one list of bytes, one front at most is a packed
/// spelling, and of one number.
pub fn no_packed_begins_another()
    ensures { (front other after beyond : List ℕ) (n m : ℕ) → front ++ after ≡ other ++ beyond → Packed front n → Packed other m → (front ≡ other) × (n ≡ m) × (after ≡ beyond) }
{}

/// The same of signed packed spellings.
pub fn no_packed_signed_begins_another()
    ensures { (front other after beyond : List ℕ) (n m : ℤ) → front ++ after ≡ other ++ beyond → PackedSigned front n → PackedSigned other m → (front ≡ other) × (n ≡ m) × (after ≡ beyond) }
{}

/// At most one packed number stands at a place, with one length.
pub fn one_packed_stands_at_a_place()
    ensures packed { (bytes : List ℕ) (at n m count other : ℕ) → StandsAt Packed bytes at n count → StandsAt Packed bytes at m other → (n ≡ m) × (count ≡ other) }
    ensures signed { (bytes : List ℕ) (at count other : ℕ) (n m : ℤ) → StandsAt PackedSigned bytes at n count → StandsAt PackedSigned bytes at m other → (n ≡ m) × (count ≡ other) }
{}

/// A packed spelling has 1, 2 or 4 bytes, and its number is below 2^29.
pub fn packed_is_short()
    ensures length { (bytes : List ℕ) (n : ℕ) → Packed bytes n → (length bytes ≡ 1) ⊎ (length bytes ≡ 2) ⊎ (length bytes ≡ 4) }
    ensures bytes { (bytes : List ℕ) (n : ℕ) → Packed bytes n → All (λ b. b < 2 ^ 8) bytes }
    ensures number { (bytes : List ℕ) (n : ℕ) → Packed bytes n → n < 2 ^ 29 }
{}

/// A spelling stands where it was put between other bytes.
pub fn packed_stands_where_put()
    ensures packed { (before front after : List ℕ) (n : ℕ) → Packed front n → StandsAt Packed (before ++ front ++ after) (length before) n (length front) }
    ensures signed { (before front after : List ℕ) (n : ℤ) → PackedSigned front n → StandsAt PackedSigned (before ++ front ++ after) (length before) n (length front) }
{}

/// Each number below 2^29 has a shortest packed spelling.
pub fn each_number_has_a_shortest_spelling()
    ensures spells { (n : ℕ) → n < 2 ^ 29 → Packed (packed_bytes n) n }
    ensures shortest { (n : ℕ) → n < 2 ^ 29 → IsShortest Packed (packed_bytes n) n }
    ensures length { (n : ℕ) → length (packed_bytes n) ≡ packed_length n }
{}

/// Each signed number of 29 bits has a shortest packed spelling.
pub fn each_signed_number_has_a_shortest_spelling()
    ensures spells { (n : ℤ) → least_signed 29 ≤ℤ n → n ≤ℤ greatest_signed 29 → PackedSigned (packed_signed_bytes n) n }
    ensures shortest { (n : ℤ) → least_signed 29 ≤ℤ n → n ≤ℤ greatest_signed 29 → IsShortest PackedSigned (packed_signed_bytes n) n }
    ensures length { (n : ℤ) → length (packed_signed_bytes n) ≡ packed_signed_length n }
{}
