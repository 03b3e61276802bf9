// A set of numbers in words of 64 bits: number n is bit n mod 64 of word n div 64.
ghost use Rattle.std.specs.Prelude.{◌≡◌, ℕ, ◌/◌, ◌<◌, ◌||◌, length, ◌==◌};
ghost use Rattle.words.specs.Members.{has_number, with_number};

// Whether the set has the number; none beyond the words is in it.
pub fn has(words: &[u64], n: usize) -> bool
    ensures { result ≡ has_number words.now n }
{
    words
        .get(n / 64)
        .is_some_and(|word| word >> (n % 64) & 1 == 1)
}

// Puts the number into the set; one beyond the words changes nothing.
pub fn add(words: &mut [u64], n: usize)
    ensures after { words.new ≡ with_number words.old n }
    ensures only { n / 64 < length words.old → (k : ℕ) → has_number words.new k ≡ (k == n || has_number words.old k) }
{
    let word = n / 64;
    // `get_mut` with `if let` loses in the proof what was written, so the word is named by its index.
    if word < words.len() {
        words[word] |= 1 << (n % 64);
    }
}
