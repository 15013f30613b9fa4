// Three words of 64 bits, and the numbers that they hold.
ghost use Rattle.std.specs.Prelude.{◌≡◌, ◌≢◌, ℕ, ◌<◌, ◌/◌, ◌%◌, ◌^◌, IfSome, ◌&&◌, false, Decides, ◌==◌, nat_lt, slice_index};
ghost use Rattle.fault_set.specs.Members.{tally};
ghost use Rattle.bit_map.specs.Bits.{bit, in_words, IsLowest};

// Whether the bit of n is set.
#[tactic(auto, using(crate::proofs::Digits::bit_read))]
pub(crate) fn holds(words: &[u64; 3], n: u8) -> bool
    requires { n < 192 }
    ensures { result ≡ in_words words.now n }
{
    (words[usize::from(n / 64)] >> (n % 64)) & 1 == 1
}

// What a rule makes of the two words at each place.
pub(crate) fn combine<F: Fn(u64, u64) -> u64>(left: [u64; 3], right: [u64; 3], rule: F) -> [u64; 3]
    requires { F.IsAlwaysCallable rule }
    ensures { (i : ℕ) → i < 3 → F.post rule (slice_index left i) (slice_index right i) (slice_index result i) }
{
    let [a, b, c] = left;
    let [x, y, z] = right;
    [rule(a, x), rule(b, y), rule(c, z)]
}

// Changes the word that n stands in by a rule of that word and of the word with n's bit alone; above 191 there is none.
#[tactic(auto, using(std::proofs::lemmas::Nat::one_shl))]
pub(crate) fn change<F: Fn(u64, u64) -> u64>(words: &mut [u64; 3], n: u8, rule: F)
    requires { F.IsAlwaysCallable rule }
    ensures there { n < 192 → F.post rule (slice_index words.old (n / 64)) (2 ^ (n % 64)) (slice_index words.new (n / 64)) }
    ensures others { (i : ℕ) → (i ≢ n / 64) → slice_index words.new i ≡ slice_index words.old i }
{
    let place = usize::from(n / 64);
    if place < words.len() {
        words[place] = rule(words[place], 1 << (n % 64));
    }
}

// Whether both hold the same.
pub(crate) fn alike(left: &[u64; 3], right: &[u64; 3]) -> bool
    ensures { Decides result ((k : ℕ) → in_words left.now k ≡ in_words right.now k) }
{
    left == right
}

// The lowest number held at or above n.
pub(crate) fn lowest(words: &[u64; 3], n: u8) -> Option<u8>
    ensures low { IfSome result (λ m. m < 192) }
    ensures value { IsLowest (in_words words.now) n result }
{
    let mut from = n;
    for word in &words[usize::from(n / 64)..] {
        let base = from / 64 * 64;
        if let Some(place) = lowest_bit(*word, from % 64) {
            return Some(base + place);
        }
        from = base + 64;
    }
    None
}

// The lowest set bit of a word at or above a place.
#[tactic(auto, using(crate::proofs::Lowest::none_from, crate::proofs::Lowest::least_from, crate::proofs::Lowest::found_from))]
fn lowest_bit(word: u64, from: u8) -> Option<u8>
    ensures low { IfSome result (λ j. j < 64) }
    ensures value { IsLowest (bit word) from result }
{
    let rest = word.checked_shr(u32::from(from))?;
    if rest == 0 {
        None
    } else {
        Some(from + rest.trailing_zeros() as u8)
    }
}

// How many numbers are held.
pub(crate) fn count(words: &[u64; 3]) -> u8
    ensures { result ≡ tally (in_words words.now) 192 }
{
    words.iter().map(|word| word.count_ones()).sum::<u32>() as u8
}
