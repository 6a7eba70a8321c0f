// Words and numbers: a card's words, numbers and their words, and the leaves of document 01 on numbers.
#![tactic(auto)]

ghost use Rattle.std.specs.Prelude.{◌≡◌, ◌++◌, ℕ, ◌+◌, ◌*◌, ◌%◌, ◌≤◌, ◌<◌, length, get_or, drop};
ghost use Rattle.lists.specs.Build.{build};
ghost use Rattle.numbers.specs.Word.{word_at};
ghost use Rattle.numbers.specs.Number.{number, word, finite, positive, abs, max, negative, precedes};
ghost use Rattle.numbers.specs.Slice.{at, numbers_at, words_of, blank, all_finite};

// Word number `place` of the card.
#[tactic(auto, unfolding(crate::specs::Word::word_at, lists::specs::Fold::fold))]
pub fn word_at(card: &[u8], place: usize) -> u64
    requires { place * 8 + 8 ≤ length card.now }
    ensures { result ≡ word_at card.now place }
{
    let b = place * 8;
    u64::from_be_bytes([
        card[b],
        card[b + 1],
        card[b + 2],
        card[b + 3],
        card[b + 4],
        card[b + 5],
        card[b + 6],
        card[b + 7],
    ])
}

// The number that a word holds. Every NaN pattern gives a NaN.
pub fn number_of(w: u64) -> f64
    ensures { result ≡ number w }
{
    if w % 0x8000_0000_0000_0000 > 0x7ff0_0000_0000_0000 {
        f64::NAN
    } else {
        f64::from_bits(w)
    }
}

// The word of a number. A NaN gives the quiet NaN with its sign clear.
pub fn word_of(x: f64) -> u64
    ensures { result ≡ word x }
{
    if x.is_nan() {
        0x7ff8_0000_0000_0000
    } else {
        x.to_bits()
    }
}

// Neither a NaN nor an infinity.
pub fn is_finite(x: f64) -> bool
    ensures { result ≡ finite x }
{
    x.is_finite()
}

// Finite and above zero.
pub fn is_positive(x: f64) -> bool
    ensures { result ≡ positive x }
{
    x.is_finite() & (0.0 < x)
}

// x without its sign, of a zero too. The bits are masked: std's `abs` compares, and with it the pivot's search (crate magnitudes) took a tenth more instructions.
pub fn abs_of(x: f64) -> f64
    ensures { result ≡ abs x }
{
    if x.is_nan() {
        return x;
    }
    f64::from_bits(x.to_bits() % 0x8000_0000_0000_0000)
}

// The larger of x and y: of a NaN and another the other, of zeros of both signs the positive one. std's `max` leaves the sign of that zero open.
#[tactic(auto, using(crate::proofs::Leaves::negative_std), unfolding(crate::specs::Number::max))]
pub fn max_of(x: f64, y: f64) -> f64
    ensures { result ≡ max x y }
{
    if x.is_nan() {
        return y;
    }
    if y.is_nan() {
        return x;
    }
    if x < y {
        return y;
    }
    if y < x {
        return x;
    }
    if x.is_sign_negative() {
        return y;
    }
    x
}

// Whether x comes before y in a sort.
#[tactic(auto, using(crate::proofs::Leaves::negative_std), unfolding(crate::specs::Number::precedes))]
pub fn comes_before(x: f64, y: f64) -> bool
    ensures { result ≡ precedes x y }
{
    if x.is_nan() {
        return false;
    }
    if y.is_nan() {
        return true;
    }
    x.total_cmp(&y).is_lt()
}

// Whether the number that a word holds is finite.
pub fn is_finite_word(w: u64) -> bool
    ensures { result ≡ finite (number w) }
{
    w % 0x8000_0000_0000_0000 < 0x7ff0_0000_0000_0000
}

// Puts the n numbers from word `from` of the card at the front of the slice.
pub fn load(card: &[u8], from: usize, n: usize, out: &mut [f64])
    requires { ((from + n) * 8 ≤ length card.now) × (n ≤ length out.old) }
    ensures { out.new ≡ numbers_at card.now from n ++ drop n out.old }
{
    for (i, x) in out[..n].iter_mut().enumerate() {
        *x = number_of(word_at(card, from + i));
    }
}

// Puts the words of the first n numbers at the front of the result. Here and in `load` n stands beside the slice, which is a caller's whole room: of a part of it each call
// would have to show the length.
pub fn emit(numbers: &[f64], n: usize, res: &mut [u64])
    requires { (n ≤ length numbers.now) × (n ≤ length res.old) }
    ensures { res.new ≡ words_of n numbers.now ++ drop n res.old }
{
    for (i, w) in res[..n].iter_mut().enumerate() {
        *w = word_of(numbers[i]);
    }
}

// The numbers of xs at the places that are listed.
pub fn gather(xs: &[f64], places: &[usize], out: &mut [f64])
    requires { (length out.old ≤ length places.now) × ((k : ℕ) → k < length out.old → get_or places.now k 0 < length xs.now) }
    ensures { out.new ≡ build (length out.old) (λ k. at xs.now (get_or places.now k 0)) }
{
    for (k, x) in out.iter_mut().enumerate() {
        *x = xs[places[k]];
    }
}

// Sets every number of the slice to +0.
pub fn clear(work: &mut [f64])
    ensures { work.new ≡ blank work.old }
{
    work.fill(0.0);
}

// Whether all numbers of the slice are finite. Without a branch, so that the compiler tests several at once.
pub fn all_finite(xs: &[f64]) -> bool
    ensures { result ≡ all_finite xs.now }
{
    xs.iter().fold(true, |all, x| all & is_finite(*x))
}
