// The stable sort of numbers, rising or falling: their order, as indices, and the sorted numbers.
#![tactic(auto)]

ghost use Rattle.std.specs.Prelude.{◌≡◌, ◌+◌, ◌≤◌, ◌<◌, length, take, position};
ghost use Rattle.numbers.specs.Slice.{at};
ghost use Rattle.sorting.specs.Sort.{before, insert, order_by, sorted_by};

// Number i, and a NaN past the end.
fn number_at(w: &[f64], i: usize) -> f64
    ensures { result ≡ at w.now i }
{
    if i < w.len() { w[i] } else { f64::NAN }
}

// Whether x comes before y. As a closure in place of `falling` the order would be no plainer: each contract below would have to say what the closure tells of
// any two numbers, and `insert` that the place lies within.
fn comes_first(falling: bool, x: f64, y: f64) -> bool
    ensures { result ≡ before falling x y }
{
    if falling {
        numbers::comes_before(y, x)
    } else {
        numbers::comes_before(x, y)
    }
}

// Where x belongs in an order: before the first number that it comes before.
fn place(falling: bool, w: &[f64], order: &[usize], x: f64) -> Option<usize>
    ensures { result ≡ position (λ j. before falling x (at w.now j)) order.now }
{
    order
        .iter()
        .position(|j| comes_first(falling, x, number_at(w, *j)))
}

// Inserts number k into the order of those before it.
fn insert(falling: bool, w: &[f64], order: &mut [usize], k: usize)
    requires { k < length order.old }
    ensures { take (k + 1) order.new ≡ insert falling w.now k (take k order.old) }
{
    let i = place(falling, w, &order[..k], number_at(w, k)).unwrap_or(k);
    order.copy_within(i..k, i + 1);
    order[i] = k;
}

// The order of the numbers of w, and the numbers in it, into s.
pub fn arrange(falling: bool, w: &[f64], order: &mut [usize], s: &mut [f64])
    requires { (length order.old ≡ length w.now) × (length s.old ≡ length w.now) }
    ensures { (order.new ≡ order_by falling w.now (length w.now)) × (s.new ≡ sorted_by falling w.now) }
{
    // By places: each turn changes the order of those before it, and reads all of w.
    for k in 0..w.len() {
        insert(falling, w, order, k);
    }
    numbers::gather(w, order, s);
}
