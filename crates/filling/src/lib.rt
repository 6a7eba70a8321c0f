// Water filling: the probabilities nearest to a list of eigenvalues.
#![tactic(auto)]

ghost use Rattle.std.specs.Prelude.{◌≡◌, ◌≤◌, length};
ghost use Rattle.std.specs.List.{fold};
ghost use Rattle.numbers.specs.Number.{◌+ᶠ◌};
ghost use Rattle.filling.specs.Filling as spec;

// What each of k numbers has to lose, where their sum is to become one.
fn excess(sum: f64, k: usize) -> f64
    requires { k ≤ 16 }
    ensures { result ≡ spec.excess sum k }
{
    (sum - 1.0) / k as f64
}

// How many of the numbers of the descending list u stay above zero.
fn active_count(u: &[f64]) -> usize
    requires { length u.now ≤ 16 }
    ensures { (result ≡ spec.active_count u.now) × (result ≤ length u.now) }
{
    let mut sum = 0.0;
    let mut active = 0;
    for (i, x) in u.iter().enumerate() {
        sum += *x;
        if excess(sum, i + 1) < *x {
            active = i + 1;
        }
    }
    active
}

// What is taken from each eigenvalue, u being their descending list.
fn threshold(u: &[f64]) -> f64
    requires { length u.now ≤ 16 }
    ensures { result ≡ spec.threshold u.now }
{
    let active = active_count(u);
    excess(u[..active].iter().sum(), active)
}

fn lower(w: &mut [f64], t: f64)
    ensures { w.new ≡ spec.lowered t w.old }
{
    for x in w.iter_mut() {
        *x = numbers::max_of(*x - t, 0.0);
    }
}

// The eigenvalues in w become probabilities.
pub fn fill(w: &mut [f64])
    requires { length w.old ≤ 16 }
    ensures { w.new ≡ spec.filling w.old }
{
    let n = w.len();
    let mut order = [0; 16];
    let mut room = [0.0; 16];
    let u = &mut room[..n];
    sorting::arrange(true, w, &mut order[..n], u);
    lower(w, threshold(u));
}
