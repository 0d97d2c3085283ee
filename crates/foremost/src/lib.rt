#![tactic(auto)]
// The first row in an order, of those that pass a test.
ghost use Rattle.std.specs.Prelude.{◌≡◌, Bool, ℕ, true, ◌<◌, Some};
ghost use Rattle.rules.specs.Rows.{first, better};
ghost use Rattle.foremost.specs.Within.{Within};

// Row j, where it comes before the best so far; else that one.
#[tactic(auto, unfolding(rules::specs::Rows::better))]
fn turn<B: Fn(usize, usize) -> bool>(before: &B, j: usize, best: Option<usize>) -> Option<usize>
    requires { (i : ℕ) → best ≡ Some i → B.pre before.now j i }
    ensures within { (n : ℕ) → j < n → Within best n → Within result n }
    ensures turns { (b : ℕ → ℕ → Bool) → ((i k : ℕ) (r : Bool) → B.post before.now i k r → r ≡ b i k) → result ≡ better b true j best }
{
    match best {
        None => Some(j),
        Some(old) => { if before(j, old) { Some(j) } else { best } }
    }
}

// The first of n rows that pass the test, in the order that `before` says.
pub fn first<P: Fn(usize) -> bool, B: Fn(usize, usize) -> bool>(
    n: usize,
    passes: P,
    before: B,
) -> Option<usize>
    requires tests { (j : ℕ) → j < n → P.pre passes j }
    requires compares { (i j : ℕ) → i < n → j < n → B.pre before i j }
    ensures { (f : ℕ → Bool) (b : ℕ → ℕ → Bool) → ((j : ℕ) (r : Bool) → P.post passes j r → r ≡ f j)
        → ((i j : ℕ) (r : Bool) → B.post before i j r → r ≡ b i j) → result ≡ first b f n }
{
    let mut best = None;
    for j in 0..n {
        if passes(j) {
            best = turn(&before, j, best);
        }
    }
    best
}
