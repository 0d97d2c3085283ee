// The order by relative deadlines.
ghost use Rattle.std.specs.Prelude.{◌≡◌, ◌+◌, ◌*◌, ◌<◌, ◌≤◌, length};
ghost use Rattle.rules.specs.Rows.{count};
ghost use Rattle.rules.specs.Density.{sorts_before};

use rules::plan::Plan;

// Whether job i stands before job j: shorter relative deadline first, ties by number.
#[tactic(auto, using(std::proofs::lemmas::Bool::Decides::nat_tests), unfolding(rules::specs::Density::sorts_before))]
pub fn sorts_before(plan: &Plan, i: usize, j: usize) -> bool
    requires { (2 * i + 1 < length plan.now.times) × (2 * j + 1 < length plan.now.times) }
    ensures { result ≡ sorts_before plan.now i j }
{
    (plan.span(i), i) < (plan.span(j), j)
}

// How many of the first n jobs stand before job j.
pub fn before(plan: &Plan, n: usize, j: usize) -> u32
    requires { (n ≤ 64) × (2 * n ≤ length plan.now.times) × (2 * j + 1 < length plan.now.times) }
    ensures { (result ≡ count (λ i. sorts_before plan.now i j) n) × (result ≤ 64) }
{
    let mut k = 0;
    for i in 0..n {
        if sorts_before(plan, i, j) {
            k += 1;
        }
    }
    k
}
