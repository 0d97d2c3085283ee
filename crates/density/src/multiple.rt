// The least common multiple of all relative deadlines, by Euclid's algorithm.
ghost use Rattle.std.specs.Prelude.{◌≡◌, ◌<◌};
ghost use Rattle.rules.specs.Table.{job_count};
ghost use Rattle.rules.specs.Density as rules;
ghost use Rattle.rules.specs.Density.{multiple_to};
ghost use Rattle.sums.specs.Sums.{SpansIn};
ghost use Rattle.density.specs.Multiple.{Tells};

use rules::plan::Plan;

const MOST: u32 = 1_000_000_000;

// The greatest common divisor, by remainders.
fn gcd(a: u32, b: u32) -> u32
    ensures { result ≡ rules.gcd a b }
{
    if b == 0 { a } else { gcd(b, a % b) }
}

// The least common multiple of two numbers, if it is within the limit. The quotient is compared first, since the product could wrap.
fn lcm(a: u32, b: u32) -> Option<u32>
    requires { 0 < b }
    ensures { Tells (rules.lcm a b) result }
{
    let g = gcd(a, b);
    let q = a / g;
    if q > MOST / b {
        return None;
    }
    Some(q * b)
}

// That of the relative deadlines of all jobs. A part of it that exceeds the limit is enough: it divides the whole.
pub fn multiple(plan: &Plan) -> Option<u32>
    requires { SpansIn plan.now }
    ensures { Tells (multiple_to plan.now (job_count plan.now.table)) result }
{
    let mut m = 1;
    for j in 0..plan.table().job_count() {
        m = lcm(m, plan.span(j).0)?;
    }
    Some(m)
}
