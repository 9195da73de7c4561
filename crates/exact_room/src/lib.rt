// Whether exact values can be reckoned with: the sums and products of their parts fit 64 bits.
// What comes in: one exact value or two.
// What goes out: whether floor and ceil can take the one, and any operation the two.
#![tactic(auto)]

ghost use Rattle.std.specs.Prelude.{◌≡◌, ◌+◌, ◌*◌};
ghost use Rattle.exact_room.specs.Tests.{fits, has_space, sums_fit, products_fit, has_room};

use language::Exact;

#[tactic(auto, using(crate::proofs::Fitting::fitting))]
fn sum_fits(a: u64, b: u64) -> bool
    ensures { result ≡ fits (a + b) }
{
    a.checked_add(b).is_some()
}

#[tactic(auto, using(crate::proofs::Fitting::fitting))]
fn product_fits(a: u64, b: u64) -> bool
    ensures { result ≡ fits (a * b) }
{
    a.checked_mul(b).is_some()
}

#[tactic(auto, unfolding(crate::specs::Tests::has_space))]
pub fn has_space(x: Exact) -> bool
    ensures { result ≡ has_space x }
{
    0 < x.a && 0 < x.b && sum_fits(x.up, 64) && sum_fits(x.down, 64)
}

#[tactic(auto, unfolding(crate::specs::Tests::sums_fit))]
fn sums_fit(x: Exact, y: Exact) -> bool
    ensures { result ≡ sums_fit x y }
{
    sum_fits(x.up, y.up)
        && sum_fits(x.down, y.down)
        && sum_fits(x.up, y.down)
        && sum_fits(x.down, y.up)
}

#[tactic(auto, unfolding(crate::specs::Tests::products_fit))]
fn products_fit(x: Exact, y: Exact) -> bool
    ensures { result ≡ products_fit x y }
{
    product_fits(x.a, y.a)
        && product_fits(x.b, y.b)
        && product_fits(x.a, y.b)
        && product_fits(x.b, y.a)
}

#[tactic(auto, unfolding(crate::specs::Tests::has_room))]
pub fn has_room(x: Exact, y: Exact) -> bool
    ensures { result ≡ has_room x y }
{
    sums_fit(x, y) && products_fit(x, y)
}
