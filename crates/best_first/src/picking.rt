// The node that is split next.
ghost use Rattle.std.specs.Prelude.{◌≡◌, ◌+◌, ◌≤◌, ◌<◌, ◌^◌, ◌↔◌, IsTrue, length, unsigned_abs, ◌*ℤ◌, ◌<ℤ◌, int_le};
ghost use Rattle.std.specs.List.{All};
ghost use Rattle.algebra.specs.Scale.{IsScale};
ghost use Rattle.best_first.specs.Keys.{IsKey, IsLess, IsFirstLeast};
ghost use Rattle.best_first.specs.inside.Leading.{IsFirstLeastOf};

use algebra::times;

/// The place, counted from 0, of the first least key. A key is a value and the scale that it stands over.
#[tactic(auto, using(crate::proofs::Leading::only_first, crate::proofs::Leading::of_all))]
pub fn pick(leaves: &[(i128, i128)]) -> usize
    requires some { 0 < length leaves.now }
    requires keys { All IsKey leaves.now }
    ensures { IsFirstLeast leaves.now result }
{
    let mut least = 0;
    for place in 1..leaves.len() {
        least = lesser_of(leaves, least, place);
    }
    least
}

/// The place of the first least of the keys up to a place, where that of the keys before it is known.
#[tactic(auto, using(crate::proofs::Leading::another_least, crate::proofs::Leading::same_least))]
fn lesser_of(leaves: &[(i128, i128)], least: usize, place: usize) -> usize
    requires keys { All IsKey leaves.now }
    requires place { place < length leaves.now }
    requires least { IsFirstLeastOf leaves.now place least }
    ensures { IsFirstLeastOf leaves.now (place + 1) result }
{
    if is_less(leaves[place], leaves[least]) {
        place
    } else {
        least
    }
}

/// Whether one key is at most another.
pub fn is_at_most(key: (i128, i128), other: (i128, i128)) -> bool
    requires key { IsKey key }
    requires other { IsKey other }
    ensures { result ≡ int_le (key.0 *ℤ other.1) (other.0 *ℤ key.1) }
{
    scaled_by(key.0, other.1) <= scaled_by(other.0, key.1)
}

/// Whether one key is less than another.
fn is_less(key: (i128, i128), other: (i128, i128)) -> bool
    requires key { IsKey key }
    requires other { IsKey other }
    ensures { IsTrue result ↔ IsLess key other }
{
    less(scaled_by(key.0, other.1), scaled_by(other.0, key.1))
}

/// A value times a scale.
#[tactic(auto, using(crate::proofs::KeyLemmas::product_fits))]
fn scaled_by(value: i128, scale: i128) -> i128
    requires value { unsigned_abs value ≤ 2 ^ 86 }
    requires scale { IsScale scale }
    ensures { result ≡ value *ℤ scale }
{
    times(value, scale)
}

fn less(a: i128, b: i128) -> bool
    ensures { IsTrue result ↔ (a <ℤ b) }
{
    a < b
}
