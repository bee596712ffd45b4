//! The inverse colour transform of a tile's components.

ghost use Rattle.std.specs.Prelude.{◌≡◌, ℕ, ◌<◌, ◌≤◌, ◌^◌, length, All};
ghost use Rattle.jk_math.specs.Signed.{IsBelow, signed_at};
ghost use Rattle.jk_rct.specs.Colour.{i0_of, i1_of, i2_of};
ghost use Rattle.jk_math.specs.Lists.{list_at};

use jk_rct::inverse;
use std::alloc::Global;
use std::mem;

/// Puts the values of components 0, 1 and 2 in the places of Y0, Y1 and Y2 (T.800 G.2.2).
pub fn uncolour(alloc: Global, values: &mut Vec<Vec<i32>>)
    requires three { 3 ≤ length values.old.items }
    requires same_b { length (list_at values.old.items 1) ≡ length (list_at values.old.items 0) }
    requires same_c { length (list_at values.old.items 2) ≡ length (list_at values.old.items 0) }
    requires small { (c : ℕ) → c < 3 → All (IsBelow (2 ^ 29)) (list_at values.old.items c) }
    ensures count { length values.new.items ≡ length values.old.items }
    ensures long { (c : ℕ) → length (list_at values.new.items c) ≡ length (list_at values.old.items c) }
    ensures i0 { (k : ℕ) → k < length (list_at values.old.items 0) → signed_at (list_at values.new.items 0) k
        ≡ i0_of (signed_at (list_at values.old.items 0) k) (signed_at (list_at values.old.items 1) k)
        (signed_at (list_at values.old.items 2) k) }
    ensures i1 { (k : ℕ) → k < length (list_at values.old.items 0) → signed_at (list_at values.new.items 1) k
        ≡ i1_of (signed_at (list_at values.old.items 0) k) (signed_at (list_at values.old.items 1) k)
        (signed_at (list_at values.old.items 2) k) }
    ensures i2 { (k : ℕ) → k < length (list_at values.old.items 0) → signed_at (list_at values.new.items 2) k
        ≡ i2_of (signed_at (list_at values.old.items 0) k) (signed_at (list_at values.old.items 1) k)
        (signed_at (list_at values.old.items 2) k) }
    ensures others { (c : ℕ) → 3 ≤ c → list_at values.new.items c ≡ list_at values.old.items c }
{
    let mut first = mem::replace(&mut values[0], Vec::new(alloc));
    let mut second = mem::replace(&mut values[1], Vec::new(alloc));
    let mut third = mem::replace(&mut values[2], Vec::new(alloc));
    inverse(&mut first, &mut second, &mut third);
    values[0] = first;
    values[1] = second;
    values[2] = third;
}
