//! The reversible component transform (T.800 G.2), forwards and backwards, over whole components.
#![tactic(auto)]

ghost use Rattle.std.specs.Prelude.{◌≡◌, ℕ, ◌+◌, ◌^◌, ◌<◌, ◌≤◌, pos, ◌+ℤ◌, length, All};
ghost use Rattle.jk_math.specs.Division.{floor_of};
ghost use Rattle.jk_math.specs.Signed.{IsBelow, signed_at};
ghost use Rattle.jk_rct.specs.Colour.{y0_of, y1_of, y2_of, i0_of, i1_of, i2_of, UndoesColour, UndoesInverse};
ghost use Rattle.jk_rct.specs.Colour.{KeepsRange, InverseBounds};
ghost use Rattle.jk_math.specs.Eights.{HasEight};

use std::simd::prelude::*;

/// Puts Y0, Y1 and Y2 in the places of the samples of components 0, 1 and 2.
pub fn forward(a: &mut [i32], b: &mut [i32], c: &mut [i32])
    requires same_b { length b.old ≡ length a.old }
    requires same_c { length c.old ≡ length a.old }
    requires small_a { All (IsBelow (2 ^ 29)) a.old }
    requires small_b { All (IsBelow (2 ^ 29)) b.old }
    requires small_c { All (IsBelow (2 ^ 29)) c.old }
    ensures y0 { (k : ℕ) → k < length a.old →
        signed_at a.new k ≡ y0_of (signed_at a.old k) (signed_at b.old k) (signed_at c.old k) }
    ensures y1 { (k : ℕ) → k < length a.old →
        signed_at b.new k ≡ y1_of (signed_at a.old k) (signed_at b.old k) (signed_at c.old k) }
    ensures y2 { (k : ℕ) → k < length a.old →
        signed_at c.new k ≡ y2_of (signed_at a.old k) (signed_at b.old k) (signed_at c.old k) }
{
    let whole = a.len() / 8;
    for eight in 0..whole {
        forward_eight(a, b, c, 8 * eight);
    }
    for k in 8 * whole..a.len() {
        let (y0, y1, y2) = forward_pixel(a[k], b[k], c[k]);
        a[k] = y0;
        b[k] = y1;
        c[k] = y2;
    }
}

/// Puts the samples of components 0, 1 and 2 in the places of Y0, Y1 and Y2.
pub fn inverse(a: &mut [i32], b: &mut [i32], c: &mut [i32])
    requires same_b { length b.old ≡ length a.old }
    requires same_c { length c.old ≡ length a.old }
    requires small_a { All (IsBelow (2 ^ 29)) a.old }
    requires small_b { All (IsBelow (2 ^ 29)) b.old }
    requires small_c { All (IsBelow (2 ^ 29)) c.old }
    ensures i0 { (k : ℕ) → k < length a.old →
        signed_at a.new k ≡ i0_of (signed_at a.old k) (signed_at b.old k) (signed_at c.old k) }
    ensures i1 { (k : ℕ) → k < length a.old →
        signed_at b.new k ≡ i1_of (signed_at a.old k) (signed_at b.old k) (signed_at c.old k) }
    ensures i2 { (k : ℕ) → k < length a.old →
        signed_at c.new k ≡ i2_of (signed_at a.old k) (signed_at b.old k) (signed_at c.old k) }
{
    let whole = a.len() / 8;
    for eight in 0..whole {
        inverse_eight(a, b, c, 8 * eight);
    }
    for k in 8 * whole..a.len() {
        let (i0, i1, i2) = inverse_pixel(a[k], b[k], c[k]);
        a[k] = i0;
        b[k] = i1;
        c[k] = i2;
    }
}

/// Puts Y0, Y1 and Y2 of eight pixels, from one on, in the places of their samples.
#[inline(always)]
fn forward_eight(a: &mut [i32], b: &mut [i32], c: &mut [i32], at: usize)
    requires inside { at + 8 ≤ length a.old }
    requires same_b { length b.old ≡ length a.old }
    requires same_c { length c.old ≡ length a.old }
    requires small_a { (j : ℕ) → j < 8 → IsBelow (2 ^ 29) (signed_at a.old (at + j)) }
    requires small_b { (j : ℕ) → j < 8 → IsBelow (2 ^ 29) (signed_at b.old (at + j)) }
    requires small_c { (j : ℕ) → j < 8 → IsBelow (2 ^ 29) (signed_at c.old (at + j)) }
    ensures y0 { HasEight
        (λ j. y0_of (signed_at a.old (at + j)) (signed_at b.old (at + j)) (signed_at c.old (at + j)))
        at a.old a.new }
    ensures y1 { HasEight
        (λ j. y1_of (signed_at a.old (at + j)) (signed_at b.old (at + j)) (signed_at c.old (at + j)))
        at b.old b.new }
    ensures y2 { HasEight
        (λ j. y2_of (signed_at a.old (at + j)) (signed_at b.old (at + j)) (signed_at c.old (at + j)))
        at c.old c.new }
{
    let i0 = i32x8::from_slice(&a[at..]);
    let i1 = i32x8::from_slice(&b[at..]);
    let i2 = i32x8::from_slice(&c[at..]);
    let sum = i0.strict_add(i1.strict_add(i1)).strict_add(i2);
    (sum >> 2).copy_to_slice(&mut a[at..]);
    i2.strict_sub(i1).copy_to_slice(&mut b[at..]);
    i0.strict_sub(i1).copy_to_slice(&mut c[at..]);
}

/// Puts the samples of eight pixels, from one on, in the places of Y0, Y1 and Y2.
#[inline(always)]
fn inverse_eight(a: &mut [i32], b: &mut [i32], c: &mut [i32], at: usize)
    requires inside { at + 8 ≤ length a.old }
    requires same_b { length b.old ≡ length a.old }
    requires same_c { length c.old ≡ length a.old }
    requires small_a { (j : ℕ) → j < 8 → IsBelow (2 ^ 29) (signed_at a.old (at + j)) }
    requires small_b { (j : ℕ) → j < 8 → IsBelow (2 ^ 29) (signed_at b.old (at + j)) }
    requires small_c { (j : ℕ) → j < 8 → IsBelow (2 ^ 29) (signed_at c.old (at + j)) }
    ensures i0 { HasEight
        (λ j. i0_of (signed_at a.old (at + j)) (signed_at b.old (at + j)) (signed_at c.old (at + j)))
        at a.old a.new }
    ensures i1 { HasEight
        (λ j. i1_of (signed_at a.old (at + j)) (signed_at b.old (at + j)) (signed_at c.old (at + j)))
        at b.old b.new }
    ensures i2 { HasEight
        (λ j. i2_of (signed_at a.old (at + j)) (signed_at b.old (at + j)) (signed_at c.old (at + j)))
        at c.old c.new }
{
    let y0 = i32x8::from_slice(&a[at..]);
    let y1 = i32x8::from_slice(&b[at..]);
    let y2 = i32x8::from_slice(&c[at..]);
    let i1 = y0.strict_sub(y1.strict_add(y2) >> 2);
    y2.strict_add(i1).copy_to_slice(&mut a[at..]);
    i1.copy_to_slice(&mut b[at..]);
    y1.strict_add(i1).copy_to_slice(&mut c[at..]);
}

/// Y0, Y1 and Y2 of one pixel, by the samples of components 0, 1 and 2.
#[inline(always)]
pub fn forward_pixel(i0: i32, i1: i32, i2: i32) -> (i32, i32, i32)
    requires i0 { IsBelow (2 ^ 29) i0 }
    requires i1 { IsBelow (2 ^ 29) i1 }
    requires i2 { IsBelow (2 ^ 29) i2 }
    ensures y0 { result.0 ≡ y0_of i0 i1 i2 }
    ensures y1 { result.1 ≡ y1_of i0 i1 i2 }
    ensures y2 { result.2 ≡ y2_of i0 i1 i2 }
{
    (quarter(i0 + 2 * i1 + i2), i2 - i1, i0 - i1)
}

/// The samples of one pixel, in the order of the components.
#[inline(always)]
fn inverse_pixel(y0: i32, y1: i32, y2: i32) -> (i32, i32, i32)
    requires y0 { IsBelow (2 ^ 29) y0 }
    requires y1 { IsBelow (2 ^ 29) y1 }
    requires y2 { IsBelow (2 ^ 29) y2 }
    ensures i0 { result.0 ≡ i0_of y0 y1 y2 }
    ensures i1 { result.1 ≡ i1_of y0 y1 y2 }
    ensures i2 { result.2 ≡ i2_of y0 y1 y2 }
{
    let i1 = y0 - quarter(y1 + y2);
    (y2 + i1, i1, y1 + i1)
}

/// A quarter, rounded down.
#[inline(always)]
fn quarter(sum: i32) -> i32
    ensures { result ≡ floor_of sum 4 }
{
    sum >> 2
}

/// Inverse colour undoes forward colour.
pub fn colour_undone()
    ensures { UndoesColour }
{}

/// Forward colour undoes inverse colour.
pub fn inverse_undone()
    ensures { UndoesInverse }
{}

/// Where the results of the forward transform lie.
pub fn colour_range()
    ensures { KeepsRange }
{}

/// Where the results of the inverse transform lie.
pub fn inverse_range()
    ensures { InverseBounds }
{}
