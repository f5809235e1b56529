// The inverse of a matrix of four rows and columns, by its minors.
ghost use Rattle.std.specs.Prelude.{◌≡◌, ◌<◌, [], ◌∷◌, slice_index_or};
ghost use Rattle.field.specs.Polynomials.{times, line};
ghost use Rattle.field.specs.Matrix.{entry, skip, det2, det3, minor, det, inverted};

use crate::{inverse, product};
use std::array;

/// Four rows of four factors.
pub type Matrix = [[u8; 4]; 4];

// What is left of four once the one at r is left out.
fn without<T: Copy>(four: [T; 4], r: usize) -> [T; 3]
    ensures { (d : T) → result ≡ slice_index_or four (skip r 0) d ∷ slice_index_or four (skip r 1) d ∷ slice_index_or four (skip r 2) d ∷ [] }
{
    let [a, b, c, d] = four;
    match r {
        0 => [b, c, d],
        1 => [a, c, d],
        2 => [a, b, d],
        _ => [a, b, c],
    }
}

// The determinant of columns a and b of the last two rows.
fn det2(t: [[u8; 3]; 3], a: usize, b: usize) -> u8
    requires first { a < 3 }
    requires second { b < 3 }
    ensures { result ≡ det2 (entry t) a b }
{
    product(t[1][a], t[2][b]) ^ product(t[1][b], t[2][a])
}

fn det3(t: [[u8; 3]; 3]) -> u8
    ensures { result ≡ det3 (entry t) }
{
    product(t[0][0], det2(t, 1, 2))
        ^ product(t[0][1], det2(t, 0, 2))
        ^ product(t[0][2], det2(t, 0, 1))
}

// The determinant of what is left without row r and column c.
fn minor(m: Matrix, r: usize, c: usize) -> u8
    ensures { result ≡ minor m r c }
{
    let [p, q, s] = without(m, r);
    det3([without(p, c), without(q, c), without(s, c)])
}

// Four terms, and below four rows, written out: behind a closure that makes them the check no longer knows what each is.
fn det(m: Matrix) -> u8
    ensures { result ≡ det m }
{
    product(m[0][0], minor(m, 0, 0))
        ^ product(m[0][1], minor(m, 0, 1))
        ^ product(m[0][2], minor(m, 0, 2))
        ^ product(m[0][3], minor(m, 0, 3))
}

// Row r of the inverse, where scale is the inverse of the determinant.
fn inverse_row(m: Matrix, scale: u8, r: usize) -> [u8; 4]
    ensures { result ≡ line (λ c. times (minor m c r) scale) }
{
    array::from_fn(|c| product(minor(m, c, r), scale))
}

/// The inverse of a matrix that has one.
#[tactic(auto, unfolding(crate::specs::Matrix::inverted))]
pub fn inverted(m: Matrix) -> Matrix
    ensures { result ≡ inverted m }
{
    let scale = inverse(det(m));
    [
        inverse_row(m, scale, 0),
        inverse_row(m, scale, 1),
        inverse_row(m, scale, 2),
        inverse_row(m, scale, 3),
    ]
}
