// Matrices of six rows of six: the determinant, and the product of a matrix with its own transpose.
ghost use Rattle.std.specs.Prelude.{◌≡◌, ◌+◌, ◌*◌, ◌/◌, ◌<◌, length};
ghost use Rattle.geometry.specs.Size.{size_of};
ghost use Rattle.geometry.specs.Matrix.{entry, matrix_of, put, in_row, larger_of, pivot_row_of, swap_of, swap_count, eliminated_of, eliminate_of, diagonal_of, determinant_of, added_of, add_column_of, gram_of};

// The larger of x and -x: the absolute value but for the sign of a zero, which no comparison sees.
// One instruction, where a test of the sign is a branch that is often guessed wrong.
#[tactic(auto, unfolding(crate::specs::Size::size_of))]
fn size(x: f64) -> f64
    ensures { result ≡ size_of x }
{
    let n = -x;
    if n > x {
        return n;
    }
    x
}

// The entry in row i and column j, six to a row; of columns of six the one in column i and row j.
fn entry(m: &[f64], i: usize, j: usize) -> f64
    requires { 6 * i + j < length m.now }
    ensures { result ≡ entry m.now i j }
{
    m[6 * i + j]
}

// Puts v in row i and column j.
fn put_entry(m: &mut [f64; 36], i: usize, j: usize, v: f64)
    requires { (i < 6) × (j < 6) }
    ensures { m.new ≡ put m.old i j v }
{
    m[6 * i + j] = v;
}

// Of rows p and i the one with the larger absolute value in column k, p on a tie.
#[tactic(auto, using(crate::specs::Size::size_below), unfolding(crate::specs::Matrix::larger_of))]
fn larger(m: &[f64; 36], k: usize, p: usize, i: usize) -> usize
    requires { (k < 6) × (p < 6) × (i < 6) }
    ensures { result ≡ larger_of m.now k p i }
{
    if size(entry(m, p, k)) < size(entry(m, i, k)) {
        return i;
    }
    p
}

fn pivot_row(m: &[f64; 36], k: usize) -> usize
    requires { k < 6 }
    ensures { (result < 6) × (result ≡ pivot_row_of m.now k) }
{
    let mut p = k;
    for i in k + 1..6 {
        p = larger(m, k, p, i);
    }
    p
}

fn swap_rows(m: &mut [f64; 36], k: usize, p: usize)
    requires { (k < 6) × (p < 6) }
    ensures { m.new ≡ swap_of m.old k p }
{
    for c in 0..6 {
        let x = entry(m, k, c);
        let y = entry(m, p, c);
        put_entry(m, k, c, y);
        put_entry(m, p, c, x);
    }
}

// Swaps rows k and p if they differ, and says how many swaps that was.
fn exchange(m: &mut [f64; 36], k: usize, p: usize) -> usize
    requires { (k < 6) × (p < 6) }
    ensures { (result ≡ swap_count k p) × (m.new ≡ swap_of m.old k p) }
{
    if k == p {
        return 0;
    }
    swap_rows(m, k, p);
    1
}

fn eliminate_row(m: &mut [f64; 36], k: usize, i: usize)
    requires { (k < i) × (i < 6) }
    ensures { m.new ≡ matrix_of (in_row m.old i (eliminated_of m.old k i)) }
{
    let f = entry(m, i, k) / entry(m, k, k);
    for c in 0..6 {
        let v = entry(m, i, c) - f * entry(m, k, c);
        put_entry(m, i, c, v);
    }
}

fn eliminate_below(m: &mut [f64; 36], k: usize)
    requires { k < 6 }
    ensures { m.new ≡ eliminate_of m.old k }
{
    for i in k + 1..6 {
        eliminate_row(m, k, i);
    }
}

#[tactic(auto, unfolding(crate::specs::Matrix::diagonal_of))]
fn diagonal(m: &[f64; 36]) -> f64
    ensures { result ≡ diagonal_of m.now }
{
    1.0 * m[0] * m[7] * m[14] * m[21] * m[28] * m[35]
}

pub fn determinant(m: [f64; 36]) -> f64
    ensures { result ≡ determinant_of m }
{
    let mut a = m;
    let mut swaps = 0;
    for k in 0..6 {
        let p = pivot_row(&a, k);
        if entry(&a, p, k) == 0.0 {
            return 0.0;
        }
        swaps += exchange(&mut a, k, p);
        eliminate_below(&mut a, k);
    }
    let d = diagonal(&a);
    if swaps % 2 == 1 {
        return -d;
    }
    d
}

// Adds to row r the column c times its own entry in that row.
fn add_row(m: &mut [f64; 36], j: &[f64], c: usize, r: usize)
    requires { (c < length j.now / 6) × (r < 6) }
    ensures { m.new ≡ matrix_of (in_row m.old r (added_of m.old j.now c r)) }
{
    let x = entry(j, c, r);
    for s in 0..6 {
        let v = entry(m, r, s) + x * entry(j, c, s);
        put_entry(m, r, s, v);
    }
}

fn add_column(m: &mut [f64; 36], j: &[f64], c: usize)
    requires { c < length j.now / 6 }
    ensures { m.new ≡ add_column_of m.old j.now c }
{
    for r in 0..6 {
        add_row(m, j, c, r);
    }
}

// J times its transpose, J given by columns of six.
pub fn gram(j: &[f64]) -> [f64; 36]
    ensures { result ≡ gram_of j.now }
{
    let n = j.len() / 6;
    let mut m = [0.0; 36];
    for c in 0..n {
        add_column(&mut m, j, c);
    }
    m
}
