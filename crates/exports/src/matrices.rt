// Matrices as little-endian bytes, answered one number at a time. A list of another length is answered with a NaN.
ghost use Rattle.std.specs.Prelude.{◌≡◌};
ghost use Rattle.exports.specs.Matrices.{determinant_in, gram_entry};

use geometry::matrix;
use lent_bytes::bytes;

// Six rows of six floats.
#[unsafe(no_mangle)]
pub extern "C" fn relaxed_ik_determinant(rows: &[u8]) -> f64
    ensures { result ≡ determinant_in rows.now }
{
    if rows.len() != 288 {
        return 0.0 / 0.0;
    }
    let mut m = [0.0; 36];
    bytes::floats(rows, &mut m);
    matrix::determinant(m)
}

// Columns of six floats, at most sixteen: an entry of the product with the transpose, NaN past row or column 5.
#[unsafe(no_mangle)]
pub extern "C" fn relaxed_ik_gram(columns: &[u8], row: u32, column: u32) -> f64
    ensures { result ≡ gram_entry columns.now row column }
{
    let size = columns.len();
    if size % 48 != 0 {
        return 0.0 / 0.0;
    }
    if size > 768 {
        return 0.0 / 0.0;
    }
    if row > 5 {
        return 0.0 / 0.0;
    }
    if column > 5 {
        return 0.0 / 0.0;
    }
    let mut j = [0.0; 96];
    bytes::floats(columns, &mut j);
    let n = size / 8;
    let product = matrix::gram(&j[..n]);
    let at = 6 * (row as usize) + (column as usize);
    product[at]
}
