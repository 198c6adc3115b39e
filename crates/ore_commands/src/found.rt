//! What is found.

use ore_cert::Certificate;
use ore_rows::Matrix;

/// What a search finds.
#[derive(Drop)]
pub enum Found {
    /// A certificate.
    Certified(Certificate),
    /// The transposed adjoint of the matrix: a row for each of its columns, a column for each of its rows.
    Transposed(Matrix),
}
