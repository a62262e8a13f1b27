ghost use Rattle.std.specs.Prelude.{◌≡◌, ◌≤◌, length, map, IfOk};
ghost use Rattle.sf_algebra.specs.MatrixOperations.{part_terms, part, vector_part};

use crate::free::Free;
use crate::list::List;
use crate::matrix::Matrix;
use crate::vector::{Term, Vector};
use sf_field::OutOfMemory;
use std::alloc::Global;

impl Matrix {
    /// The rows from `r0` to before `r1` in the columns from `c0` to before `c1`.
    pub fn part(
        &self,
        alloc: Global,
        r0: usize,
        r1: usize,
        c0: usize,
        c1: usize,
    ) -> Result<Matrix, OutOfMemory>
        requires rows { r0 ≤ r1 }
        requires rows_end { r1 ≤ length self.now.rows }
        requires columns { c0 ≤ c1 }
        requires columns_end { c1 ≤ length self.now.target }
        ensures part { IfOk result (λ m. m ≡ part r0 r1 c0 c1 self.now) }
    {
        let rows = rows_between(alloc, c0 as u64, c1 as u64, &self.rows[r0..r1])?;
        let degrees = List::from_slice(alloc, &self.target.degrees.as_slice()[c0..c1])?;
        Ok(Matrix {
            modulus: self.modulus,
            target: Free { degrees },
            rows,
        })
    }
}

/// The rows' terms at the positions from `from` to before `to`, counted from `from`.
fn rows_between(
    alloc: Global,
    from: u64,
    to: u64,
    rows: &[Vector],
) -> Result<Vec<Vector>, OutOfMemory>
    ensures { IfOk result (λ v. v.items ≡ map (vector_part from to) rows.now) }
{
    let mut between = Vec::with_capacity(alloc, rows.len())?;
    for row in rows {
        between.push(row.part(alloc, from, to)?)?;
    }
    Ok(between)
}

impl Vector {
    /// The terms at the positions from `from` to before `to`, counted from `from`.
    pub fn part(&self, alloc: Global, from: u64, to: u64) -> Result<Vector, OutOfMemory>
        ensures part { IfOk result (λ v. v ≡ vector_part from to self.now) }
    {
        let terms = terms_between(alloc, from, to, &self.terms)?;
        Ok(Vector {
            degree: self.degree,
            terms,
        })
    }
}

/// The terms at the positions from `from` to before `to`, counted from `from`.
fn terms_between(
    alloc: Global,
    from: u64,
    to: u64,
    terms: &[Term],
) -> Result<Vec<Term>, OutOfMemory>
    ensures { IfOk result (λ v. v.items ≡ part_terms from to terms.now) }
{
    let mut between = Vec::new(alloc);
    for term in terms {
        if from <= term.position && term.position < to {
            between.push(Term {
                position: term.position - from,
                ..*term
            })?;
        }
    }
    Ok(between)
}
