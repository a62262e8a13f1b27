ghost use Rattle.std.specs.Prelude.{◌≡◌, ◌<◌, [], ◌∷◌, ◌++◌, length, Some, IfOk, OnOk, OnErr, slice_get};
ghost use Rattle.sf_algebra.specs.Rings.{plain};
ghost use Rattle.sf_algebra.specs.Vectors.{IsVector};
ghost use Rattle.sf_algebra.specs.Matrices.{IsMatrix, row_degrees};

mod equality;
mod identity;
mod kron;
mod negate;
mod part;
mod product;
mod stack;
mod transpose;

use crate::free::Free;
use crate::list::List;
use crate::matrix::stack::push_copies;
use crate::vector::Vector;
use sf_field::{Copied, Modulus, OutOfMemory};
use std::alloc::Global;
use std::marker::Model;

/// A graded matrix: rows that are homogeneous vectors over one free module, its target.
///
/// Contracts see it as the ring, in which each variable has the weight 1, the degrees of the target's generators, and
/// the list of the rows with their degrees.
#[derive(Debug, Drop)]
pub struct Matrix {
    modulus: Modulus,
    target: Free,
    rows: Vec<Vector>,
}

impl Model for Matrix {
    ghost use Rattle.sf_algebra.specs.Matrices.{Matrix, IsMatrix};
    ghost use Rattle.sf_algebra.specs.Rings.{plain};

    ghost Value = { Matrix };

    ghost view = { λ m. record { ring = plain m.modulus; target = m.target.degrees; rows = m.rows.items } };

    ghost invariant = { λ m. IsMatrix (record { ring = plain m.modulus; target = m.target.degrees; rows = m.rows.items }) };
}

impl Matrix {
    /// The matrix without rows. It allocates nothing yet.
    pub fn new(alloc: Global, modulus: Modulus, target: Free) -> Matrix
        ensures empty { result ≡ record { ring = plain modulus; target = target.degrees; rows = [] } }
    {
        Matrix {
            modulus,
            target,
            rows: Vec::new(alloc),
        }
    }

    /// Adds a last row, a homogeneous vector over the target with residues of the modulus.
    pub fn push_row(&mut self, v: Vector) -> Result<(), OutOfMemory>
        requires { IsVector self.old.ring self.old.target v }
        ensures ok { OnOk result (self.new ≡ record self.old { rows = self.old.rows ++ v ∷ [] }) }
        ensures err { OnErr result (self.new ≡ self.old) }
    {
        self.rows.push(v)?;
        Ok(())
    }

    /// The number of rows.
    pub fn rows(&self) -> usize
        ensures len { result ≡ length self.now.rows }
        ensures matrix { IsMatrix self.now }
    {
        self.rows.len()
    }

    /// The number of columns, which is that of the target's generators.
    pub fn cols(&self) -> usize
        ensures len { result ≡ length self.now.target }
        ensures matrix { IsMatrix self.now }
    {
        self.target.degrees.len()
    }

    /// Row `i`, counted from 0.
    pub fn row(&self, i: usize) -> &Vector
        requires { i < length self.now.rows }
        ensures row { slice_get self.now.rows i ≡ Some result.now }
        ensures matrix { IsMatrix self.now }
    {
        &self.rows[i]
    }

    /// The prime that the coefficients are taken modulo.
    pub fn modulus(&self) -> Modulus
        ensures ring { self.now.ring ≡ plain result }
    {
        self.modulus
    }

    /// The free module that the matrix goes to.
    pub fn target(&self) -> &Free
        ensures target { result.now.degrees ≡ self.now.target }
    {
        &self.target
    }

    /// The free module of the rows' degrees.
    pub fn row_module(&self, alloc: Global) -> Result<Free, OutOfMemory>
        ensures degrees { IfOk result (λ f. f.degrees ≡ row_degrees self.now) }
    {
        let mut degrees = List::with_capacity(alloc, self.rows.len())?;
        for i in 0..self.rows() {
            degrees.push(self.row(i).degree())?;
        }
        Ok(Free { degrees })
    }
}

impl Copied for Matrix {
    fn copy(&self, alloc: Global) -> Result<Matrix, OutOfMemory> {
        let mut rows = Vec::with_capacity(alloc, self.rows.len())?;
        push_copies(alloc, &mut rows, &self.rows)?;
        Ok(Matrix {
            modulus: self.modulus,
            target: self.target.copy(alloc)?,
            rows,
        })
    }
}

#[cfg(test)]
mod tests;
