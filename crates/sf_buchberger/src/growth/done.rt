ghost use Rattle.std.specs.Prelude.{◌≡◌, [], false, true, OnOk, IfOk, replicate, slice_index_or, slice_set};
ghost use Rattle.sf_buchberger.specs.DonePairs.{is_done, with_done, with_new_row};

use sf_field::OutOfMemory;
use std::alloc::Global;
use std::marker::Model;

/// A row of flags. Contracts see it as the list of them.
#[derive(Debug, Drop)]
struct Flags {
    flags: Vec<bool>,
}

impl Model for Flags {
    ghost use Rattle.std.specs.Prelude.{List, Bool};

    ghost Value = { List Bool };

    ghost view = { λ f. f.flags.items };
}

impl Flags {
    /// As many flags, none of which is raised.
    fn lowered(alloc: Global, count: usize) -> Result<Flags, OutOfMemory>
        ensures flags { IfOk result (λ f. f ≡ replicate count false) }
    {
        Ok(Flags {
            flags: vec![in alloc; false; count]?,
        })
    }

    /// Whether flag `i` is raised. Past the last one none is.
    fn has(&self, i: usize) -> bool
        ensures flag { result ≡ slice_index_or self.now i false }
    {
        i < self.flags.len() && self.flags[i]
    }

    /// Raises flag `i`, where there is one.
    fn raise(&mut self, i: usize)
        ensures flags { self.new ≡ slice_set self.old i true }
    {
        if i < self.flags.len() {
            self.flags[i] = true;
        }
    }
}

/// Which pairs of rows reduce to zero, as far as is known. Contracts see it as the lists of the flags.
#[derive(Debug, Drop)]
pub(crate) struct Done {
    rows: Vec<Flags>,
}

impl Model for Done {
    ghost use Rattle.std.specs.Prelude.{List, Bool};

    ghost Value = { List (List Bool) };

    ghost view = { λ d. d.rows.items };
}

impl Done {
    /// A table for no rows. It allocates nothing yet.
    pub(crate) fn new(alloc: Global) -> Done
        ensures empty { result ≡ [] }
    {
        Done {
            rows: Vec::new(alloc),
        }
    }

    /// Adds a last row, no pair of which is done.
    pub(crate) fn push_row(&mut self, alloc: Global) -> Result<(), OutOfMemory>
        ensures ok { OnOk result (self.new ≡ with_new_row self.old) }
    {
        let flags = Flags::lowered(alloc, self.rows.len())?;
        self.rows.push(flags)?;
        Ok(())
    }

    /// Whether the pair of two rows is done, in either order.
    pub(crate) fn has(&self, i: usize, j: usize) -> bool
        ensures done { result ≡ is_done self.now i j }
    {
        let later = i.max(j);
        later < self.rows.len() && self.rows[later].has(i.min(j))
    }

    /// Tells that the pair of row `i` and a later row `j` is done.
    pub(crate) fn mark(&mut self, i: usize, j: usize)
        ensures done { self.new ≡ with_done self.old i j }
    {
        if j < self.rows.len() {
            self.rows[j].raise(i);
        }
    }
}
