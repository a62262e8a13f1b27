use crate::counted::columns::divisor_of;
use sf_dense::Place;
use sf_field::OutOfMemory;
use sf_reduce::Leads;
use std::alloc::Global;

/// By what a place is cleared: the multiple of a row, given by the number of the row, or a list of entries that begins
/// there, given by its number. Nothing depends on it but the time that is taken.
#[derive(Clone, Copy, Debug)]
pub(crate) struct Reducer {
    pub(crate) divisor: Option<usize>,
    pub(crate) list: Option<usize>,
}

impl Reducer {
    /// Whether nothing clears the place.
    pub(crate) fn is_none(self) -> bool {
        self.divisor.is_none() && self.list.is_none()
    }
}

/// For each place of a list, the number of a row whose lead divides it, where there is one.
pub(crate) fn reducers(
    alloc: Global,
    columns: &[Place],
    leads: &Leads,
) -> Result<Vec<Reducer>, OutOfMemory> {
    let mut reducers = Vec::with_capacity(alloc, columns.len())?;
    for place in columns {
        let divisor = divisor_of(leads, place);
        reducers.push(Reducer {
            divisor,
            list: None,
        })?;
    }
    Ok(reducers)
}
