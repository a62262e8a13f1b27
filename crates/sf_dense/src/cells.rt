ghost use Rattle.std.specs.Prelude.{◌≡◌, ◌+◌, ◌*◌, ◌%◌, ◌^◌, ◌<◌, ◌≤◌, ℕ, [], ◌∷◌, length, drop, map, replicate, slice_index, IfOk, IfSome, IsTrue, MatchBool, MatchOption};
ghost use Rattle.std.specs.List.{AllByRecursion};
ghost use Rattle.sf_dense.specs.Entries.{added};
ghost use Rattle.sf_dense.specs.MonicEntries.{AreMonicEntries, AreWithin, residue_entries, scaled_entry};

use crate::entries::Entry;
use sf_field::{Modulus, OutOfMemory};
use std::alloc::Global;
use std::marker::Model;

/// More than a product of a factor and a coefficient, which are below 2^16 each: 2^32.
const ENTRY_ROOM: u64 = 4_294_967_296;

/// Sums, one for each place of a list, of which residues are taken only where they are looked at. Contracts see the list
/// of the sums.
#[derive(Debug, Drop)]
pub struct Cells {
    sums: Vec<u64>,
    bound: u64,
}

impl Model for Cells {
    ghost use Rattle.std.specs.Prelude.{ℕ, List, ◌≤◌, ◌<◌, ◌^◌, length, slice_index};

    ghost Value = { List ℕ };

    ghost view = { λ c. c.sums.items };

    ghost invariant = { λ c. ((k : ℕ) → slice_index c.sums.items k ≤ c.bound) × (length c.sums.items < 2 ^ 32) };
}

impl Cells {
    /// Sums of which each is 0.
    pub fn zero(alloc: Global, count: u32) -> Result<Cells, OutOfMemory>
        ensures zero { IfOk result (λ c. c ≡ replicate count 0) }
    {
        let count = count as usize;
        let mut sums = Vec::with_capacity(alloc, count)?;
        sums.resize(count, 0)?;
        Ok(Cells { sums, bound: 0 })
    }

    /// Makes each sum 0.
    pub fn clear(&mut self)
        ensures zero { self.new ≡ replicate (length self.old) 0 }
    {
        self.sums.fill(0);
        self.bound = 0;
    }

    /// The number of sums.
    pub fn len(&self) -> usize
        ensures len { result ≡ length self.now }
    {
        self.sums.len()
    }

    /// The residue of a sum, and 0 past the last one.
    pub fn residue(&self, modulus: Modulus, cell: usize) -> u32
        ensures residue { result ≡ slice_index self.now cell % modulus }
        ensures below { result < modulus }
    {
        match self.sums.get(cell) {
            Some(sum) => residue(modulus, *sum),
            None => residue(modulus, 0),
        }
    }

    /// Adds a multiple of entries. `false` where a sum might pass 2^64; then nothing is added.
    ///
    /// Each entry takes room for 2^32 at most, so there is room for 2^32 entries before the sums are looked at.
    pub fn add(&mut self, factor: u16, entries: &[Entry]) -> bool
        ensures added { MatchBool result (self.new ≡ added factor self.old entries.now) (self.new ≡ self.old) }
        ensures room { (n : ℕ) → ((k : ℕ) → slice_index self.old k ≤ n) → n + length entries.now * 2 ^ 32 < 2 ^ 64 → IsTrue result }
    {
        let bound = match raised(self.bound, entries.len()) {
            None => raised(greatest(&self.sums), entries.len()),
            enough => enough,
        };
        match bound {
            None => false,
            Some(bound) => {
                add_entries(&mut self.sums, factor, entries);
                self.bound = bound;
                true
            }
        }
    }

    /// The entries of the residues of the sums, made monic: each is multiplied by the inverse of the first. `None` exactly
    /// where each residue is 0.
    pub fn monic_entries(
        &self,
        alloc: Global,
        modulus: Modulus,
    ) -> Result<Option<Vec<Entry>>, OutOfMemory>
        ensures entries { IfOk result (λ found. MatchOption found (AllByRecursion (λ c. c % modulus ≡ 0) self.now) (λ es. AreMonicEntries modulus self.now es.items)) }
        ensures within { IfOk result (λ found. IfSome found (λ es. AreWithin (length self.now) es.items)) }
    {
        match first_entry(modulus, &self.sums) {
            None => Ok(None),
            Some(first) => {
                let entries = monic_from(alloc, modulus, first, &self.sums)?;
                Ok(Some(entries))
            }
        }
    }
}

/// The residue of a sum.
#[inline]
fn residue(modulus: Modulus, sum: u64) -> u32
    ensures residue { result ≡ sum % modulus }
    ensures below { result < modulus }
    ensures small { modulus < 2 ^ 16 }
{
    let modulus = modulus.value() as u64;
    if sum == 0 {
        return 0;
    }
    (sum % modulus) as u32
}

/// A bound with the room of some entries more, where this is below 2^64.
fn raised(bound: u64, entries: usize) -> Option<u64>
    ensures { MatchOption result (2 ^ 64 ≤ bound + entries * 2 ^ 32) (λ n. n ≡ bound + entries * 2 ^ 32) }
{
    let entries = entries as u64;
    if entries <= (u64::MAX - bound) / ENTRY_ROOM {
        Some(bound + entries * ENTRY_ROOM)
    } else {
        None
    }
}

/// The greatest of the sums, and 0 where there is none.
fn greatest(sums: &[u64]) -> u64
    ensures bound { (k : ℕ) → slice_index sums.now k ≤ result }
    ensures least { (n : ℕ) → ((k : ℕ) → slice_index sums.now k ≤ n) → result ≤ n }
{
    let mut greatest = 0;
    for sum in sums {
        if *sum > greatest {
            greatest = *sum;
        }
    }
    greatest
}

/// Adds a multiple of entries to sums that have room for it.
fn add_entries(sums: &mut [u64], factor: u16, entries: &[Entry])
    requires room { (k : ℕ) → slice_index sums.old k + length entries.now * 2 ^ 32 < 2 ^ 64 }
    ensures added { sums.new ≡ added factor sums.old entries.now }
    ensures raised { (k : ℕ) → slice_index sums.new k ≤ slice_index sums.old k + length entries.now * 2 ^ 32 }
{
    let factor = factor as u64;
    for entry in entries {
        let cell = entry.cell as usize;
        if cell < sums.len() {
            sums[cell] += factor * entry.coefficient as u64;
        }
    }
}

/// The entry of the first residue other than 0.
fn first_entry(modulus: Modulus, sums: &[u64]) -> Option<Entry>
    requires few { length sums.now < 2 ^ 32 }
    ensures first { MatchOption result (residue_entries modulus 0 sums.now ≡ []) (λ e. residue_entries modulus 0 sums.now ≡ e ∷ residue_entries modulus (e.cell + 1) (drop (e.cell + 1) sums.now)) }
    ensures residue { MatchOption result (residue_entries modulus 0 sums.now ≡ []) (λ e. (0 < e.coefficient) × (e.coefficient < modulus)) }
{
    for (cell, sum) in sums.iter().enumerate() {
        let coefficient = residue(modulus, *sum);
        if coefficient != 0 {
            return Some(Entry {
                cell: cell as u32,
                coefficient: coefficient as u16,
            });
        }
    }
    None
}

/// The entries of the residues from the first one on, each multiplied by the inverse of the first.
fn monic_from(
    alloc: Global,
    modulus: Modulus,
    first: Entry,
    sums: &[u64],
) -> Result<Vec<Entry>, OutOfMemory>
    requires few { length sums.now < 2 ^ 32 }
    requires nonzero { 0 < first.coefficient }
    requires residue { first.coefficient < modulus }
    requires first { residue_entries modulus 0 sums.now ≡ first ∷ residue_entries modulus (first.cell + 1) (drop (first.cell + 1) sums.now) }
    ensures monic { IfOk result (λ es. AreMonicEntries modulus sums.now es.items) }
{
    let inverse = modulus.inv(first.coefficient as u32);
    let mut entries = Vec::new(alloc);
    entries.push(Entry {
        coefficient: 1,
        ..first
    })?;
    for cell in first.cell as usize + 1..sums.len() {
        let residue = residue(modulus, sums[cell]);
        if residue != 0 {
            entries.push(Entry {
                cell: cell as u32,
                coefficient: modulus.mul(inverse, residue) as u16,
            })?;
        }
    }
    Ok(entries)
}
