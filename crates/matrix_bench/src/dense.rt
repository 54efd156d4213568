//! Matrices that keep every entry, as a set of bits. A place outside has no symbol.
use std::alloc::{AllocError, Global};

/// A matrix of sets of symbols below 64, row by row.
#[derive(Drop)]
pub struct Dense {
    columns: u32,
    entries: Vec<u64>,
}

impl Dense {
    /// A matrix whose entries have no symbol.
    pub fn zero(alloc: Global, rows: u32, columns: u32) -> Result<Dense, AllocError> {
        let mut entries = Vec::new(alloc);
        for _row in 0..rows {
            for _column in 0..columns {
                entries.push(0)?;
            }
        }
        Ok(Dense { columns, entries })
    }

    fn place(&self, i: u32, j: u32) -> usize {
        (i as usize)
            .wrapping_mul(self.columns as usize)
            .wrapping_add(j as usize)
    }

    /// The symbols of the entry, that of number s as bit s.
    pub fn get(&self, i: u32, j: u32) -> u64 {
        match self.entries.get(self.place(i, j)) {
            Some(bits) => *bits,
            None => 0,
        }
    }

    /// Adds the symbols to those of the entry.
    pub fn add(&mut self, i: u32, j: u32, bits: u64) {
        let place = self.place(i, j);
        if let Some(entry) = self.entries.get_mut(place) {
            *entry |= bits;
        }
    }
}
