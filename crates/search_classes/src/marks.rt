//! Marks of numbers, taken away all at once.

use std::alloc::{AllocError, Global};

/// Which numbers are marked.
#[derive(Drop)]
pub struct Marks {
    marks: Vec<u64>,
    now: u64,
}

impl Marks {
    /// No marks.
    pub fn new(alloc: Global) -> Marks {
        Marks {
            marks: Vec::new(alloc),
            now: 1,
        }
    }

    /// Takes all marks away.
    pub fn clear(&mut self) {
        self.now = self.now.saturating_add(1);
    }

    /// Whether the number is marked.
    pub fn has(&self, number: u32) -> bool {
        self.marks.get(number as usize).copied() == Some(self.now)
    }

    /// Marks a number.
    pub fn mark(&mut self, number: u32) -> Result<(), AllocError> {
        let count = (number as usize).saturating_add(1);
        if count > self.marks.len() {
            self.marks.resize(count, 0)?;
        }
        if let Some(mark) = self.marks.get_mut(number as usize) {
            *mark = self.now;
        }
        Ok(())
    }
}
