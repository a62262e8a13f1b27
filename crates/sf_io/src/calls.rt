ghost use Rattle.std.specs.Prelude.{◌≡◌, ◌↔◌, ◌≤◌, IsTrue};
ghost use Rattle.sf_io.specs.Calls.{IsNextListed, one_call_more, one_fault_more};

use std::marker::Model;

/// Counts the calls of a source or a sink in memory, and knows which of them fail.
#[derive(Debug, Drop)]
pub struct Calls {
    fails: Vec<u32>,
    made: u32,
    faults: u64,
}

impl Model for Calls {
    ghost use Rattle.sf_io.specs.Calls.{Calls};

    ghost Value = { Calls };

    ghost view = { λ c. record { fails = c.fails.items; made = c.made; faults = c.faults } };
}

impl Calls {
    pub fn new(fails: Vec<u32>) -> Self
        ensures { result ≡ record { fails = fails.items; made = 0; faults = 0 } }
    {
        Calls {
            fails,
            made: 0,
            faults: 0,
        }
    }

    /// Counts one call more, and says whether the list has its number.
    pub fn count_call(&mut self) -> bool
        ensures listed { IsTrue result ↔ IsNextListed self.old }
        ensures made { self.new ≡ one_call_more self.old }
    {
        match self.made.checked_add(1) {
            Some(number) => {
                self.made = number;
                self.fails.contains(&number)
            }
            None => false,
        }
    }

    /// Counts a fault.
    pub fn count_fault(&mut self)
        ensures raised { self.new ≡ one_fault_more self.old }
        ensures later { self.old.faults ≤ self.new.faults }
    {
        self.faults = self.faults.saturating_add(1);
    }
}
