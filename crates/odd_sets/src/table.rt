ghost use Rattle.odd_sets.specs.Tables.{after_set, entry, EntriesAre, IsTable};
ghost use Rattle.odd_sets.specs.declared.table.TheConstants.{MAX_DISTANCE, MAX_PLACES};
ghost use Rattle.std.specs.Prelude.{◌≡◌, ◌≢◌, ◌+◌, ◌*◌, ◌<◌, ◌≤◌, length, IfOk};

use design_model::Memory;
use std::alloc::Global;
use std::marker::Model;

/// The maximum number of places of a table.
pub const MAX_PLACES: u32 = 1024;
/// The maximum distance, in steps.
pub const MAX_DISTANCE: u32 = 200_000;
/// A number above twice any distance, which represents "no edge" in slack rows.
pub const FAR: u32 = 2 * MAX_DISTANCE + 1;

/// The distance of each two of n places, in steps. A place is a vertex of a complete graph.
#[derive(Drop)]
pub struct DistTable {
    places: u32,
    cells: Vec<u32>,
}

impl Model for DistTable {
    ghost use Rattle.odd_sets.specs.TableValue.{TableValue};

    ghost Value = { TableValue };

    ghost use Rattle.odd_sets.specs.Tables.{IsStored};

    ghost view = { λ t. record { places = t.places; cells = t.cells.items } };

    ghost invariant = { λ t. IsStored (record { places = t.places; cells = t.cells.items }) };
}

impl DistTable {
    /// Returns a table of n places, in which all entries are 0. The only error is out of memory.
    pub fn new(alloc: Global, n: u32) -> Result<DistTable, Memory>
        requires { n ≤ MAX_PLACES }
        ensures places { IfOk result (λ t. t.places ≡ n) }
        ensures entries { IfOk result (λ t. EntriesAre t (λ a b. 0)) }
    {
        let cells = vec![in alloc; 0; n as usize * n as usize]?;
        Ok(DistTable { places: n, cells })
    }

    /// Returns the number of places.
    pub fn places(&self) -> u32
        ensures value { result ≡ self.now.places }
        ensures table { IsTable self.now }
    {
        self.places
    }

    /// Sets the entry of two places, in both directions.
    pub fn set(&mut self, a: u32, b: u32, d: u32)
        requires differ { a ≢ b }
        requires a_in { a < self.old.places }
        requires b_in { b < self.old.places }
        requires short { d ≤ MAX_DISTANCE }
        ensures places { self.new.places ≡ self.old.places }
        ensures entries { EntriesAre self.new (after_set self.old a b d) }
    {
        let at = self.cell(a, b);
        let back = self.cell(b, a);
        self.cells[at] = d;
        self.cells[back] = d;
    }

    /// Returns the entry of two places.
    pub fn get(&self, a: u32, b: u32) -> u32
        requires a_in { a < self.now.places }
        requires b_in { b < self.now.places }
        ensures value { result ≡ entry self.now a b }
        ensures short { result ≤ MAX_DISTANCE }
    {
        self.cells[self.cell(a, b)]
    }

    /// Returns the index of the entry in the row of the first place.
    fn cell(&self, a: u32, b: u32) -> usize
        requires a_in { a < self.now.places }
        requires b_in { b < self.now.places }
        ensures value { result ≡ a * self.now.places + b }
        ensures within { result < length self.now.cells }
    {
        a as usize * self.places as usize + b as usize
    }
}
