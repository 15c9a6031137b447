// The first rule that a road's record breaks.
mod counts;
mod order;
mod tables;

use crate::ranges::is_in_range;
use crate::{Fault, GREATEST_WEIGHT, Road};

impl Road {
    ghost use Rattle.std.specs.Prelude.{◌≡◌};
    ghost use Rattle.road_types.specs.RecordFaults.{record_fault};
    ghost use Rattle.road_types.specs.Faults.{is_sized, is_light, size_fault, road_fault};

    /// The fault of the first rule that the road breaks, of F6 to F15 over the record in this order, then of its size; none where
    /// it keeps all.
    #[tactic(auto, unfolding(crate::specs::Faults::road_fault))]
    pub fn check(&self) -> Option<Fault>
        ensures { result ≡ road_fault self.now }
    {
        match self.record_fault() {
            Some(fault) => Some(fault),
            None => self.size_fault(),
        }
    }

    /// The fault of the first rule that the record breaks, of F6 to F15 in this order; none where it keeps all.
    #[tactic(auto, unfolding(crate::specs::RecordFaults::record_fault))]
    fn record_fault(&self) -> Option<Fault>
        ensures { result ≡ record_fault self.now }
    {
        if !is_in_range(self) {
            return Some(Fault::F6);
        }
        if !order::stations_rise(self.sections.as_slice()) {
            return Some(Fault::F7);
        }
        if !order::knots_hold(self) {
            return Some(Fault::F8);
        }
        if !tables::have_tables(self.sections.as_slice()) {
            return Some(Fault::F9);
        }
        if !order::lows_hold(self) {
            return Some(Fault::F10);
        }
        if !tables::pits_hold(self) {
            return Some(Fault::F11);
        }
        if !tables::places_hold(self) {
            return Some(Fault::F12);
        }
        if !tables::blocks_differ(self.blocks.as_slice()) {
            return Some(Fault::F13);
        }
        if !counts::counts_hold(self) {
            return Some(Fault::F14);
        }
        if !counts::budgets_hold(self) {
            return Some(Fault::F15);
        }
        None
    }

    /// The fault of a road whose record has none: F17 where it has more than 600 rows or 1,000 columns, else F18 where its weight is
    /// above 2^46.
    #[tactic(auto, unfolding(crate::specs::Faults::size_fault))]
    fn size_fault(&self) -> Option<Fault>
        requires { record_fault self.now ≡ None }
        ensures { result ≡ size_fault self.now }
    {
        if !self.is_sized() {
            return Some(Fault::F17);
        }
        if !self.is_light() {
            return Some(Fault::F18);
        }
        None
    }

    /// Whether the road has at most 600 rows and at most 1,000 columns.
    fn is_sized(&self) -> bool
        requires { record_fault self.now ≡ None }
        ensures { result ≡ is_sized self.now }
    {
        self.row_count() <= 600 && self.column_count() <= 1000
    }

    /// Whether the road's weight is at most 2^46.
    fn is_light(&self) -> bool
        requires { record_fault self.now ≡ None }
        ensures { result ≡ is_light self.now }
    {
        self.weight() <= GREATEST_WEIGHT
    }
}
