// The tables of a case: those that are due, and those that a call is lent and leaves.
use crate::buffers::holds;
use addition::adding;
use basis::drawing;
use specification::answers::{Drawing, Size};
use specification::refusals::Refusal;
use specification::settings::Settings;
use specification::tables::{TablesMut, TablesRef};

#[derive(Drop)]
pub struct Due {
    pub states: [u8; 512],
    pub standard: [u8; 512],
    pub leads: [u8; 3592],
    pub coefficients: [u8; 28736],
    pub counts: [u8; 64],
}

impl Due {
    pub fn filled(byte: u8) -> Due {
        Due {
            states: [byte; 512],
            standard: [byte; 512],
            leads: [byte; 3592],
            coefficients: [byte; 28736],
            counts: [byte; 64],
        }
    }

    pub fn lent(&self) -> TablesRef<'_> {
        TablesRef {
            states: &self.states,
            standard: &self.standard,
            leads: &self.leads,
            coefficients: &self.coefficients,
            counts: &self.counts,
        }
    }
}

// Each table has a guard of 8 bytes behind its size.
#[derive(Drop)]
pub struct Left {
    states: [u8; 520],
    standard: [u8; 520],
    leads: [u8; 3600],
    coefficients: [u8; 28744],
    counts: [u8; 72],
}

impl Left {
    pub fn new() -> Left {
        Left {
            states: [170; 520],
            standard: [170; 520],
            leads: [170; 3600],
            coefficients: [170; 28744],
            counts: [170; 72],
        }
    }

    // Drawing up into these tables.
    pub fn draw_up(&mut self, settings: Settings, levels: &[i8]) -> Result<Drawing, Refusal> {
        let Left {
            states,
            standard,
            leads,
            coefficients,
            counts,
        } = self;
        let tables = TablesMut {
            states,
            standard,
            leads,
            coefficients,
            counts,
        };
        drawing::draw_up(settings, tables, levels)
    }

    // Adding a point to the n points of these tables.
    pub fn add_point(
        &mut self,
        settings: Settings,
        n: u64,
        r: u64,
        levels: &[i8],
    ) -> Result<Size, Refusal> {
        let Left {
            states,
            standard,
            leads,
            coefficients,
            counts,
        } = self;
        let tables = TablesMut {
            states,
            standard,
            leads,
            coefficients,
            counts,
        };
        adding::add_point(settings, n, r, tables, levels)
    }

    pub fn hold_counts(&self, due: &Due) -> bool {
        holds(&self.counts, &due.counts)
    }

    // Whether the four tables of a basis, without the counts, hold these bytes.
    pub fn hold_basis(&self, due: &Due) -> bool {
        holds(&self.states, &due.states)
            && holds(&self.standard, &due.standard)
            && holds(&self.leads, &due.leads)
            && holds(&self.coefficients, &due.coefficients)
    }

    // Whether the count of point n, counted from 1, is this one.
    pub fn counts_last(&self, n: u8, count: u8) -> bool {
        n != 0 && self.counts.get(n as usize - 1) == Some(&count)
    }
}
