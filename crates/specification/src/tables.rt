// The five tables of a basis as they are lent: slices of any lengths.
ghost use Rattle.std.specs.Prelude.{◌≡◌};

use residue::sizes;

// Tables that are only read.
#[derive(Clone, Copy)]
pub struct TablesRef<'a> {
    pub states: &'a [u8],
    pub standard: &'a [u8],
    pub leads: &'a [u8],
    pub coefficients: &'a [u8],
    pub counts: &'a [u8],
}

// Tables that are written to.
#[derive(Drop)]
pub struct TablesMut<'a> {
    pub states: &'a mut [u8],
    pub standard: &'a mut [u8],
    pub leads: &'a mut [u8],
    pub coefficients: &'a mut [u8],
    pub counts: &'a mut [u8],
}

impl TablesRef<'_> {
    ghost use Rattle.specification.specs.Tables.{too_short};
    ghost use Rattle.specification.specs.Lent.{lent};

    // Whether one of them is shorter than its size.
    #[tactic(auto, unfolding(crate::specs::Tables::too_short, crate::specs::Tables::short_lengths))]
    pub fn too_short(self) -> bool
        ensures { result ≡ too_short (lent self.entry) }
    {
        self.states.len() < sizes::STATES
            || self.standard.len() < sizes::STANDARD
            || self.leads.len() < sizes::LEADS
            || self.coefficients.len() < sizes::COEFFICIENTS
            || self.counts.len() < sizes::COUNTS
    }
}

impl TablesMut<'_> {
    ghost use Rattle.specification.specs.Lent.{lent, lent_mut};

    // The same tables, to be read.
    pub fn read(&self) -> TablesRef<'_>
        ensures { lent result ≡ lent_mut self.now }
    {
        TablesRef {
            states: self.states,
            standard: self.standard,
            leads: self.leads,
            coefficients: self.coefficients,
            counts: self.counts,
        }
    }
}
