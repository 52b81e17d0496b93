// What the calls on tables answer that no refusal ends.

// The number of points and the number of basis elements.
#[derive(Clone, Copy, Debug, PartialEq, Eq)]
pub struct Size {
    pub n: u8,
    pub r: u16,
}

// What drawing up answers: also how many cancellations it took.
#[derive(Clone, Copy, Debug, PartialEq, Eq)]
pub struct Drawing {
    pub n: u8,
    pub r: u16,
    pub cancellations: u32,
}
