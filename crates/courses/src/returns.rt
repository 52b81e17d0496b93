// How a run ends.

// The step that first gave a state met before, and how many steps back that was.
#[derive(Drop)]
pub struct Return {
    pub step: u16,
    pub back: u16,
}
