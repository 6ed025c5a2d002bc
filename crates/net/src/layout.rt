use crate::Entry;

// How a net is wired: channels below `links` are links, after them come the doors. The entry of channel c for place p
// stands at c * places + p of the table. Each channel has a rank; each link ends at a switch, and door d at switch d.
// `room`: how many blocks the store at a link's far end may hold. Ranks and ends are lists of their own, since doors have
// ranks and no ends, and the ranks alone are lent to the order of serving.
#[derive(Drop)]
pub struct Layout {
    pub links: usize,
    pub doors: usize,
    pub places: usize,
    pub room: u8,
    pub table: Vec<Entry>,
    pub ranks: Vec<u32>,
    pub ends: Vec<u8>,
}
