use net::Cable;

// How many switches there are, how many blocks a store has room for, and the cables.
#[derive(Drop)]
pub struct CableList {
    pub switches: u8,
    pub room: u8,
    pub cables: Vec<Cable>,
}
