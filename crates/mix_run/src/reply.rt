// What is to be written, and the status that goes with it.

/// A reply: the status, and the bytes to write.
#[derive(Drop)]
pub struct Reply {
    pub status: u8,
    pub bytes: Vec<u8>,
}
