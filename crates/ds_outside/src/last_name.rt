// A name of at most 4,096 bytes, which is as long as the system takes one.
#[derive(Drop)]
pub(crate) struct LastName {
    bytes: [u8; 4096],
    len: usize,
}

impl LastName {
    // The empty name.
    pub(crate) fn new() -> Self {
        LastName {
            bytes: [0; 4096],
            len: 0,
        }
    }

    // Whether it is this name.
    pub(crate) fn is(&self, name: &str) -> bool {
        let bytes = &self.bytes[..self.len.min(4096)];
        bytes == name.as_bytes()
    }

    // Lets it be this name, or the empty one where the name is too long.
    pub(crate) fn set(&mut self, name: &str) {
        let bytes = name.as_bytes();
        let len = if bytes.len() <= 4096 { bytes.len() } else { 0 };
        self.bytes[..len].copy_from_slice(&bytes[..len]);
        self.len = len;
    }
}
