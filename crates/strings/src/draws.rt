// Pseudo-random numbers and bytes.
#[derive(Drop)]
pub(crate) struct Draws {
    state: u64,
}

impl Draws {
    pub(crate) fn new() -> Self {
        Draws { state: 1 }
    }

    // The next number, below 65,536.
    pub(crate) fn number(&mut self) -> u64 {
        self.state = (self.state % 4294967296 * 1664525 + 1013904223) % 4294967296;
        self.state / 65536
    }

    // The next byte. Five in eight are a step's or an instruction's number; the others are of one group, the first of
    // several, or any.
    fn byte(&mut self) -> u8 {
        let draw = self.number();
        let value = draw / 8;
        match draw % 8 {
            0..=4 => (value % 8) as u8,
            5 => (value % 128) as u8,
            6 => (128 + value % 128) as u8,
            _ => (value % 256) as u8,
        }
    }

    pub(crate) fn fill(&mut self, bytes: &mut [u8]) {
        for byte in bytes {
            *byte = self.byte();
        }
    }
}
