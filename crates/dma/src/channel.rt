ghost use Rattle.std.specs.Prelude.{◌≡◌, ◌+◌, ◌%◌};
ghost use Rattle.dma.specs.Channels.{has, fresh, after, memory_address, stepped, with_mask};

// The registers of one channel. The address register has 24 bits: what a u32 holds above them is not looked at.
#[derive(Clone, Copy, Debug, PartialEq, Eq)]
pub struct Channel {
    pub address: u32,
    pub count: u16,
    pub io: u16,
    // kept: a register that is written and read back as a byte, of whose bits three are looked at: no plainer as an enum
    pub mode: u8,
    pub masked: bool,
    pub level: u8,
}

// The 24 bits of an address.
fn address_bits(value: u32) -> u32
    ensures { result ≡ value % 16777216 }
{
    value & 0xff_ffff
}

// An address further on, modulo 2^24.
pub fn advance(at: u32, by: u32) -> u32
    ensures { result ≡ after at by }
{
    address_bits(at.wrapping_add(by))
}

impl Channel {
    // A channel at power-on: all 0 but the mask and the level.
    pub fn fresh(level: u8) -> Channel
        ensures { result ≡ fresh level }
    {
        Channel {
            address: 0,
            count: 0,
            io: 0,
            mode: 0,
            masked: true,
            level,
        }
    }

    pub fn memory_address(&self) -> u32
        ensures { result ≡ memory_address self.now }
    {
        address_bits(self.address)
    }

    // Whether that bit of the mode is set.
    fn has_mode(&self, bit: u8) -> bool
        ensures { result ≡ has self.now.mode bit }
    {
        self.mode & bit != 0
    }

    // Mode bit 6: units of 16 bits.
    pub fn is_wide(&self) -> bool
        ensures { result ≡ has self.now.mode 64 }
    {
        self.has_mode(0x40)
    }

    // Mode bit 3: writes memory from a giver.
    pub fn writes_memory(&self) -> bool
        ensures { result ≡ has self.now.mode 8 }
    {
        self.has_mode(8)
    }

    // Mode bit 2: moves units, where a clear bit verifies.
    pub fn transfers(&self) -> bool
        ensures { result ≡ has self.now.mode 4 }
    {
        self.has_mode(4)
    }

    // One unit further: the address rises by the unit's bytes, the count falls by one.
    pub fn step(&mut self, wide: bool)
        ensures { self.new ≡ stepped self.old wide }
    {
        let bytes = if wide { 2 } else { 1 };
        self.address = advance(self.address, bytes);
        self.count = self.count.wrapping_sub(1);
    }

    pub fn set_mask(&mut self, masked: bool)
        ensures { self.new ≡ with_mask self.old masked }
    {
        self.masked = masked;
    }
}
