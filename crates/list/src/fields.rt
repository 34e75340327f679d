// The records of a list, and the parts of a record of 64 bytes.
ghost use Rattle.std.specs.Prelude.{◌≡◌, ◌+◌, ◌-◌, ◌*◌, ◌≤◌, length};
ghost use Rattle.sizes.specs.Sizes.{password_bytes};
ghost use Rattle.list.specs.Records as records;

use sizes::Password;

// The bytes of a record.
pub const RECORD: usize = 64;

// The places of its parts.
pub const CODE: usize = 1;

const CURRENT: usize = 2;

const MODE: usize = 3;

const ENTRY: usize = 4;

const DATA_LENGTH: usize = 5;

const SIZE_HIGH: usize = 6;

const SIZE_LOW: usize = 7;

const HANDLE: usize = 8;

const HANDLE_END: usize = 31;

const FIRST: usize = 32;

const OTHER_END: usize = 55;

const SECOND: usize = 48;

// The most bytes of data that a record holds.
pub const MOST_DATA: usize = 32;

// The width of the clusters that a list makes.
pub const WIDTH: usize = 8;

// A record of a list.
#[derive(Clone, Copy)]
pub struct Record<'a> {
    pub bytes: &'a [u8; RECORD],
}

// Record k of a list, numbered from 1.
pub fn record_in(list: &[u8], k: usize) -> Record<'_>
    requires from { 1 ≤ k }
    requires inside { k * records.record_bytes ≤ length list.now }
    ensures { result.bytes.now ≡ records.record_in list.now k }
{
    Record {
        bytes: &list.as_chunks::<RECORD>().0[k - 1],
    }
}

impl<'a> Record<'a> {
    // The bytes from one place to another.
    fn part(self, from: usize, to: usize) -> &'a [u8]
        requires order { from ≤ to }
        requires inside { to ≤ records.record_bytes }
        ensures value { result.now ≡ records.field self.entry.bytes.now from (to - from) }
        ensures size { length result.now ≡ to - from }
    {
        let bytes = self.bytes;
        &bytes[from..to]
    }

    // The number of the next record of the chain.
    pub fn next(self) -> usize
        ensures { result ≡ records.byte self.entry.bytes.now 0 }
    {
        usize::from(self.bytes[0])
    }

    pub fn code(self) -> u8
        ensures { result ≡ records.code_of self.entry.bytes.now }
    {
        self.bytes[CODE]
    }

    pub fn current(self) -> usize
        ensures { result ≡ records.byte self.entry.bytes.now 2 }
    {
        usize::from(self.bytes[CURRENT])
    }

    pub fn mode(self) -> usize
        ensures { result ≡ records.byte self.entry.bytes.now 3 }
    {
        usize::from(self.bytes[MODE])
    }

    // The segment, the mask, or the local number of a new cluster.
    pub fn entry(self) -> usize
        ensures { result ≡ records.byte self.entry.bytes.now 4 }
    {
        usize::from(self.bytes[ENTRY])
    }

    pub fn mask(self) -> u16
        ensures { result ≡ records.byte self.entry.bytes.now 4 }
    {
        u16::from(self.bytes[ENTRY])
    }

    pub fn data_length(self) -> usize
        ensures { result ≡ records.data_length self.entry.bytes.now }
    {
        usize::from(self.bytes[DATA_LENGTH])
    }

    // Two bytes, the high one first.
    pub fn size(self) -> usize
        ensures { result ≡ records.byte self.entry.bytes.now 6 * 256 + records.byte self.entry.bytes.now 7 }
    {
        usize::from(u16::from_be_bytes([self.bytes[SIZE_HIGH], self.bytes[SIZE_LOW]]))
    }

    // The handle, and the second one of a join.
    pub fn handle(self) -> &'a [u8]
        ensures value { result.now ≡ records.field self.entry.bytes.now 8 records.handle_bytes }
        ensures size { length result.now ≡ records.handle_bytes }
    {
        self.part(HANDLE, HANDLE_END)
    }

    pub fn other(self) -> &'a [u8]
        ensures { result.now ≡ records.field self.entry.bytes.now 32 records.handle_bytes }
    {
        self.part(FIRST, OTHER_END)
    }

    // The first password, and the second.
    pub fn first(self) -> Password
        ensures { result ≡ records.field self.entry.bytes.now 32 password_bytes }
    {
        store::password_in(self.part(FIRST, SECOND))
    }

    pub fn second(self) -> Password
        ensures { result ≡ records.field self.entry.bytes.now 48 password_bytes }
    {
        store::password_in(self.part(SECOND, RECORD))
    }

    // The data of a write.
    pub fn data(self) -> &'a [u8]
        requires { records.data_length self.bytes.now ≤ records.most_data }
        ensures { result.now ≡ records.field self.entry.bytes.now 32 (records.data_length self.entry.bytes.now) }
    {
        self.part(FIRST, FIRST + self.data_length())
    }
}
