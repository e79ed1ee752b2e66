//! Bytes in a row, to which more are appended. This file knows bytes and characters, and no device and no
//! text.
ghost use Rattle.std.specs.Prelude.{◌≡◌, ◌+◌, ◌≤◌, ◌↔◌, [], ◌++◌, length, take, IsTrue};
ghost use Rattle.std.specs.Char.{encode_utf8};
ghost use Rattle.ini_text.specs.declared.buffer.TheConstants.{LONGEST_CHARACTER};

/// How many bytes a character has at most.
pub(crate) const LONGEST_CHARACTER: usize = 4;

/// At most `SIZE` bytes. It takes no memory.
#[derive(Drop)]
pub(crate) struct Buffer<const SIZE: usize> {
    pub(crate) bytes: [u8; SIZE],
    pub(crate) len: usize,
    ghost within: { len ≤ SIZE },
}

impl<const SIZE: usize> Buffer<SIZE> {
    ghost use Rattle.ini_text.specs.Buffered.{buffered};

    /// No bytes.
    #[inline(always)]
    pub(crate) fn new() -> Buffer<SIZE>
        ensures { buffered result ≡ [] }
    {
        Buffer {
            bytes: [0; SIZE],
            len: 0,
        }
    }

    /// The bytes.
    pub(crate) fn as_bytes(&self) -> &[u8]
        ensures { result.now ≡ buffered self.now }
    {
        let all = &self.bytes[..];
        &all[..self.len]
    }

    /// How many bytes there are.
    #[inline(always)]
    pub(crate) fn len(&self) -> usize
        ensures { result ≡ length (buffered self.now) }
    {
        self.len
    }

    /// Whether there is room for so many more.
    pub(crate) fn has_room(&self, count: usize) -> bool
        ensures { IsTrue result ↔ (length (buffered self.now) + count ≤ SIZE) }
    {
        count <= SIZE - self.len
    }

    /// Appends a few bytes.
    #[inline(always)]
    pub(crate) fn push(&mut self, bytes: &[u8])
        requires { length (buffered self.old) + length bytes.now ≤ SIZE }
        ensures { buffered self.new ≡ buffered self.old ++ bytes.now }
    {
        self.len = place(&mut self.bytes, self.len, bytes);
    }

    /// Keeps the first `len` bytes.
    pub(crate) fn truncate(&mut self, len: usize)
        requires { len ≤ length (buffered self.old) }
        ensures { buffered self.new ≡ take len (buffered self.old) }
    {
        self.len = len;
    }
}

/// Puts a few bytes after the first `len`, and answers how many there are then.
#[inline(always)]
pub(crate) fn place(bytes: &mut [u8], len: usize, few: &[u8]) -> usize
    requires { len + length few.now ≤ length bytes.old }
    ensures placed { take result bytes.new ≡ take len bytes.old ++ few.now }
    ensures len { result ≡ len + length few.now }
    ensures length { length bytes.new ≡ length bytes.old }
{
    let end = len + few.len();
    if let [byte] = few {
        bytes[len] = *byte;
    } else {
        bytes[len..end].copy_from_slice(few);
    }
    end
}

/// The same of a character.
#[inline(always)]
pub(crate) fn place_char(bytes: &mut [u8], len: usize, c: char) -> usize
    requires { len + LONGEST_CHARACTER ≤ length bytes.old }
    ensures placed { take result bytes.new ≡ take len bytes.old ++ encode_utf8 c }
    ensures within { result ≤ len + LONGEST_CHARACTER }
    ensures length { length bytes.new ≡ length bytes.old }
{
    let code = u32::from(c);
    if code < 0x80 {
        return place(bytes, len, &[code as u8]);
    }
    if code < 0x800 {
        return place(
            bytes,
            len,
            &[(0xC0 + code / 0x40) as u8, (0x80 + code % 0x40) as u8],
        );
    }
    let mut room = [0; LONGEST_CHARACTER];
    place(bytes, len, c.encode_utf8(&mut room).as_bytes())
}
