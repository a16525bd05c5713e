// Bytes that lie in lent memory round its end.
ghost use Rattle.std.specs.Prelude.{◌≡◌, ◌+◌, ◌^◌, ◌<◌, ◌≤◌, ◌++◌, length, drop, slice_set};
ghost use Rattle.shelves.specs.Layout.{turn, byte, stretch, laid, slid};

use crate::extent::Extent;

// `room` bytes are in use, and the first is at `start`.
// The bytes are no field: they are lent shared for reading and exclusively for writing, and one struct cannot hold them both ways.
#[derive(Clone, Copy)]
pub struct Round {
    pub room: usize,
    pub start: usize,
    ghost begins: { start ≤ room },
}

impl Round {
    // The place `i` places on.
    pub fn place(self, i: usize) -> usize
        ensures { result ≡ turn self.room self.start i }
    {
        let left = self.room - self.start;
        if i < left { self.start + i } else { i - left }
    }

    // The byte `i` places on, and 0 past the memory.
    pub fn byte(self, bytes: &[u8], i: usize) -> u8
        ensures { result ≡ byte bytes.now self.room self.start i }
    {
        bytes.get(self.place(i)).copied().unwrap_or(0)
    }

    // Writes the byte `i` places on; nothing past the memory.
    pub fn put_byte(self, bytes: &mut [u8], i: usize, b: u8)
        ensures { bytes.new ≡ slice_set bytes.old (turn self.room self.start i) b }
    {
        let at = self.place(i);
        if at < bytes.len() {
            bytes[at] = b;
        }
    }

    // Copies the bytes at an extent to the front of the memory.
    // Stays byte by byte, and so does `write_in`: slices up to `room` would panic on a shorter memory, and no clause here asks that it is as long.
    pub fn copy_out(self, bytes: &[u8], extent: Extent, memory: &mut [u8])
        requires { extent.length ≤ length memory.old }
        ensures { memory.new ≡ stretch bytes.now self.room self.start extent.from extent.length ++ drop extent.length memory.old }
    {
        for (i, b) in memory[..extent.length].iter_mut().enumerate() {
            *b = self.byte(bytes, extent.from + i);
        }
    }

    // Writes the bytes of `news`, the first of them `from` places on.
    pub fn write_in(self, bytes: &mut [u8], from: usize, news: &[u8])
        requires { from + length news.now < 2 ^ 64 }
        ensures { bytes.new ≡ laid bytes.old self.room self.start from news.now }
    {
        for (i, b) in news.iter().enumerate() {
            self.put_byte(bytes, from + i, *b);
        }
    }

    // Moves `count` bytes, from the one `at + gap` places on, down to `at`.
    // Stays byte by byte: both stretches may go round the end, in pieces whose cuts would have to be worked out.
    pub fn slide_down(self, bytes: &mut [u8], at: usize, gap: usize, count: usize)
        requires { at + gap + count < 2 ^ 64 }
        ensures { bytes.new ≡ slid bytes.old self.room self.start at gap count }
    {
        for i in 0..count {
            let b = self.byte(bytes, at + i + gap);
            self.put_byte(bytes, at + i, b);
        }
    }
}
