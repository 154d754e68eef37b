// Standard output through a buffer.
ghost use Rattle.std.specs.Prelude.{◌≡◌, true, false, ◌+◌, ◌-◌, ◌^◌, ◌≤◌, min, OnOk, OnErr};
ghost use Rattle.io.specs.Digits.{IsDigitCount};

use std::fmt;

// The descriptor of standard output.
const STDOUT: i32 = 1;

// What is printed, up to 65,536 bytes at a time. After a write that failed nothing more is put: each error is passed on.
// Stays: a buffer and how much of it is filled. Memory is fixed here (a rule of the project), and the library's vectors are of the heap.
#[derive(Drop)]
pub struct Output {
    buffer: [u8; 65536],
    filled: usize,
    // Did a write fail?
    failed: bool,
    ghost fits: { filled ≤ 65536 },
}

impl Output {
    // An output that holds nothing.
    pub fn new() -> Self
        ensures { result.filled ≡ 0 }
    {
        Output {
            buffer: [0; 65536],
            filled: 0,
            failed: false,
        }
    }

    fn push(&mut self, b: u8) -> fmt::Result
        ensures kept { self.old.failed ≡ true → self.new.failed ≡ true }
        ensures marked { OnErr result (self.new.failed ≡ true) }
    {
        if self.filled == 65536 {
            self.flush()?;
        }
        self.buffer[self.filled] = b;
        self.filled += 1;
        Ok(())
    }

    // Puts bytes that need not be UTF-8. Most fit in what is left of the buffer, and are copied at once.
    // Inlined, since each piece of a row is put by itself: as calls these took a quarter more of a list's instructions.
    #[inline(always)]
    pub fn put(&mut self, bytes: &[u8]) -> fmt::Result
        ensures kept { self.old.failed ≡ true → self.new.failed ≡ true }
        ensures marked { OnErr result (self.new.failed ≡ true) }
    {
        let Some(free) = self.buffer[self.filled..].get_mut(..bytes.len()) else {
            return self.put_through(bytes);
        };
        free.copy_from_slice(bytes);
        self.filled += bytes.len();
        Ok(())
    }

    // Puts bytes that pass the buffer's end, and go on at its start.
    // Stays: a byte at a time. A full buffer is written when another byte comes, and not before: slices cut at its end would be no plainer.
    #[inline(never)]
    fn put_through(&mut self, bytes: &[u8]) -> fmt::Result
        ensures kept { self.old.failed ≡ true → self.new.failed ≡ true }
        ensures marked { OnErr result (self.new.failed ≡ true) }
    {
        for b in bytes {
            self.push(*b)?;
        }
        Ok(())
    }

    // Writes what the buffer holds, if no write has failed before.
    pub fn flush(&mut self) -> fmt::Result
        ensures kept { self.old.failed ≡ true → self.new.failed ≡ true }
        ensures marked { OnErr result (self.new.failed ≡ true) }
        ensures ok { OnOk result ((self.new.filled ≡ 0) × (self.old.failed ≡ false)) }
    {
        if self.failed || !io::write_all(STDOUT, &self.buffer[..self.filled]) {
            self.failed = true;
            return Err(fmt::Error);
        }
        self.filled = 0;
        Ok(())
    }
}

impl fmt::Write for Output {
    // A write that failed stays one.
    ghost write_str_gives = { λ old _ new. old.failed ≡ true → new.failed ≡ true };

    #[inline(always)]
    fn write_str(&mut self, s: &str) -> fmt::Result
        ensures kept { self.old.failed ≡ true → self.new.failed ≡ true }
        ensures marked { OnErr result (self.new.failed ≡ true) }
    {
        self.put(s.as_bytes())
    }
}

// Stays: `less` and `sum`, beside the library's methods. What may not change: docs/PROMISES.md names them, and `less_unique` and `sum_unique`.

// a - b, and 0 where b is larger.
pub fn less(a: usize, b: usize) -> usize
    ensures { result ≡ a - b }
{
    a.saturating_sub(b)
}

// a + b, and the largest number where the sum is none.
pub fn sum(a: usize, b: usize) -> usize
    ensures { result ≡ min (a + b) (2 ^ 64 - 1) }
{
    a.saturating_add(b)
}

// How many decimal digits n has.
pub fn digits(n: usize) -> usize
    ensures { IsDigitCount 10 1 n result }
{
    let mut text = [0u8; 20];
    io::decimal(n as u64, &mut text)
}
