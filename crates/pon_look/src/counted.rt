use pon_device::{DevRead, Failed};

/// A reader that counts the bytes that it gives, modulo 2^64.
#[derive(Drop)]
pub struct CountedBytes<R> {
    inner: R,
    bytes: u64,
}

impl<R> CountedBytes<R> {
    ghost use Rattle.std.specs.Prelude.{◌≡◌};

    /// Makes a reader that has given no bytes.
    pub fn new(inner: R) -> Self
        ensures { result ≡ record { inner = inner; bytes = 0 } }
    {
        CountedBytes { inner, bytes: 0 }
    }

    /// The number of bytes given, modulo 2^64.
    pub fn bytes(&self) -> u64
        ensures { result ≡ self.now.bytes }
    {
        self.bytes
    }
}

impl<R: DevRead> DevRead for CountedBytes<R> {
    ghost calls = { λ s. R.calls s.inner };

    ghost failures = { λ s. R.failures s.inner };

    ghost remaining = { λ s. R.remaining s.inner };

    fn read(&mut self, buf: &mut [u8]) -> Result<usize, Failed> {
        match self.inner.read(buf) {
            Ok(n) => {
                self.bytes = self.bytes.wrapping_add(n as u64);
                Ok(n)
            }
            Err(failed) => Err(failed),
        }
    }
}
