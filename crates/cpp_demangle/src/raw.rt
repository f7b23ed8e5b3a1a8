//! The bytes that a symbol keeps.

/// What holds the bytes of a name. `AsRef<[u8]>` in the original.
pub trait RawBytes: Drop {
    ghost use Rattle.std.specs.Prelude.{◌≡◌, ℕ, List};

    ghost bytes: { Self → List ℕ };

    /// The bytes.
    fn raw_bytes(&self) -> &[u8]
        ensures { result.now ≡ bytes self.now };
}

impl RawBytes for Vec<u8> {
    ghost bytes = { λ v. v.items };

    fn raw_bytes(&self) -> &[u8] {
        self.as_slice()
    }
}

impl<'a> RawBytes for &'a [u8] {
    ghost bytes = { λ s. s.now };

    fn raw_bytes(&self) -> &[u8] {
        self
    }
}
