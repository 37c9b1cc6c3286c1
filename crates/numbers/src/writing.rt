// [`WriteBytesExt`], which writes numbers.
ghost use Rattle.std.specs.{Float.{binary32, binary64}, Prelude.{[], ◌∷◌, to_bits}, Int.{w8, w16, w32, w64, w128, cast_unsigned}};
ghost use Rattle.no_std_io2.specs.Writers.{WriteAllOf};

use byteorder::ByteOrder;
use no_std_io2::io::{Result, Write};
use std::num::{f32_to_bits_with_nan, f64_to_bits_with_nan};

/// Writes numbers to any writer. Each call is one `write_all` of the bytes of the number, in the order that its type
/// parameter names. Follows `WriteBytesExt` of the Rust crate `byteorder`.
///
/// # Errors
/// Each call returns the error of that `write_all`. Some first bytes of the number were then accepted, and the caller
/// cannot know how many. To continue after a fault, put the bytes of the number into an array, as by
/// `BigEndian::write_u16(&mut array, n)`, and call `write_rest`; or write to a `BufWriter`, which has room.
pub trait WriteBytesExt: Write {
    /// Writes a byte.
    final fn write_u8(&mut self, n: u8) -> Result<()>
    where
        Self: Sized,
        ensures law { WriteAllOf ⟦<Self as Write>⟧ self.old (n ∷ []) result self.new }
    {
        self.write_all(&[n])
    }

    /// Writes a signed byte.
    final fn write_i8(&mut self, n: i8) -> Result<()>
    where
        Self: Sized,
        ensures law { WriteAllOf ⟦<Self as Write>⟧ self.old (cast_unsigned w8 n ∷ []) result self.new }
    {
        self.write_u8(n.cast_unsigned())
    }

    /// Writes a number of 2 bytes.
    final fn write_u16<T: ByteOrder>(&mut self, n: u16) -> Result<()>
    where
        Self: Sized,
        ensures law { WriteAllOf ⟦<Self as Write>⟧ self.old (T.bytes_of 2 n) result self.new }
    {
        let mut bytes = [0u8; 2];
        T::write_u16(&mut bytes, n);
        self.write_all(&bytes)
    }

    /// Writes a number of 4 bytes.
    final fn write_u32<T: ByteOrder>(&mut self, n: u32) -> Result<()>
    where
        Self: Sized,
        ensures law { WriteAllOf ⟦<Self as Write>⟧ self.old (T.bytes_of 4 n) result self.new }
    {
        let mut bytes = [0u8; 4];
        T::write_u32(&mut bytes, n);
        self.write_all(&bytes)
    }

    /// Writes a number of 8 bytes.
    final fn write_u64<T: ByteOrder>(&mut self, n: u64) -> Result<()>
    where
        Self: Sized,
        ensures law { WriteAllOf ⟦<Self as Write>⟧ self.old (T.bytes_of 8 n) result self.new }
    {
        let mut bytes = [0u8; 8];
        T::write_u64(&mut bytes, n);
        self.write_all(&bytes)
    }

    /// Writes a signed number of 2 bytes.
    final fn write_i16<T: ByteOrder>(&mut self, n: i16) -> Result<()>
    where
        Self: Sized,
        ensures law { WriteAllOf ⟦<Self as Write>⟧ self.old (T.bytes_of 2 (cast_unsigned w16 n)) result self.new }
    {
        self.write_u16::<T>(n.cast_unsigned())
    }

    /// Writes a signed number of 4 bytes.
    final fn write_i32<T: ByteOrder>(&mut self, n: i32) -> Result<()>
    where
        Self: Sized,
        ensures law { WriteAllOf ⟦<Self as Write>⟧ self.old (T.bytes_of 4 (cast_unsigned w32 n)) result self.new }
    {
        self.write_u32::<T>(n.cast_unsigned())
    }

    /// Writes a signed number of 8 bytes.
    final fn write_i64<T: ByteOrder>(&mut self, n: i64) -> Result<()>
    where
        Self: Sized,
        ensures law { WriteAllOf ⟦<Self as Write>⟧ self.old (T.bytes_of 8 (cast_unsigned w64 n)) result self.new }
    {
        self.write_u64::<T>(n.cast_unsigned())
    }

    /// Writes a number of 16 bytes.
    final fn write_u128<T: ByteOrder>(&mut self, n: u128) -> Result<()>
    where
        Self: Sized,
        ensures law { WriteAllOf ⟦<Self as Write>⟧ self.old (T.bytes_of 16 n) result self.new }
    {
        let mut bytes = [0u8; 16];
        T::write_u128(&mut bytes, n);
        self.write_all(&bytes)
    }

    /// Writes a signed number of 16 bytes.
    final fn write_i128<T: ByteOrder>(&mut self, n: i128) -> Result<()>
    where
        Self: Sized,
        ensures law { WriteAllOf ⟦<Self as Write>⟧ self.old (T.bytes_of 16 (cast_unsigned w128 n)) result self.new }
    {
        self.write_u128::<T>(n.cast_unsigned())
    }

    /// Writes a floating-point number of 4 bytes, each NaN as the quiet one without a sign.
    final fn write_f32<T: ByteOrder>(&mut self, n: f32) -> Result<()>
    where
        Self: Sized,
        ensures law { WriteAllOf ⟦<Self as Write>⟧ self.old (T.bytes_of 4 (to_bits binary32 n)) result self.new }
    {
        self.write_u32::<T>(f32_to_bits_with_nan(n))
    }

    /// Writes a floating-point number of 8 bytes, each NaN as the quiet one without a sign.
    final fn write_f64<T: ByteOrder>(&mut self, n: f64) -> Result<()>
    where
        Self: Sized,
        ensures law { WriteAllOf ⟦<Self as Write>⟧ self.old (T.bytes_of 8 (to_bits binary64 n)) result self.new }
    {
        self.write_u64::<T>(f64_to_bits_with_nan(n))
    }
}

impl<W: Write> WriteBytesExt for W {}
