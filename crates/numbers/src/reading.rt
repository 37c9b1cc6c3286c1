// [`ReadBytesExt`], which reads numbers.
ghost use Rattle.std.specs.{Float.{binary32, binary64}, Prelude.{FitsSigned, ◌≡◌, ◌<◌, ◌^◌, [], ◌∷◌, from_bits}};
ghost use Rattle.std.specs.Int.{w8, w16, w32, w64, w128, cast_signed, cast_unsigned};
ghost use Rattle.numbers.specs.Numbers.{AreBytes, ReadsValue, ReadsBack, ReadsInto, first_byte, signed_by};

use byteorder::ByteOrder;
use no_std_io2::io::{Read, Result};
use std::num::{f32_from_bits_with_nan, f64_from_bits_with_nan};

/// Reads numbers from any reader. Each call for one number is one `read_exact` of its bytes, in the order that the type
/// parameter names. Follows `ReadBytesExt` of the Rust crate `byteorder`.
///
/// # Errors
/// Each call for one number returns the error of that `read_exact`: the first fault that comes before the last byte of
/// the number, after which the bytes before it are taken; or `UnexpectedEof` if the bytes end too early, after which all of
/// them are taken, except that slices and cursors take nothing. Never returns `Interrupted`.
///
/// A call for several numbers returns the error of the first read that fails. The numbers before it are in `dst`, and the
/// others are as they were.
pub trait ReadBytesExt: Read {
    /// Reads a byte.
    final fn read_u8(&mut self) -> Result<u8>
    where
        Self: Sized,
        ensures reads { ReadsValue ⟦<Self as Read>⟧ first_byte 1 self.old result self.new }
        ensures back { ReadsBack ⟦<Self as Read>⟧ (λ x. x < 256) (λ x. x ∷ []) self.old result self.new }
    {
        let mut bytes = [0u8; 1];
        self.read_exact(&mut bytes)?;
        let bytes = plain_bytes(&bytes);
        Ok(bytes[0])
    }

    /// Reads a number of 2 bytes.
    final fn read_u16<T: ByteOrder>(&mut self) -> Result<u16>
    where
        Self: Sized,
        ensures reads { ReadsValue ⟦<Self as Read>⟧ (T.number_of 2) 2 self.old result self.new }
        ensures back { ReadsBack ⟦<Self as Read>⟧ (λ x. x < 256 ^ 2) (T.bytes_of 2) self.old result self.new }
    {
        let mut bytes = [0u8; 2];
        self.read_exact(&mut bytes)?;
        Ok(T::read_u16(plain_bytes(&bytes)))
    }

    /// Reads a number of 4 bytes.
    final fn read_u32<T: ByteOrder>(&mut self) -> Result<u32>
    where
        Self: Sized,
        ensures reads { ReadsValue ⟦<Self as Read>⟧ (T.number_of 4) 4 self.old result self.new }
        ensures back { ReadsBack ⟦<Self as Read>⟧ (λ x. x < 256 ^ 4) (T.bytes_of 4) self.old result self.new }
    {
        let mut bytes = [0u8; 4];
        self.read_exact(&mut bytes)?;
        Ok(T::read_u32(plain_bytes(&bytes)))
    }

    /// Reads a number of 8 bytes.
    final fn read_u64<T: ByteOrder>(&mut self) -> Result<u64>
    where
        Self: Sized,
        ensures reads { ReadsValue ⟦<Self as Read>⟧ (T.number_of 8) 8 self.old result self.new }
        ensures back { ReadsBack ⟦<Self as Read>⟧ (λ x. x < 256 ^ 8) (T.bytes_of 8) self.old result self.new }
    {
        let mut bytes = [0u8; 8];
        self.read_exact(&mut bytes)?;
        Ok(T::read_u64(plain_bytes(&bytes)))
    }

    /// Reads a number of 16 bytes.
    final fn read_u128<T: ByteOrder>(&mut self) -> Result<u128>
    where
        Self: Sized,
        ensures reads { ReadsValue ⟦<Self as Read>⟧ (T.number_of 16) 16 self.old result self.new }
        ensures back { ReadsBack ⟦<Self as Read>⟧ (λ x. x < 256 ^ 16) (T.bytes_of 16) self.old result self.new }
    {
        let mut bytes = [0u8; 16];
        self.read_exact(&mut bytes)?;
        Ok(T::read_u128(plain_bytes(&bytes)))
    }

    /// Reads a signed byte.
    final fn read_i8(&mut self) -> Result<i8>
    where
        Self: Sized,
        ensures reads { ReadsValue ⟦<Self as Read>⟧ (λ bytes. cast_signed w8 (first_byte bytes)) 1 self.old result self.new }
        ensures back { ReadsBack ⟦<Self as Read>⟧ (FitsSigned w8) (λ x. cast_unsigned w8 x ∷ []) self.old result self.new }
    {
        Ok(self.read_u8()?.cast_signed())
    }

    /// Reads a signed number of 2 bytes.
    final fn read_i16<T: ByteOrder>(&mut self) -> Result<i16>
    where
        Self: Sized,
        ensures reads { ReadsValue ⟦<Self as Read>⟧ (signed_by w16 T.number_of 2) 2 self.old result self.new }
        ensures back { ReadsBack ⟦<Self as Read>⟧ (FitsSigned w16) (λ x. T.bytes_of 2 (cast_unsigned w16 x)) self.old result self.new }
    {
        Ok(self.read_u16::<T>()?.cast_signed())
    }

    /// Reads a signed number of 4 bytes.
    final fn read_i32<T: ByteOrder>(&mut self) -> Result<i32>
    where
        Self: Sized,
        ensures reads { ReadsValue ⟦<Self as Read>⟧ (signed_by w32 T.number_of 4) 4 self.old result self.new }
        ensures back { ReadsBack ⟦<Self as Read>⟧ (FitsSigned w32) (λ x. T.bytes_of 4 (cast_unsigned w32 x)) self.old result self.new }
    {
        Ok(self.read_u32::<T>()?.cast_signed())
    }

    /// Reads a signed number of 8 bytes.
    final fn read_i64<T: ByteOrder>(&mut self) -> Result<i64>
    where
        Self: Sized,
        ensures reads { ReadsValue ⟦<Self as Read>⟧ (signed_by w64 T.number_of 8) 8 self.old result self.new }
        ensures back { ReadsBack ⟦<Self as Read>⟧ (FitsSigned w64) (λ x. T.bytes_of 8 (cast_unsigned w64 x)) self.old result self.new }
    {
        Ok(self.read_u64::<T>()?.cast_signed())
    }

    /// Reads a signed number of 16 bytes.
    final fn read_i128<T: ByteOrder>(&mut self) -> Result<i128>
    where
        Self: Sized,
        ensures reads { ReadsValue ⟦<Self as Read>⟧ (signed_by w128 T.number_of 16) 16 self.old result self.new }
        ensures back { ReadsBack ⟦<Self as Read>⟧ (FitsSigned w128) (λ x. T.bytes_of 16 (cast_unsigned w128 x)) self.old result self.new }
    {
        Ok(self.read_u128::<T>()?.cast_signed())
    }

    /// Reads a floating-point number of 4 bytes. The bytes of a NaN give a NaN, whose bits are not kept: in Rattle no NaN has
    /// bits. To keep them, use `read_u32`.
    final fn read_f32<T: ByteOrder>(&mut self) -> Result<f32>
    where
        Self: Sized,
        ensures { ReadsValue ⟦<Self as Read>⟧ (λ bytes. from_bits binary32 (T.number_of 4 bytes)) 4 self.old result self.new }
    {
        Ok(f32_from_bits_with_nan(self.read_u32::<T>()?))
    }

    /// Reads a floating-point number of 8 bytes, a NaN as `read_f32` does.
    final fn read_f64<T: ByteOrder>(&mut self) -> Result<f64>
    where
        Self: Sized,
        ensures { ReadsValue ⟦<Self as Read>⟧ (λ bytes. from_bits binary64 (T.number_of 8 bytes)) 8 self.old result self.new }
    {
        Ok(f64_from_bits_with_nan(self.read_u64::<T>()?))
    }

    /// Reads signed bytes into `dst`, one after another.
    #[tactic(auto, using(crate::proofs::NumberLemmas::into_steps))]
    final fn read_i8_into(&mut self, dst: &mut [i8]) -> Result<()>
    where
        Self: Sized,
        ensures { ReadsInto ⟦<Self as Read>⟧ (λ bytes. cast_signed w8 (first_byte bytes)) 1 self.old dst.old result dst.new self.new }
    {
        'numbers: for i in 0..dst.len() {
            dst[i] = self.read_i8()?;
        }
        Ok(())
    }

    /// Reads numbers of 2 bytes each into `dst`, one after another.
    #[tactic(auto, using(crate::proofs::NumberLemmas::into_steps))]
    final fn read_u16_into<T: ByteOrder>(&mut self, dst: &mut [u16]) -> Result<()>
    where
        Self: Sized,
        ensures { ReadsInto ⟦<Self as Read>⟧ (T.number_of 2) 2 self.old dst.old result dst.new self.new }
    {
        'numbers: for i in 0..dst.len() {
            dst[i] = self.read_u16::<T>()?;
        }
        Ok(())
    }

    /// Reads numbers of 4 bytes each into `dst`, one after another.
    #[tactic(auto, using(crate::proofs::NumberLemmas::into_steps))]
    final fn read_u32_into<T: ByteOrder>(&mut self, dst: &mut [u32]) -> Result<()>
    where
        Self: Sized,
        ensures { ReadsInto ⟦<Self as Read>⟧ (T.number_of 4) 4 self.old dst.old result dst.new self.new }
    {
        'numbers: for i in 0..dst.len() {
            dst[i] = self.read_u32::<T>()?;
        }
        Ok(())
    }

    /// Reads numbers of 8 bytes each into `dst`, one after another.
    #[tactic(auto, using(crate::proofs::NumberLemmas::into_steps))]
    final fn read_u64_into<T: ByteOrder>(&mut self, dst: &mut [u64]) -> Result<()>
    where
        Self: Sized,
        ensures { ReadsInto ⟦<Self as Read>⟧ (T.number_of 8) 8 self.old dst.old result dst.new self.new }
    {
        'numbers: for i in 0..dst.len() {
            dst[i] = self.read_u64::<T>()?;
        }
        Ok(())
    }

    /// Reads signed numbers of 2 bytes each into `dst`, one after another.
    #[tactic(auto, using(crate::proofs::NumberLemmas::into_steps))]
    final fn read_i16_into<T: ByteOrder>(&mut self, dst: &mut [i16]) -> Result<()>
    where
        Self: Sized,
        ensures { ReadsInto ⟦<Self as Read>⟧ (signed_by w16 T.number_of 2) 2 self.old dst.old result dst.new self.new }
    {
        'numbers: for i in 0..dst.len() {
            dst[i] = self.read_i16::<T>()?;
        }
        Ok(())
    }

    /// Reads signed numbers of 4 bytes each into `dst`, one after another.
    #[tactic(auto, using(crate::proofs::NumberLemmas::into_steps))]
    final fn read_i32_into<T: ByteOrder>(&mut self, dst: &mut [i32]) -> Result<()>
    where
        Self: Sized,
        ensures { ReadsInto ⟦<Self as Read>⟧ (signed_by w32 T.number_of 4) 4 self.old dst.old result dst.new self.new }
    {
        'numbers: for i in 0..dst.len() {
            dst[i] = self.read_i32::<T>()?;
        }
        Ok(())
    }

    /// Reads signed numbers of 8 bytes each into `dst`, one after another.
    #[tactic(auto, using(crate::proofs::NumberLemmas::into_steps))]
    final fn read_i64_into<T: ByteOrder>(&mut self, dst: &mut [i64]) -> Result<()>
    where
        Self: Sized,
        ensures { ReadsInto ⟦<Self as Read>⟧ (signed_by w64 T.number_of 8) 8 self.old dst.old result dst.new self.new }
    {
        'numbers: for i in 0..dst.len() {
            dst[i] = self.read_i64::<T>()?;
        }
        Ok(())
    }
}

impl<R: Read> ReadBytesExt for R {}

// Returns these bytes. That each of them is below 256 follows from the type of an argument, and not from that of an array
// which a call has filled.
fn plain_bytes(bytes: &[u8]) -> &[u8]
    ensures same { result.now ≡ bytes.now }
    ensures are { AreBytes bytes.now }
{
    bytes
}
