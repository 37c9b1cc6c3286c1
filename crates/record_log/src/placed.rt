// Which streams put their bytes at a place: cursors over vectors, slices, arrays and boxed slices, a `Disk`, and a
// buffer in front of a stream that does.
ghost use Rattle.std.specs.{Box.{boxed_slice_items}, Prelude.{ℕ, List}};
ghost use Rattle.no_std_io2.specs.{Cursor.{cursor_inner, cursor_position}, BufWriter.{writer_inner, writer_buffer}};
ghost use Rattle.no_std_io2.specs.LineWriter.{line_inner, line_buffer};
ghost use Rattle.record_log.specs.Placed.{PutsAt, GoesNoFurther, vector_content, content_through, place_through};
ghost use Rattle.record_log.specs.Disk.{disk_content, disk_place};

use crate::disk::Disk;
use no_std_io2::io::{BufWriter, Cursor, LineWriter, Write};
use std::alloc::Allocator;
use std::boxed::BoxedSlice;

/// Cursors over vectors, owned or borrowed, put their bytes at their position. A `write_all` of one that fails puts none.
pub fn vectors_are_placed<'a, A: Allocator>(
    owned: &Cursor<Vec<u8, A>>,
    lent: &Cursor<&'a mut Vec<u8, A>>,
) -> u64
    ensures owned { PutsAt ⟦<Cursor<Vec<u8, A>> as Write>⟧ (λ c. (cursor_inner c).items) cursor_position }
    ensures lent { PutsAt ⟦<Cursor<&'a mut Vec<u8, A>> as Write>⟧ (λ c. (cursor_inner c).now.items) cursor_position }
    ensures owned_near { GoesNoFurther ⟦<Cursor<Vec<u8, A>> as Write>⟧ cursor_position }
    ensures lent_near { GoesNoFurther ⟦<Cursor<&'a mut Vec<u8, A>> as Write>⟧ cursor_position }
{
    owned.position().min(lent.position())
}

/// So do cursors over slices, arrays and boxed slices, as far as the bytes fit.
pub fn slices_are_placed<'a, const N: usize, A: Allocator>(
    slice: &Cursor<&'a mut [u8]>,
    array: &Cursor<[u8; N]>,
    boxed: &Cursor<BoxedSlice<u8, A>>,
) -> u64
    ensures slice { PutsAt ⟦<Cursor<&'a mut [u8]> as Write>⟧ (λ c. (cursor_inner c).now) cursor_position }
    ensures array { PutsAt ⟦<Cursor<[u8; N]> as Write>⟧ cursor_inner cursor_position }
    ensures boxed { PutsAt ⟦<Cursor<BoxedSlice<u8, A>> as Write>⟧ (λ c. boxed_slice_items (cursor_inner c)) cursor_position }
    ensures slice_near { GoesNoFurther ⟦<Cursor<&'a mut [u8]> as Write>⟧ cursor_position }
    ensures array_near { GoesNoFurther ⟦<Cursor<[u8; N]> as Write>⟧ cursor_position }
    ensures boxed_near { GoesNoFurther ⟦<Cursor<BoxedSlice<u8, A>> as Write>⟧ cursor_position }
{
    slice.position().min(array.position()).min(boxed.position())
}

/// And so does a disk, also when its power is cut.
pub fn disk_is_placed(disk: &Disk) -> usize
    ensures puts { PutsAt ⟦<Disk as Write>⟧ disk_content disk_place }
    ensures near { GoesNoFurther ⟦<Disk as Write>⟧ disk_place }
{
    disk.content().len()
}

/// Through a buffer too: its content is that of the stream with the held bytes at their place, and its place is behind
/// them. After a failed call the stream may have some first held bytes behind its place, over which the others go.
pub fn buffers_are_placed<W: Write + Drop, const S: usize>(buffer: &BufWriter<W, S>) -> usize
    ensures puts { (content : W → List ℕ) (place : W → ℕ) → PutsAt W.Write content place
        → PutsAt ⟦<BufWriter<W, S> as Write>⟧ (content_through writer_inner writer_buffer content place)
        (place_through writer_inner writer_buffer place) }
    ensures near { (content : W → List ℕ) (place : W → ℕ) → PutsAt W.Write content place → GoesNoFurther W.Write place
        → GoesNoFurther ⟦<BufWriter<W, S> as Write>⟧ (place_through writer_inner writer_buffer place) }
{
    buffer.buffer().len()
}

/// And through a buffer that is sent line by line, if a failed `write_all` of the stream goes no further than its bytes.
pub fn line_buffers_are_placed<W: Write + Drop, const S: usize>(buffer: &LineWriter<W, S>) -> usize
    ensures { (content : W → List ℕ) (place : W → ℕ) → PutsAt W.Write content place → GoesNoFurther W.Write place
        → PutsAt ⟦<LineWriter<W, S> as Write>⟧ (content_through line_inner line_buffer content place)
        (place_through line_inner line_buffer place) }
{
    buffer.buffer().len()
}

/// So a `LineWriter` over a cursor over a vector puts its bytes at its place, and nothing is assumed.
pub fn lines_are_placed<A: Allocator, const S: usize>(
    buffer: &LineWriter<Cursor<Vec<u8, A>>, S>,
) -> usize
    ensures { PutsAt ⟦<LineWriter<Cursor<Vec<u8, A>>, S> as Write>⟧ (content_through line_inner line_buffer vector_content cursor_position)
        (place_through line_inner line_buffer cursor_position) }
{
    line_buffers_are_placed(buffer)
}
