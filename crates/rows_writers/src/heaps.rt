// Writers over a vector in a heap, and readers that are read into one.
//
// A line `new` says the heap's size, the vector's capacity and its first bytes, or those of a reader. A row is a call;
// then its result, the vector's bytes, the held bytes, the position, the back half of a queue or what a reader has left,
// the limit if there is one, and how many bytes of the heap are in use. Besides the calls of a writer or `read_to_end`
// there are `fill`, which allocates all of the heap that is left, and `free`, which frees that. A heap has room for a
// number of bytes, in blocks whose lengths are rounded up to 16; an allocation that does not fit fails. A block that grows
// is in the heap together with its copy until the copy is made.
use crate::writing::make_any_call;
use linked_list_allocator::LocalHeap;
use no_std_io2::io::{BufWriter, Cursor, LineWriter, Read, Take};
use rows_play::prelude::*;
use std::alloc::Allocator;
use std::collections::VecDeque;

/// A vector in a heap.
type HeapVec<'a> = Vec<u8, &'a LocalHeap>;

// A stream over a vector in a heap.
trait HeapStream {
    /// Makes a call, and prints its result.
    fn call(&mut self, call: &Call<'_>, line: &mut Line);

    /// Prints the vector's bytes, and in the next column the held bytes, the position or what is left.
    fn show(&self, line: &mut Line);
}

fn show_held(bytes: &[u8], held: &[u8], line: &mut Line) {
    line.bytes(bytes);
    line.bytes_column(held);
}

impl HeapStream for HeapVec<'_> {
    fn call(&mut self, call: &Call<'_>, line: &mut Line) {
        make_call(self, call, line);
    }

    fn show(&self, line: &mut Line) {
        show_held(self, b"", line);
    }
}

impl HeapStream for BufWriter<HeapVec<'_>, 8> {
    fn call(&mut self, call: &Call<'_>, line: &mut Line) {
        make_call(self, call, line);
    }

    fn show(&self, line: &mut Line) {
        show_held(self.get_ref(), self.buffer(), line);
    }
}

impl HeapStream for LineWriter<HeapVec<'_>, 8> {
    fn call(&mut self, call: &Call<'_>, line: &mut Line) {
        make_call(self, call, line);
    }

    fn show(&self, line: &mut Line) {
        show_held(self.get_ref(), self.buffer(), line);
    }
}

impl HeapStream for VecDeque<u8, &LocalHeap> {
    fn call(&mut self, call: &Call<'_>, line: &mut Line) {
        make_call(self, call, line);
    }

    fn show(&self, line: &mut Line) {
        let (front, back) = self.as_slices();
        show_held(front, back, line);
    }
}

fn show_place(bytes: &[u8], position: u64, line: &mut Line) {
    line.bytes(bytes);
    line.value_column(position);
}

fn show_clone(cursor: &Cursor<HeapVec<'_>>, line: &mut Line) {
    match cursor.clone() {
        Ok(copy) => {
            line.bytes(copy.get_ref());
            line.word(" at ");
            line.value(copy.position());
        }
        Err(e) => line.error(&e),
    }
}

impl HeapStream for Cursor<HeapVec<'_>> {
    fn call(&mut self, call: &Call<'_>, line: &mut Line) {
        match call.word {
            "clone" => show_clone(self, line),
            "place" => {
                line.word("-");
                self.set_position(call.number(line) as u64);
            }
            _ => make_any_call(self, call, line),
        }
    }

    fn show(&self, line: &mut Line) {
        show_place(self.get_ref(), self.position(), line);
    }
}

// For every allocator, because a call through a bound needs a type with one lifetime.
impl<A: Allocator> HeapStream for Cursor<&mut Vec<u8, A>> {
    fn call(&mut self, call: &Call<'_>, line: &mut Line) {
        make_any_call(self, call, line);
    }

    fn show(&self, line: &mut Line) {
        show_place(self.get_ref(), self.position(), line);
    }
}

// A reader, and the vector into which it is read.
#[derive(Drop)]
struct Reading<'h, R: Drop> {
    from: R,
    to: HeapVec<'h>,
}

impl<'h> HeapStream for Reading<'h, &[u8]> {
    fn call(&mut self, call: &Call<'_>, line: &mut Line) {
        call_read(&mut self.from, &mut self.to, call, line);
    }

    fn show(&self, line: &mut Line) {
        show_held(&self.to, self.from, line);
    }
}

impl<'h> HeapStream for Reading<'h, Take<&[u8]>> {
    fn call(&mut self, call: &Call<'_>, line: &mut Line) {
        call_read(&mut self.from, &mut self.to, call, line);
    }

    fn show(&self, line: &mut Line) {
        show_held(&self.to, self.from.get_ref(), line);
        line.value_column(self.from.limit());
    }
}

fn call_read<R: Read>(from: &mut R, to: &mut HeapVec<'_>, call: &Call<'_>, line: &mut Line) {
    match call.word {
        "read_to_end" => line.answer(&from.read_to_end(to)),
        _ => line.tell(Unplayed::NoCall),
    }
}

// A stream, its heap, and the block that fills the heap.
#[derive(Drop)]
struct InHeap<'h, T: Drop> {
    stream: T,
    heap: &'h LocalHeap,
    filler: HeapVec<'h>,
}

// Allocates all of the heap that is left, as one block.
fn fill(filler: &mut HeapVec<'_>, heap: &LocalHeap, line: &mut Line) {
    line.word("-");
    if filler.reserve(heap.free()).is_err() {
        line.tell(Unplayed::NotReady);
    }
}

impl<'h, T: HeapStream + Drop> Stream for InHeap<'h, T> {
    fn play(&mut self, call: &Call<'_>, line: &mut Line) {
        match call.word {
            "fill" => fill(&mut self.filler, self.heap, line),
            "free" => {
                line.word("-");
                self.filler = Vec::new(self.heap);
            }
            _ => self.stream.call(call, line),
        }
        line.column();
        self.stream.show(line);
        line.value_column(self.heap.used());
    }
}

fn play<T: HeapStream + Drop>(
    stream: T,
    heap: &LocalHeap,
    player: &mut Player<'_, '_>,
) -> Played<()> {
    let filler = Vec::new(heap);
    player.play(&mut InHeap {
        stream,
        heap,
        filler,
    })
}

// Lends the writer of this name over a vector.
fn lend_writer<'h>(
    name: &str,
    heap: &'h LocalHeap,
    vector: HeapVec<'h>,
    player: &mut Player<'_, '_>,
) -> Played<()> {
    match name {
        "Vec" => play(vector, heap, player),
        "BufWriter 8 Vec" => play(BufWriter::<HeapVec<'h>, 8>::new(vector), heap, player),
        "LineWriter 8 Vec" => play(LineWriter::<HeapVec<'h>, 8>::new(vector), heap, player),
        "Queue" => play(VecDeque::from_vec(vector), heap, player),
        "Cursor Vec" => play(Cursor::new(vector), heap, player),
        "Cursor &mut Vec" => {
            let mut vector = vector;
            play(Cursor::new(&mut vector), heap, player)
        }
        _ => Err(Unplayed::NoStream),
    }
}

// Lends a reader of these bytes, by itself or below a limit of none.
fn lend_reader(
    name: &str,
    heap: &LocalHeap,
    bytes: &[u8],
    player: &mut Player<'_, '_>,
) -> Played<()> {
    let to = Vec::new(heap);
    match name {
        "&[u8]" => play(Reading { from: bytes, to }, heap, player),
        "Take &[u8]" => {
            let from = bytes.take(0);
            play(Reading { from, to }, heap, player)
        }
        _ => Err(Unplayed::NoStream),
    }
}

pub fn lend(name: &str, words: &str, player: &mut Player<'_, '_>) -> Played<()> {
    let (size, rest) = cut_number(words)?;
    let (capacity, bytes) = cut_number(rest)?;
    let heap = LocalHeap::new(player.alloc, size)?;
    let bytes = unescape(player.alloc, bytes)?;
    if name.ends_with("&[u8]") {
        return lend_reader(name, &heap, &bytes, player);
    }
    let mut vector = Vec::with_capacity(&heap, capacity)?;
    vector.extend_from_slice(&bytes)?;
    lend_writer(name, &heap, vector, player)
}
