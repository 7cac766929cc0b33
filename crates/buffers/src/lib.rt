// Writing into bytes that a caller lends, and numbers as little-endian bytes. Depends on no other crate.
// Every function takes any place: where there is no room, nothing is written, and 0 is read. Bytes and place go side by
// side, here and in `text`: a struct of both would hold the loan, and each contract would have to fix it at exit too.
#![tactic(auto)]

ghost use Rattle.std.specs.Prelude.{◌≡◌, ◌+◌, ◌≤◌, ◌<◌, length, take, drop, [], ◌∷◌, MatchOption};
ghost use Rattle.buffers.specs.Bytes.{over, placed, whole, low_bytes, num_at};

// Copies src to dst from place `at` on. The place and the room are tested here and below: with `get_mut` the proof did
// not close, since nothing is known of the elements when its borrow is over.
pub fn put(src: &[u8], dst: &mut [u8], at: usize)
    ensures { dst.new ≡ placed at src.now dst.old }
{
    if at <= dst.len() {
        put_whole(src, &mut dst[at..]);
    }
}

// Copies src to the start of dst if it has room there. Answers how many bytes were copied: none without room, by
// `whole`, which its clause names, and so no `Option`.
pub fn put_whole(src: &[u8], dst: &mut [u8]) -> usize
    ensures value { result ≡ length (whole src.now (length dst.old)) }
    ensures dst_after { dst.new ≡ over (whole src.now (length dst.old)) dst.old }
{
    if dst.len() < src.len() {
        return 0;
    }
    dst[..src.len()].copy_from_slice(src);
    src.len()
}

// The byte x, to dst at place `at`.
pub fn put1(x: u8, dst: &mut [u8], at: usize)
    ensures { dst.new ≡ placed at (x ∷ []) dst.old }
{
    if at < dst.len() {
        dst[at] = x;
    }
}

// The eight bytes of x, the lowest first, to dst from place `at` on.
pub fn put8(x: u64, dst: &mut [u8], at: usize)
    ensures { dst.new ≡ placed at (low_bytes 8 x) dst.old }
{
    put(&x.to_le_bytes(), dst, at);
}

// ── numbers in bytes, the lowest first ──

// The N bytes from place `at` on, if there are so many.
fn chunk<const N: usize>(src: &[u8], at: usize) -> Option<[u8; N]>
    ensures { MatchOption result (length src.now < at + N)
        (λ b. (at + N ≤ length src.now) × (b ≡ take N (drop at src.now))) }
{
    src.get(at..)?.first_chunk().copied()
}

// Each reads the bytes from place `at` on; 0 where there are fewer, as `num_at` has it, and no `None`. They are
// three, since no trait of std has `from_le_bytes`; what they share is in `chunk`.

pub fn get2(src: &[u8], at: usize) -> u16
    ensures { result ≡ num_at 2 at src.now }
{
    chunk(src, at).map_or(0, u16::from_le_bytes)
}

pub fn get4(src: &[u8], at: usize) -> u32
    ensures { result ≡ num_at 4 at src.now }
{
    chunk(src, at).map_or(0, u32::from_le_bytes)
}

// The bytes of the number are then those that were read: a byte is below 256, which the list alone does not say.
pub fn get8(src: &[u8], at: usize) -> u64
    ensures value { result ≡ num_at 8 at src.now }
    ensures result_value { at + 8 ≤ length src.now → low_bytes 8 result ≡ take 8 (drop at src.now) }
{
    chunk(src, at).map_or(0, u64::from_le_bytes)
}
