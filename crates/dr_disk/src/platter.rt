//! The bytes of a disk in memory: as read, as the last good sync left them, and as last asked for.

ghost use Rattle.std.specs.Prelude.{◌≡◌, ℕ, ◌+◌, ◌-◌, ◌≤◌, ◌<◌, List, Bool, false, true, length, get_or, replicate, slice_range, IfOk, if◌then◌else◌};
ghost use Rattle.dr_disk.specs.Bytes.{overwritten};
ghost use Rattle.dr_disk.specs.Memory.{IsImage, filled, left_by, marked};

use crate::call::Mode;
use std::alloc::{AllocError, Global};

/// The bytes of a disk in memory, and which of them no good sync has reached.
#[derive(Drop)]
pub(crate) struct Platter {
    pub(crate) bytes: Vec<u8>,
    pub(crate) durable: Vec<u8>,
    pub(crate) asked: Vec<u8>,
    pub(crate) marks: Vec<bool>,
    /// All marks lie from here on, and before `high`.
    pub(crate) low: usize,
    pub(crate) high: usize,
    ghost agrees: { IsImage durable.items marks.items bytes.items },
    ghost asks: { IsImage durable.items marks.items asked.items },
    ghost one_mark_each: { length marks.items ≡ length durable.items },
    ghost order: { low ≤ high },
    ghost end: { high ≤ length durable.items },
    ghost around: { (i : ℕ) → get_or marks.items i false ≡ true → (low ≤ i) × (i < high) },
}

fn put(bytes: &mut Vec<u8>, at: usize, new: &[u8])
    requires { at + length new.now ≤ length bytes.old.items }
    ensures { bytes.new.items ≡ overwritten bytes.old.items at new.now }
{
    bytes[at..at + new.len()].copy_from_slice(new);
}

fn mark(marks: &mut Vec<bool>, at: usize, n: usize)
    requires { at + n ≤ length marks.old.items }
    ensures { marks.new.items ≡ marked marks.old.items at n }
{
    marks[at..at + n].fill(true);
}

fn unmark(marks: &mut Vec<bool>, low: usize, high: usize)
    requires order { low ≤ high }
    requires end { high ≤ length marks.old.items }
    ensures { marks.new.items ≡ overwritten marks.old.items low (replicate (high - low) false) }
{
    marks[low..high].fill(false);
}

/// Makes a range of the bytes what `from` has there.
fn copy_range(bytes: &mut Vec<u8>, from: &Vec<u8>, low: usize, high: usize)
    requires order { low ≤ high }
    requires end { high ≤ length bytes.old.items }
    requires size { length from.now.items ≡ length bytes.old.items }
    ensures { bytes.new.items ≡ overwritten bytes.old.items low
        (slice_range from.now.items low high) }
{
    bytes[low..high].copy_from_slice(&from[low..high]);
}

/// The bounds of two ranges together.
fn around(low: usize, high: usize, at: usize, n: usize) -> (usize, usize)
    requires order { low ≤ high }
    requires fits { at + n < 18446744073709551616 }
    ensures order { result.0 ≤ result.1 }
    ensures end { (m : ℕ) → high ≤ m → at + n ≤ m → result.1 ≤ m }
    ensures first { (i : ℕ) → low ≤ i → i < high → (result.0 ≤ i) × (i < result.1) }
    ensures second { (i : ℕ) → at ≤ i → i < at + n → (result.0 ≤ i) × (i < result.1) }
{
    if low == high {
        (at, at + n)
    } else {
        (low.min(at), high.max(at + n))
    }
}

fn choose(is_first: bool, first: u8, second: u8) -> u8
    ensures { result ≡ (if is_first then first else second) }
{
    if is_first { first } else { second }
}

/// Puts a byte into each marked place.
fn fill_marked(bytes: &mut Vec<u8>, marks: &Vec<bool>, byte: u8)
    requires { length marks.now.items ≡ length bytes.old.items }
    ensures bytes { bytes.new.items ≡ filled byte bytes.old.items marks.now.items }
    ensures size { length bytes.new.items ≡ length bytes.old.items }
{
    'places: for at in 0..bytes.len() {
        bytes[at] = choose(marks[at], byte, bytes[at]);
    }
}

/// Makes what a crash of a kind leaves of the durable bytes.
fn leave(durable: &mut Vec<u8>, asked: &Vec<u8>, marks: &Vec<bool>, mode: Mode)
    requires asked { length asked.now.items ≡ length durable.old.items }
    requires marks { length marks.now.items ≡ length durable.old.items }
    ensures bytes { durable.new.items
        ≡ left_by durable.old.items asked.now.items marks.now.items mode }
    ensures size { length durable.new.items ≡ length durable.old.items }
{
    match mode {
        Mode::Old => {}
        Mode::New => durable.copy_from_slice(asked),
        Mode::Fill(byte) => fill_marked(durable, marks, byte),
    }
}

impl Platter {
    /// All zeros, none of them unsynced.
    pub(crate) fn new(alloc: Global, size: usize) -> Result<Platter, AllocError>
        ensures bytes { IfOk result (λ platter. platter.bytes.items ≡ replicate size 0) }
        ensures durable { IfOk result (λ platter. platter.durable.items ≡ replicate size 0) }
        ensures asked { IfOk result (λ platter. platter.asked.items ≡ replicate size 0) }
        ensures marks { IfOk result (λ platter. platter.marks.items ≡ replicate size false) }
    {
        Ok(Platter {
            bytes: vec![in alloc; 0; size]?,
            durable: vec![in alloc; 0; size]?,
            asked: vec![in alloc; 0; size]?,
            marks: vec![in alloc; false; size]?,
            low: 0,
            high: 0,
        })
    }

    /// Fills `into` with the bytes from a place on.
    pub(crate) fn read(&self, at: usize, into: &mut [u8])
        requires { at + length into.old ≤ length self.now.bytes.items }
        ensures { into.new ≡ slice_range self.now.bytes.items at (at + length into.old) }
    {
        into.copy_from_slice(&self.bytes[at..at + into.len()]);
    }

    /// A write is asked for: whether or not it passes, its range is unsynced.
    pub(crate) fn ask(&mut self, at: usize, bytes: &[u8])
        requires { at + length bytes.now ≤ length self.old.durable.items }
        ensures asked { self.new.asked.items ≡ overwritten self.old.asked.items at bytes.now }
        ensures marks { self.new.marks.items ≡ marked self.old.marks.items at (length bytes.now) }
        ensures bytes { self.new.bytes.items ≡ self.old.bytes.items }
        ensures durable { self.new.durable.items ≡ self.old.durable.items }
    {
        put(&mut self.asked, at, bytes);
        mark(&mut self.marks, at, bytes.len());
        let (low, high) = around(self.low, self.high, at, bytes.len());
        self.low = low;
        self.high = high;
    }

    /// The same, and the write passes.
    pub(crate) fn write(&mut self, at: usize, bytes: &[u8])
        requires { at + length bytes.now ≤ length self.old.durable.items }
        ensures asked { self.new.asked.items ≡ overwritten self.old.asked.items at bytes.now }
        ensures marks { self.new.marks.items ≡ marked self.old.marks.items at (length bytes.now) }
        ensures bytes { self.new.bytes.items ≡ overwritten self.old.bytes.items at bytes.now }
        ensures durable { self.new.durable.items ≡ self.old.durable.items }
    {
        put(&mut self.asked, at, bytes);
        put(&mut self.bytes, at, bytes);
        mark(&mut self.marks, at, bytes.len());
        let (low, high) = around(self.low, self.high, at, bytes.len());
        self.low = low;
        self.high = high;
    }

    /// A good sync: what reads give is durable, and nothing else is asked for. Only the range that
    /// has marks is copied.
    pub(crate) fn settle(&mut self)
        ensures bytes { self.new.bytes.items ≡ self.old.bytes.items }
        ensures durable { self.new.durable.items ≡ self.old.bytes.items }
        ensures asked { self.new.asked.items ≡ self.old.bytes.items }
        ensures marks { self.new.marks.items ≡ replicate (length self.old.marks.items) false }
    {
        copy_range(&mut self.durable, &self.bytes, self.low, self.high);
        copy_range(&mut self.asked, &self.bytes, self.low, self.high);
        unmark(&mut self.marks, self.low, self.high);
        self.low = 0;
        self.high = 0;
    }

    /// What a crash of a kind leaves.
    pub(crate) fn crash(self, mode: Mode) -> Platter
        ensures bytes { result.bytes.items
            ≡ left_by self.durable.items self.asked.items self.marks.items mode }
        ensures durable { result.durable.items
            ≡ left_by self.durable.items self.asked.items self.marks.items mode }
        ensures asked { result.asked.items
            ≡ left_by self.durable.items self.asked.items self.marks.items mode }
        ensures marks { result.marks.items ≡ replicate (length self.marks.items) false }
    {
        let Platter {
            mut bytes,
            mut durable,
            mut asked,
            mut marks,
            low,
            high,
        } = self;
        leave(&mut durable, &asked, &marks, mode);
        bytes.copy_from_slice(&durable);
        asked.copy_from_slice(&durable);
        unmark(&mut marks, low, high);
        Platter {
            bytes,
            durable,
            asked,
            marks,
            low: 0,
            high: 0,
        }
    }
}
