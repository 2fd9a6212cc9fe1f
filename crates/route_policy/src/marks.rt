//! Marks of AS numbers: by them it is mostly seen at once that a number is not among many.

ghost use Rattle.std.specs.Prelude.{◌≡◌, ◌<◌, length};
ghost use Rattle.route_policy.specs.Marks.{spread, first_place, second_place, is_set, is_marked, with_place, with_mark, with_marks, with_path};

use path_attr::{Asn, Segment};

/// How many words there are, of 64 marks each.
const WORDS: usize = 128;

/// An odd number by which numbers that stand close together are spread over 32 bits.
const SPREAD: u32 = 0x9E37_79B1;

/// Marks of AS numbers. Each number has two of 8,192, which it may share with others.
#[derive(Clone, Copy, Debug)]
pub(crate) struct Marks {
    words: [u64; WORDS],
}

impl Marks {
    /// No marks.
    pub(crate) fn new() -> Marks
        ensures { length result.words ≡ 128 }
    {
        Marks { words: [0; WORDS] }
    }

    /// Marks the number.
    pub(crate) fn add(&mut self, asn: Asn)
        ensures { self.new.words ≡ with_mark self.old.words asn }
    {
        set(&mut self.words, first_place(asn));
        set(&mut self.words, second_place(asn));
    }

    /// Marks these numbers.
    pub(crate) fn add_all(&mut self, numbers: &[Asn])
        ensures { self.new.words ≡ with_marks self.old.words numbers.now }
    {
        for number in numbers {
            self.add(*number);
        }
    }

    /// Marks the numbers of these segments.
    pub(crate) fn add_path(&mut self, segments: &[Segment])
        ensures { self.new.words ≡ with_path self.old.words segments.now }
    {
        for segment in segments {
            self.add_all(segment.numbers());
        }
    }

    /// Whether the number is marked, as each is that was added. Others may be too.
    pub(crate) fn has(&self, asn: Asn) -> bool
        ensures { result ≡ is_marked asn self.now.words }
    {
        is_set(&self.words, first_place(asn)) && is_set(&self.words, second_place(asn))
    }
}

/// Sets the mark at the place.
fn set(words: &mut [u64; WORDS], place: usize)
    requires { place < 8192 }
    ensures { words.new ≡ with_place words.old place }
{
    words[place / 64] |= 1 << (place % 64);
}

/// Whether the mark at the place is set.
fn is_set(words: &[u64; WORDS], place: usize) -> bool
    requires { place < 8192 }
    ensures { result ≡ is_set place words.now }
{
    (words[place / 64] >> (place % 64)) % 2 == 1
}

/// The number, spread over 32 bits.
#[tactic(auto, unfolding(crate::specs::Marks::spread))]
fn spread(asn: Asn) -> u32
    ensures { result ≡ spread asn }
{
    asn.number().wrapping_mul(SPREAD)
}

/// The place of the number's first mark.
#[tactic(auto, unfolding(crate::specs::Marks::first_place))]
fn first_place(asn: Asn) -> usize
    ensures value { result ≡ first_place asn }
    ensures small { result < 8192 }
{
    (spread(asn) / 524_288) as usize
}

/// The place of its second mark.
#[tactic(auto, unfolding(crate::specs::Marks::second_place))]
fn second_place(asn: Asn) -> usize
    ensures value { result ≡ second_place asn }
    ensures small { result < 8192 }
{
    (spread(asn) % 8192) as usize
}
