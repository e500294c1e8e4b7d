//! Values that stand in a file one after the other, each in the same number of bytes.
ghost use Rattle.std.specs.Prelude.{◌≡◌, ℕ, ◌+◌, ◌<◌, List, [], ◌∷◌, length, MatchOption};
ghost use Rattle.std.specs.List.{slice_get};
ghost use Rattle.std.specs.Iterator.{YieldsFirst, item_count};
ghost use Rattle.fields.specs.Sequences.{Held};

use std::marker::PhantomData;

/// What a file writes in a fixed number of bytes, again and again.
pub trait Element: Copy {
    ghost WIDTH: { ℕ };

    /// How many bytes one takes.
    const WIDTH: usize;

    /// The elements that bytes hold, in order; bytes that make no whole element are left out.
    ghost held: { List ℕ → List Self };

    /// The element in front, and what follows it; none exactly when there are fewer bytes than one takes.
    fn split(bytes: &[u8]) -> Option<(Self, &[u8])>
        ensures { MatchOption result
            ((length bytes.now < WIDTH) × (held bytes.now ≡ []))
            (λ p. (held bytes.now ≡ p.0 ∷ held p.1.now) × (length p.1.now + WIDTH ≡ length bytes.now)) };

    ghost laws: { Held WIDTH held };
}

/// The element in front, or none where there are fewer bytes than one takes.
fn first_of<T: Element>(bytes: &[u8]) -> Option<T>
    ensures { result ≡ slice_get (T.held bytes.now) 0 }
{
    T::split(bytes).map(|(first, _)| first)
}

/// Elements one after the other, in the bytes of a file.
#[derive(Clone, Copy)]
pub struct Sequence<'a, T> {
    pub bytes: &'a [u8],
    of: PhantomData<T>,
}

impl<'a, T: Element> Sequence<'a, T> {
    /// The elements that bytes hold.
    pub fn new(bytes: &'a [u8]) -> Sequence<'a, T>
        ensures { result.bytes.now ≡ bytes.now }
    {
        Sequence {
            bytes,
            of: PhantomData,
        }
    }

    /// How many there are.
    pub fn len(self) -> usize
        ensures { result ≡ length (T.held self.entry.bytes.now) }
    {
        self.bytes.len() / T::WIDTH
    }

    /// The element at a place, or none past the end.
    pub fn get(self, i: usize) -> Option<T>
        ensures { result ≡ slice_get (T.held self.entry.bytes.now) i }
    {
        if i >= self.len() {
            return None;
        }
        first_of(&self.bytes[T::WIDTH * i..])
    }

    /// The elements, in order.
    pub fn iter(self) -> Elements<'a, T>
        ensures { result.rest.now ≡ self.entry.bytes.now }
    {
        Elements {
            rest: self.bytes,
            of: PhantomData,
        }
    }
}

/// The elements of a sequence that are left.
#[derive(Clone, Copy)]
pub struct Elements<'a, T> {
    pub rest: &'a [u8],
    of: PhantomData<T>,
}

impl<T: Element> Iterator for Elements<'_, T> {
    type Item = T;

    ghost next_gives = { YieldsFirst (λ s. T.held s.rest.now) };

    ghost remaining = { item_count (λ s. T.held s.rest.now) };

    fn next(&mut self) -> Option<T> {
        let (first, rest) = T::split(self.rest)?;
        self.rest = rest;
        Some(first)
    }
}
