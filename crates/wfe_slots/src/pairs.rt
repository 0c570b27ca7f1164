// A list of pairs in a fixed array.
ghost use Rattle.std.specs.Prelude.{◌≡◌, ◌<◌, ◌≤◌, [], ◌∷◌, ◌++◌, length, slice_index_or, slice_set, take, is_some};
ghost use Rattle.wfe_core.specs.defs.Pairs.{value_in, with_pair, without_key};
ghost use Rattle.wfe_slots.specs.Places.{IsPlace, with_other};

use std::marker::Model;

/// Keys with their values, at most 14, in order. It takes no memory.
#[derive(Drop)]
pub struct Pairs {
    pairs: [(u64, u64); 14],
    len: usize,
}

impl Model for Pairs {
    ghost use Rattle.std.specs.Prelude.{◌≡◌, ◌≤◌, List, take, length};
    ghost use Rattle.wfe_core.specs.defs.Pairs.{Pair};

    ghost Value = { List Pair };

    ghost view = { λ p. take p.len p.pairs };

    ghost invariant = { λ p. (p.len ≤ 14) × (length p.pairs ≡ 14) };
}

impl Pairs {
    /// No pairs.
    pub fn new() -> Pairs
        ensures { result ≡ [] }
    {
        Pairs {
            pairs: [(0, 0); 14],
            len: 0,
        }
    }

    /// How many pairs there are, and an array that has them first, in order.
    pub fn row(&self) -> (u32, [(u64, u64); 14])
        ensures few { result.0 ≤ 14 }
        ensures pairs { take result.0 result.1 ≡ self.now }
    {
        (self.len as u32, self.pairs)
    }

    /// How many pairs there are.
    pub fn len(&self) -> usize
        ensures count { result ≡ length self.now }
        ensures most { result ≤ 14 }
    {
        self.len
    }

    /// The key and the value at a place, from 0.
    pub fn get(&self, place: usize) -> (u64, u64)
        requires { place < length self.now }
        ensures { result ≡ slice_index_or self.now place (0, 0) }
    {
        let pairs = &self.pairs;
        pairs[place]
    }

    /// Adds a pair at the end.
    pub fn push(&mut self, key: u64, value: u64)
        requires { length self.old < 14 }
        ensures { self.new ≡ self.old ++ (key, value) ∷ [] }
    {
        self.pairs[self.len] = (key, value);
        self.len += 1;
    }

    // Writes a pair over the one at a place.
    fn set(&mut self, place: usize, key: u64, value: u64)
        requires { place < length self.old }
        ensures { self.new ≡ slice_set self.old place (key, value) }
    {
        let _ = &self.pairs;
        self.pairs[place] = (key, value);
    }

    // Adds a pair at the end, unless it has this key.
    fn push_other(&mut self, pair: (u64, u64), key: u64)
        requires { length self.old < 14 }
        ensures { self.new ≡ with_other self.old pair key }
    {
        if pair.0 != key {
            self.push(pair.0, pair.1);
        }
    }

    // The first place of a key.
    fn place(&self, key: u64) -> Option<usize>
        ensures { IsPlace self.now key result }
    {
        for place in 0..self.len() {
            let pair = self.get(place);
            if pair.0 == key {
                return Some(place);
            }
        }
        None
    }

    /// Whether a pair has this key.
    pub fn has(&self, key: u64) -> bool
        ensures { result ≡ is_some (value_in self.now key) }
    {
        self.place(key).is_some()
    }

    /// Gives a key a value: a key that is there keeps its place, and a new one goes last.
    pub fn put(&mut self, key: u64, value: u64)
        requires { length (with_pair self.old key value) ≤ 14 }
        ensures { self.new ≡ with_pair self.old key value }
    {
        match self.place(key) {
            Some(place) => self.set(place, key, value),
            None => self.push(key, value),
        }
    }

    /// Leaves out the pairs of a key.
    pub fn remove(&mut self, key: u64)
        ensures { self.new ≡ without_key self.old key }
    {
        let mut rest = Pairs::new();
        for place in 0..self.len() {
            rest.push_other(self.get(place), key);
        }
        *self = rest;
    }

    /// Leaves no pairs.
    pub fn clear(&mut self)
        ensures { self.new ≡ [] }
    {
        self.len = 0;
    }
}
