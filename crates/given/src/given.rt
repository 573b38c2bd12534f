// Every list of the library is one of these, since it has no heap.

ghost use Rattle.std.specs.Prelude.{◌≡◌, ◌+◌, ◌<◌, ◌≤◌, min, [], ◌∷◌, ◌++◌, length, take, MatchOption, slice_index_or, slice_set};
ghost use Rattle.given.specs.Kept.{kept};

// `count` is how many were given. The table has the first of them, and what stands past `count` means nothing: an item
// for which there is no room is counted and not kept, so that whoever reads the list can decline it for its length.
#[derive(Clone, Copy)]
pub struct Given<T, const N: usize> {
    pub count: usize,
    pub items: [T; N],
}

impl<T: Copy, const N: usize> Given<T, N> {
    // Nothing is given yet; `blank` fills the table.
    pub fn new(blank: T) -> Given<T, N>
        ensures count { result.count ≡ 0 }
        ensures none { kept result.count result.items ≡ [] }
    {
        Given {
            count: 0,
            items: [blank; N],
        }
    }

    // One more.
    pub fn push(&mut self, item: T)
        ensures count { self.new.count ≡ min (self.old.count + 1) 18446744073709551615 }
        ensures table { self.old.count < N → self.new.items ≡ slice_set self.old.items self.old.count item }
        ensures past { N ≤ self.old.count → self.new.items ≡ self.old.items }
        ensures list { kept self.new.count self.new.items ≡ take N (kept self.old.count self.old.items ++ item ∷ []) }
    {
        let place = self.count;
        self.count = place.saturating_add(1);
        if place < N {
            self.items[place] = item;
        }
    }

    // Some more.
    pub fn append(&mut self, items: &[T])
        ensures count { self.new.count ≡ min (self.old.count + length items.now) 18446744073709551615 }
        ensures list { kept self.new.count self.new.items ≡ take N (kept self.old.count self.old.items ++ items.now) }
    {
        for item in items {
            self.push(*item);
        }
    }

    // Those that were given and kept.
    pub fn as_slice(&self) -> &[T]
        ensures value { result.now ≡ kept self.now.count self.now.items }
        ensures few { length result.now ≤ N }
        ensures all { self.now.count ≤ N → length result.now ≡ self.now.count }
    {
        let table = &self.items[..];
        if self.count < N {
            &table[0..self.count]
        } else {
            table
        }
    }

    // The one at a place, if it was given and kept.
    pub fn get(&self, place: usize) -> Option<&T>
        ensures list { MatchOption result (length (kept self.now.count self.now.items) ≤ place) (λ item. (place < length (kept self.now.count self.now.items)) × (item.now ≡ slice_index_or (kept self.now.count self.now.items) place item.now)) }
        ensures table { MatchOption result (min self.now.count N ≤ place) (λ item. (place < self.now.count) × (place < N) × ((blank : T) → item.now ≡ slice_index_or self.now.items place blank)) }
    {
        if place < self.count {
            self.items.get(place)
        } else {
            None
        }
    }
}
