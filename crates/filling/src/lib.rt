// A lent buffer that is filled from its start: items go in one after another, and what they do not reach stays as it was.
// Items for which there is no room are not put at all, and the contracts say so; callers show that there is.
#![tactic(auto)]

ghost use Rattle.std.specs.Prelude.{◌≡◌, ◌≤◌, length};

// A buffer and how many of its items have been put. `filled` says what stands where.
#[derive(Drop)]
pub struct Filling<'a, T> {
    pub buffer: &'a mut [T],
    pub len: usize,
    pub ghost within: { len ≤ length buffer.now },
}

impl<'a, T: Copy> Filling<'a, T> {
    ghost use Rattle.std.specs.Prelude.{◌≡◌, [], ◌∷◌, length};
    ghost use Rattle.filling.specs.Filled.{Filled, extended};
    ghost use Rattle.filling.specs.Views.{filled};

    // Begins at the buffer's start.
    pub fn new(buffer: &'a mut [T]) -> Filling<'a, T>
        ensures { filled result ≡ record { put = []; rest = buffer.old; lender = buffer.entry.ghost_name } }
    {
        Filling { buffer, len: 0 }
    }

    // How many more items have room.
    pub fn room(&self) -> usize
        ensures { result ≡ length (filled self.now).rest }
    {
        self.buffer.len() - self.len
    }

    // Puts the items, if there is room for them all.
    pub fn extend(&mut self, items: &[T])
        ensures { filled self.new ≡ extended (filled self.old) items.now }
    {
        if items.len() <= self.room() {
            let end = self.len + items.len();
            self.buffer[self.len..end].copy_from_slice(items);
            self.len = end;
        }
    }

    // Puts one item, if there is room.
    pub fn push(&mut self, item: T)
        ensures { filled self.new ≡ extended (filled self.old) (item ∷ []) }
    {
        if self.len < self.buffer.len() {
            self.buffer[self.len] = item;
            self.len += 1;
        }
    }
}
