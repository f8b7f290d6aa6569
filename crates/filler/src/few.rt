// A list of at most N. There is no heap, so it is an array and a count.

#[derive(Clone, Copy)]
pub(crate) struct Few<T, const N: usize> {
    // How many there are.
    count: usize,
    // They, at the front.
    list: [T; N],
}

impl<T: Copy, const N: usize> Few<T, N> {
    // None; the places not in use hold what is given.
    pub(crate) fn none(unused: T) -> Few<T, N> {
        Few {
            count: 0,
            list: [unused; N],
        }
    }

    // All of them.
    pub(crate) fn all(&self) -> &[T] {
        &self.list[..self.count.min(N)]
    }

    // With one more behind them; none where there is no room.
    pub(crate) fn with(mut self, x: T) -> Option<Few<T, N>> {
        if N <= self.count {
            return None;
        }
        self.list[self.count] = x;
        self.count += 1;
        Some(self)
    }
}
