// Parts of lists, and what they are held against.

// What fills all memory before it is lent.
pub(crate) const GUARD: u8 = 7;

// The first `at` elements, and the others.
pub(crate) fn cut<T>(list: &[T], at: usize) -> (&[T], &[T]) {
    list.split_at(at.min(list.len()))
}

// The elements from `from` up to `to`; all, if they are not there.
pub(crate) fn part<T>(list: &[T], from: usize, to: usize) -> &[T] {
    list.get(from..to).unwrap_or(list)
}

// The first `n` elements; all, if there are fewer.
pub(crate) fn lend<T>(list: &mut [T], n: usize) -> &mut [T] {
    let most = n.min(list.len());
    &mut list[..most]
}

fn all_are<T: PartialEq + Copy>(list: &[T], value: T) -> bool {
    list.iter().all(|element| *element == value)
}

// Whether all elements behind the first `used` are the guard.
pub(crate) fn kept<T: PartialEq + Copy>(list: &[T], used: usize, guard: T) -> bool {
    all_are(cut(list, used).1, guard)
}

// Whether so many work bytes are 0, and all others the guard.
pub(crate) fn work_kept(work: &[u8], many: usize) -> bool {
    let (cells, others) = cut(work, many);
    all_are(cells, 0) && all_are(others, GUARD)
}

// Elements of which the first `many` count; all, where there are fewer.
#[derive(Clone, Copy)]
pub(crate) struct Lot<T, const N: usize> {
    pub(crate) items: [T; N],
    pub(crate) many: usize,
}

impl<T: Copy, const N: usize> Lot<T, N> {
    // The same element everywhere.
    pub(crate) fn of(item: T, many: usize) -> Lot<T, N> {
        let items = [item; N];
        Lot { items, many }
    }

    pub(crate) fn as_slice(&self) -> &[T] {
        cut(&self.items, self.many).0
    }

    // An element put at its place, if there is room.
    pub(crate) fn put(&mut self, at: usize, item: T) {
        if let Some(place) = self.items.get_mut(at) {
            *place = item;
        }
    }

    // One element more.
    pub(crate) fn push(&mut self, item: T) {
        self.put(self.many, item);
        self.many = self.many.wrapping_add(1);
    }
}
