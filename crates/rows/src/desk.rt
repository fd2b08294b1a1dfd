// What lies on the desk: what the text has set, and what came back from the last call.
use crate::lists::Lot;
use crate::words::signed;
use stack::Layer;

#[derive(Drop)]
pub(crate) struct Desk {
    // In hand: a stack, coordinates, strips, a file; and a file that is kept. A stack has 20 layers at most. One entry
    // more is lent where more are counted, and is not held against another.
    pub(crate) stack: Lot<Layer, 21>,
    pub(crate) coords: Lot<i32, 10_000>,
    pub(crate) strips: Lot<u8, 50_688>,
    pub(crate) file: Lot<u8, 50_688>,
    pub(crate) base: Lot<u8, 50_688>,
    // What came back: a stack, coordinates, and strips or a file.
    pub(crate) entries: Lot<Layer, 21>,
    pub(crate) numbers: [i32; 10_000],
    pub(crate) lent: [u8; 50_688],
}

// What lies where no layer was put.
pub(crate) const NO_LAYER: Layer = Layer {
    plane: 0,
    first: 0,
    count: 0,
};

// A layer full of the guard.
pub(crate) const GUARD_LAYER: Layer = Layer {
    plane: 7,
    first: 7,
    count: 7,
};

impl Desk {
    pub(crate) fn clear() -> Desk {
        Desk {
            stack: Lot::of(NO_LAYER, 0),
            coords: Lot::of(0, 0),
            strips: Lot::of(0, 0),
            file: Lot::of(0, 0),
            base: Lot::of(0, 0),
            entries: Lot::of(NO_LAYER, 0),
            numbers: [0; 10_000],
            lent: [0; 50_688],
        }
    }

    // `layer K PLANE FIRST COUNT LAYERS`. A layer that does not fit changes nothing but the count.
    pub(crate) fn layer(&mut self, [k, plane, first, count, layers]: [usize; 5]) {
        let layer = Layer {
            plane: signed(plane),
            first,
            count,
        };
        self.stack.put(k, layer);
        self.stack.many = layers;
    }

    // `line N X Y DX DY`
    pub(crate) fn line(&mut self, [n, mut x, mut y, dx, dy]: [usize; 5]) {
        for _ in 0..n {
            self.coords.push(signed(x));
            self.coords.push(signed(y));
            x = x.wrapping_add(dx);
            y = y.wrapping_add(dy);
        }
    }

    // `coords N`
    pub(crate) fn coords(&mut self, [n]: [usize; 1]) {
        self.coords.many = n;
    }

    // `keep`
    pub(crate) fn keep(&mut self) {
        let file = self.file;
        self.base = file;
    }

    // `again`
    pub(crate) fn again(&mut self) {
        let base = self.base;
        self.file = base;
    }

    // `take_stack NUMBERS`
    pub(crate) fn take_stack(&mut self, [many]: [usize; 1]) {
        let stack = self.entries;
        let items = self.numbers;
        self.stack = stack;
        self.coords = Lot { items, many };
    }

    // `take_strips N`, `take_file N`: what the hand has then.
    pub(crate) fn taken(&self, [many]: [usize; 1]) -> Lot<u8, 50_688> {
        let items = self.lent;
        Lot { items, many }
    }
}

// `strips N`, `file N`
pub(crate) fn zeros([many]: [usize; 1]) -> Lot<u8, 50_688> {
    Lot::of(0, many)
}

// `step AT BYTE`, `byte AT BYTE`
pub(crate) fn put(list: &mut Lot<u8, 50_688>, [at, byte]: [usize; 2]) {
    if let Ok(byte) = u8::try_from(byte) {
        list.put(at, byte);
    }
}
