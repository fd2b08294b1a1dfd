// A stack by value, which is made entry by entry and lent to the functions over a slice. It stands beside them: none of them rests on it.
ghost use Rattle.std.specs.Prelude.{◌≡◌, []};
ghost use Rattle.stack.specs.Entries.{entry};
ghost use Rattle.stack.specs.Laid.{laid, lends, counting, with_layer};

use crate::layers::NONE;
use crate::{Layer, Stack};

// A stack of so many layers, all of them empty yet.
pub fn no_layers(count: usize) -> Stack
    ensures { result ≡ counting count [] }
{
    Stack {
        layers: [NONE; 20],
        count,
    }
}

// Layer `k` put in. There is room for 20; what does not fit changes nothing.
#[tactic(auto, using(crate::proofs::Laying::put_in, crate::proofs::Laying::full_stays))]
pub fn with_layer(mut stack: Stack, k: usize, layer: Layer) -> Stack
    ensures { result ≡ with_layer stack k layer }
{
    if k < 20 {
        stack.layers[k] = layer;
    }
    stack
}

impl Stack {
    // Lends the entries to every function over a stack. A stack that counts over 20 lends none, so that it is refused by its number, LAYERS,
    // as it was.
    pub fn entries(&self) -> &[Layer]
        ensures { result.now ≡ lends self.now }
    {
        if self.count <= 20 {
            &self.layers[..self.count]
        } else {
            &[]
        }
    }

    // Entry `k`; past the last entry, and past the 20 that are handed in, one of zeros. The array is read here and in `entries` alone.
    #[tactic(auto, using(crate::proofs::Laying::laid_at, crate::proofs::Laying::laid_beyond))]
    pub fn layer(&self, k: usize) -> Layer
        ensures { result ≡ entry (laid self.now) k }
    {
        if k < self.count.min(20) {
            self.layers[k]
        } else {
            NONE
        }
    }
}
