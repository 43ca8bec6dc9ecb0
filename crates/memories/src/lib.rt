// Lookup memories: a load and a store on the rows of a table (02, request 11).
#![tactic(auto)]

ghost use Rattle.std.specs.Prelude.{◌≡◌, [], ◌∷◌};
ghost use Rattle.steps.specs.Step as Step;
ghost use Rattle.steps.specs.States.{StateFits, held};
ghost use Rattle.memories.specs.Effects.{load_effect, store_effects, SpanFits};

use lookups::{join_if, load, named_end};
use vectors::Vector;

// A load of row t from the n rows from the base on, by the address in row a: all is read, then the target's mask and value are written.
pub fn load_to(
    width: &[u8],
    mask: &mut [u32],
    value: &mut [u32],
    t: usize,
    a: usize,
    base: usize,
    n: usize,
)
    requires { StateFits width.now (held mask.old value.old) × SpanFits width.now a t base n }
    ensures { held mask.new value.new ≡ Step.step width.now (load_effect t a base n ∷ []) (held mask.old value.old) }
{
    let end = base + n;
    let address = Vector {
        mask: mask[a],
        value: value[a],
    };
    let r = load(
        width[t] as u32,
        width[a] as u32,
        &mask[base..end],
        &value[base..end],
        address,
    );
    mask[t] = r.mask;
    value[t] = r.value;
}

// A store of row d to the cells of the n rows from the base on, by the address in row a. Address and data are read before anything is written;
// a known address writes one cell, and an unknown one takes one pass over the cells that it may name.
pub fn store(
    width: &[u8],
    mask: &mut [u32],
    value: &mut [u32],
    a: usize,
    d: usize,
    base: usize,
    n: usize,
)
    requires { StateFits width.now (held mask.old value.old) × SpanFits width.now a d base n }
    ensures { held mask.new value.new ≡ Step.step width.now (store_effects a d base n) (held mask.old value.old) }
{
    let address = Vector {
        mask: mask[a],
        value: value[a],
    };
    let data = Vector {
        mask: mask[d],
        value: value[d],
    };
    let x = address.value as usize;
    if n <= x {
        return;
    }
    if address.mask == 0 {
        mask[base + x] = data.mask;
        value[base + x] = data.value;
        return;
    }
    let unknown = address.mask as usize;
    let top = (address.value | address.mask) as usize;
    let end = named_end(n, top);
    for i in x..end {
        let cell = Vector {
            mask: mask[base + i],
            value: value[base + i],
        };
        let r = join_if((i | unknown) == top, cell, data);
        mask[base + i] = r.mask;
        value[base + i] = r.value;
    }
}
