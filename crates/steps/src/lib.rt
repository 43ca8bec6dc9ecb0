// What a record does to the rows and to the numbers of a plain run, over definitions; and rows copied, for calls that work on rows of their own.
#![tactic(auto)]

ghost use Rattle.std.specs.Prelude.{◌≡◌};
ghost use Rattle.steps.specs.States.{held};
ghost use Rattle.steps.specs.Encoding.{Copyable};

// Copies well-formed rows over others of their number. The bits that mask and value share are taken from both, and such a row has none: a plain copy would be
// compiled to a call of a function that is not the library's.
pub fn copy_rows(mask: &[u32], value: &[u32], tmask: &mut [u32], tvalue: &mut [u32])
    requires { Copyable (held mask.now value.now) tmask.old tvalue.old }
    ensures { held tmask.new tvalue.new ≡ held mask.now value.now }
{
    for i in 0..mask.len() {
        let shared = mask[i] & value[i];
        tmask[i] = mask[i] ^ shared;
        tvalue[i] = value[i] ^ shared;
    }
}
