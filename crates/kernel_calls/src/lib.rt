// Kernels as a C or C++ program can call them, so that a benchmark measures them beside other code. Host programs link
// `rifflerleek`, which has none of this: here the caller has to bring what the kernels take for granted.
// Masks and values are words of their own (C interface).
#![tactic(auto)]

ghost use Rattle.std.specs.Prelude.{not, ◌≡◌, [], ◌∷◌, ◌*◌, ◌≤◌, eqb};
ghost use Rattle.bits.specs.Limits.{width_limit};
ghost use Rattle.vectors.specs.Row.{row};
ghost use Rattle.vectors.specs.Best.{best};
ghost use Rattle.operations.specs.Arithmetic.{op_add, op_mul};
ghost use Rattle.operations.specs.Wide.{wide_number};
ghost use Rattle.operations.specs.Result.{result_of, Ready};
ghost use Rattle.wide_products.specs.Apart.{Factor};

use vectors::Vector;
use wide_products::wide_product;

// Mask and value of a result.
#[repr(C)]
#[derive(Clone, Copy)]
pub struct Planes {
    pub mask: u32,
    pub value: u32,
}

// `products::mul`.
#[unsafe(no_mangle)]
pub extern "C" fn kernel_mul(w: u32, ma: u32, va: u32, mb: u32, vb: u32) -> Planes
    requires { (w ≤ width_limit) × Ready op_mul w 0 (row w ma va ∷ row w mb vb ∷ []) }
    ensures { row w result.mask result.value ≡ result_of op_mul w 0 (row w ma va ∷ row w mb vb ∷ []) }
{
    let a = Vector {
        mask: ma,
        value: va,
    };
    let b = Vector {
        mask: mb,
        value: vb,
    };
    let r = products::mul(w, a, b);
    Planes {
        mask: r.mask,
        value: r.value,
    }
}

// `sums::add`.
#[unsafe(no_mangle)]
pub extern "C" fn kernel_add(w: u32, ma: u32, va: u32, mb: u32, vb: u32) -> Planes
    requires { (w ≤ width_limit) × Ready op_add w 0 (row w ma va ∷ row w mb vb ∷ []) }
    ensures { row w result.mask result.value ≡ result_of op_add w 0 (row w ma va ∷ row w mb vb ∷ []) }
{
    let a = Vector {
        mask: ma,
        value: va,
    };
    let b = Vector {
        mask: mb,
        value: vb,
    };
    let r = sums::add(w, a, b);
    Planes {
        mask: r.mask,
        value: r.value,
    }
}

// `wide_products::wide_product` of operands of one width, by the signs of the kinds 21 to 23.
#[unsafe(no_mangle)]
pub extern "C" fn kernel_wide(kind: u32, w: u32, ma: u32, va: u32, mb: u32, vb: u32) -> Planes
    requires { (w * 2 ≤ width_limit) × Factor (w * 2) (row w ma va) × Factor (w * 2) (row w mb vb) }
    ensures { row (w * 2) result.mask result.value ≡ best (w * 2) (wide_number (not (eqb kind 21)) (eqb kind 22) (w * 2) (w ∷ w ∷ [])) (row w ma va ∷ row w mb vb ∷ []) }
{
    let a = Vector {
        mask: ma,
        value: va,
    };
    let b = Vector {
        mask: mb,
        value: vb,
    };
    let r = wide_product(kind != 21, kind == 22, w * 2, w, w, a, b);
    Planes {
        mask: r.mask,
        value: r.value,
    }
}
