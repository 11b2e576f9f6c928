//! Polynomials with the root 2^location for each erased codeword of a block. Coefficients begin with that of the lowest
//! power.

ghost use Rattle.std.specs.Prelude.{◌≡◌, ◌+◌, ◌<◌, ◌≤◌, length};
ghost use Rattle.std.specs.List.{All, count_by};
ghost use Rattle.arrayvec.specs.ArrayVec.{array_vec_len};
ghost use Rattle.qr_field.specs.Polynomial.{IsByte};
ghost use Rattle.qr_mending.specs.Steps.Roots.{rooted, times_root};

use arrayvec::ArrayVec;
use qr_field::{mul, power_of};

pub(crate) fn count_erased(erased: &[bool]) -> usize
    ensures { result ≡ count_by (λ e. e) erased.now }
{
    erased.iter().filter(|is_erased| **is_erased).count()
}

// The product of `polynomial` and x + `root`.
fn with_root(polynomial: &[u8], root: u8) -> ArrayVec<u8, 31>
    requires { length polynomial.now < 31 }
    ensures { result.items ≡ times_root root 0 polynomial.now }
{
    let mut product = ArrayVec::new();
    let mut carry = 0;
    for coefficient in polynomial {
        product.push(carry ^ mul(root, *coefficient));
        carry = *coefficient;
    }
    product.push(carry);
    product
}

// The product of `polynomial` and a factor x + 2^location for each erased codeword. The loop runs from the last
// codeword to the first, because the definition `rooted` is recursive, and computes its value for the list `erased`
// from that for the tail of this list. The list `product` has room for `polynomial`, so `try_extend_from_slice` cannot
// fail.
#[tactic(auto, using(crate::proofs::Named::root_facts))]
pub(crate) fn with_roots(erased: &[bool], polynomial: &[u8]) -> ArrayVec<u8, 31>
    requires small { length erased.now ≤ 255 }
    requires fits { length polynomial.now + count_by (λ e. e) erased.now ≤ 31 }
    ensures count { array_vec_len result ≡ length polynomial.now + count_by (λ e. e) erased.now }
    ensures product { result.items ≡ rooted erased.now polynomial.now }
    ensures bytes { All IsByte polynomial.now }
{
    let mut product = ArrayVec::new();
    let _ = product.try_extend_from_slice(polynomial);
    for i in (0..erased.len()).rev() {
        if erased[i] {
            let location = (erased.len() - 1 - i) as u8;
            product = with_root(product.as_slice(), power_of(location));
        }
    }
    product
}
