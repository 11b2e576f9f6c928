//! Values of polynomials, and sums of products, over the field of 256 elements. The syndromes of a block are values of
//! a polynomial, and the roots of the locator are found by testing which of its values are 0. Sixteen values are
//! computed at once.

ghost use Rattle.std.specs.Prelude.{◌≡◌, ℕ, ◌+◌, ◌*◌, ◌<◌, ◌≤◌, length, bit_xor, slice_index};
ghost use Rattle.arrayvec.specs.ArrayVec.{array_vec_len};
ghost use Rattle.std.specs.List.{All};
ghost use Rattle.std.specs.Int.{byte_at};
ghost use Rattle.qr_field.specs.Galois.{product};
ghost use Rattle.qr_field.specs.{Polynomial.{IsByte, power}, Steps.Polynomial.{value_at}};
ghost use Rattle.qr_mending.specs.Steps.Sums.{dot_of, eval, HasValues};
ghost use Rattle.qr_mending.specs.Steps.Values.{sum_at};

use arrayvec::ArrayVec;
use qr_field::{doubled, exponent_of, mul, power_of};

// In the sums of products below (`Sums`), one factor of each product is cut into four digits to the base 4. The table
// has an item for each value d of such a digit, from 0 to 3, and each number j from 0 to 30, at the index 4 * j + d.
// This item has sixteen products, one in each byte, the first in the lowest byte: the products of d and 2 to the powers
// 0, j, 2 * j and so on up to 15 * j.
static MULTIPLES: [u128; 124] = [
    0,
    0x01010101_01010101_01010101_01010101,
    0x02020202_02020202_02020202_02020202,
    0x03030303_03030303_03030303_03030303,
    0,
    0x261387CD_E8743A1D_80402010_08040201,
    0x4C261387_CDE8743A_1D804020_10080402,
    0x6A35944A_259C4E27_9DC06030_180C0603,
    0,
    0x6018068F_EAB42D4C_13CD741D_40100401,
    0xC0300C03_C9755A98_2687E83A_80200802,
    0xA0280A8C_23C177D4_354A9C27_C0300C03,
    0,
    0xC1B53525_27600C8F_752D26CD_3A400801,
    0x9F776A4A_4EC01803_EA5A4C87_74801002,
    0x5EC25F6F_69A0148C_9F776A4A_4EC01803,
    0,
    0xB95D1446_EE6A259D_188FB44C_CD1D1001,
    0x6FBA288C_C1D44A27_30037598_873A2002,
    0xD6E73CCA_2FBE6FBA_288CC1D4_4A273003,
    0,
    0x0F5EBEB9_A005C16A_9C6003B4_26742001,
    0x1EBC616F_5D0A9FD4_25C00675_4CE84002,
    0x11E2DFD6_FD0F5EBE_B9A005C1_6A9C6003,
    0,
    0xDF6B7865_61B95046_B525608F_2DCD4001,
    0xA3D6F0CA_C26FA08C_774AC003_5A878002,
    0x7CBD88AF_A3D6F0CA_C26FA08C_774AC003,
    0,
    0x1A43A36B_3C5EA15D_8CB59C18_75138001,
    0x34865BD6_78BC5FBA_05772530_EA261D02,
    0x2EC5F8BD_44E2FEE7_89C2B928_9F359D03,
    0,
    0x3B810DD9_FEFD655F_5D466A9D_8F4C1D01,
    0x761F1AAF_E1E7CABE_BA8CD427_03983A02,
    0x4D9E1776_1F1AAFE1_E7CABEBA_8CD42703,
    0,
    0xA966EDD0_86DFE765_A150C125_0C2D3A01,
    0x4FCCC7BD_11A3D3CA_5FA09F4A_185A7402,
    0xE6AA2A6D_977C34AF_FEF05E6F_14774E03,
    0,
    0x55842E3B_6711DFFD_5EB9056A_60B47401,
    0xAA155C76_CE22A3E7_BC6F0AD4_C075E802,
    0xFF91724D_A9337C1A_E2D60FBE_A0C19C03,
    0,
    0x913954B8_766786FE_3C61A0EE_27EAE801,
    0x3F72A86D_ECCE11E1_78C25DC1_4EC9CD02,
    0xAE4BFCD5_9AA9971F_44A3FD2F_69232503,
    0,
    0x96FCE4A8_B83BD0D9_6B65B946_258FCD01,
    0x31E5D54D_6D76BDAF_D6CA6F8C_4A038702,
    0xA71931E5_D54D6D76_BDAFD6CA_6F8C4A03,
    0,
    0x6462E5E4_542EED0D_A378BE14_35068701,
    0xC8C4D7D5_A85CC71A_5BF06128_6A0C1302,
    0xACA63231_FC722A17_F888DF3C_5F0A9403,
    0,
    0x59C862FC_39846681_436B5E5D_B5181301,
    0xB28DC4E5_7215CC1F_86D6BCBA_77302602,
    0xEB45A619_4B91AA9E_C5BDE2E7_C2283503,
    0,
    0x24596496_9155A93B_1ADF0FB9_C1602601,
    0x48B2C831_3FAA4F76_34A31E6F_9FC04C02,
    0x6CEBACA7_AEFFE64D_2E7C11D6_5EA06A03,
    0,
    0x2C125182_E3E6A885_81D9FD5F_469D4C01,
    0x5824A219_DBD14D17_1FAFE7BE_8C279802,
    0x7436F39B_3837E592_9E761AE1_CABAD403,
    0,
    0x010B45DD_DCD7924F_9344D699_0A4E9801,
    0x02168AA7_A5B3399E_3B88B12F_149C2D02,
    0x031DCF7A_7964ABD1_A8CC67B6_1ED2B503,
    0,
    0x26ADFBC3_0796BFA8_66D0DF65_50252D01,
    0x4C47EB9B_0E31634D_CCBDA3CA_A04A5A02,
    0x6AEA1058_09A7DCE5_AA6D7CAF_F06F7703,
    0,
    0x60E8833D_A2AEB349_6D3EE21E_BA945A01,
    0xC0CD1B7A_59417B92_DA7CD93C_6935B402,
    0xA0259847_FBEFC8DB_B7423B22_D3A1EE03,
    0,
    0xC103202C_AC1C96E6_843B11FD_B96AB401,
    0x9F064058_453831D1_157622E7_6FD47502,
    0x5E056074_E924A737_914D331A_D6BEC103,
    0,
    0xB9352DAD_F55957FC_29661A6B_A1B57501,
    0x6F6A5A47_F7B2AEE5_52CC34D6_5F77EA02,
    0xD65F77EA_02EBF919_7BAA2EBD_FEC29F03,
    0,
    0x0F28C03A_B0AC07E3_39B867FE_61EEEA01,
    0x1E509D74_7D450EDB_726DCEE1_C2C1C902,
    0x11785D4E_CDE90938_4BD5A91F_A32F2303,
    0,
    0xDFC2EE75_47F4A695_D1217C5B_2F9FC901,
    0xA399C1EA_8EF55137_BF42F8B6_5E238F02,
    0x7C5B2F9F_C901F7A2_6E6384ED_71BC4603,
    0,
    0x1AE7BA27_3A2CC382_FCA83BD9_65468F01,
    0x34D3694E_74589B19_E54D76AF_CA8C0302,
    0x2E34D369_4E74589B_19E54D76_AFCA8C03,
    0,
    0x3BE25EC1_B46C241C_FF553311_0F050301,
    0x76D9BC9F_75D84838_E3AA6622_1E0A0602,
    0x4D3BE25E_C1B46C24_1CFF5533_110F0503,
    0,
    0xA9BDBBBA_C020FB51_62E42E0D_78140601,
    0x4F676B69_9D40EBA2_C4D55C1A_F0280C02,
    0xE6DAD0D3_5D6010F3_A6317217_883C0A03,
    0,
    0x55C5D92F_B5267DC3_57BFA9D0_E7500C01,
    0xAA97AF5E_774CFA9B_AE634FBD_D3A01802,
    0xFF527671_C26A8758_F9DCE66D_34F01403,
    0,
    0x919EBDE7_2803AD12_C8FC8481_6B5D1801,
    0x3F2167D3_50064724_8DE5151F_D6BA3002,
    0xAEBFDA34_7805EA36_4519919E_BDE72803,
    0,
    0x96AAECB6_5F9C40F7_E0F14DF8_7F693001,
    0x3149C571_BE2580F3_DDFF9AED_FED26002,
    0xA7E329C7_E1B9C004_3D0ED715_81BB5003,
    0,
    0x6491A91A_0FC1262C_5996553B_DFB96001,
    0xC83F4F34_1E9F4C58_B231AA76_A36FC002,
    0xACAEE62E_115E6A74_EBA7FF4D_7CD6A003,
];

// The sum of products: each item of `terms` is multiplied by the item of `factors` at the same index. Further items of
// `factors` are left out. The loop runs from the last index to the first, because the definition `dot_of` is recursive,
// and computes its value for two lists from that for their tails.
#[tactic(auto, using(crate::proofs::Named::value_facts))]
pub(crate) fn dot(terms: &[u8], factors: &[u8]) -> u8
    requires { length terms.now ≤ length factors.now }
    ensures value { result ≡ dot_of terms.now factors.now }
    ensures bytes { All IsByte terms.now }
{
    let mut sum = 0;
    for j in (0..terms.len()).rev() {
        sum = mul(terms[j], factors[j]) ^ sum;
    }
    sum
}

// The exponent of the product of 2 to the power `i` and 2 to the power `j`. It is below 255, since 2 to the power 255
// is 1.
#[tactic(auto, using(crate::proofs::Named::power_facts))]
pub(crate) fn exponent_sum(i: u8, j: u8) -> u8
    requires first { i < 255 }
    requires second { j < 255 }
    ensures small { result < 255 }
    ensures power { power result ≡ product (power i) (power j) }
{
    let sum = u16::from(i) + u16::from(j);
    let exponent = if sum < 255 { sum } else { sum - 255 };
    exponent as u8
}

// Adds to item k of `sums`, for each k, the product of `element` and 2 to the power k * `step`. The exponent of this
// product grows by `step` from item to item. So each product is looked up by its exponent, and the processor need not
// wait for the product before it.
#[tactic(auto, using(crate::proofs::Named::multiple_facts))]
pub(crate) fn add_multiples(sums: &mut [u8], element: u8, step: u8)
    requires some { 1 ≤ element }
    requires small { step < 255 }
    ensures long { length sums.new ≡ length sums.old }
    ensures each { (k : ℕ) → k < length sums.old → slice_index sums.new k ≡
        bit_xor (slice_index sums.old k) (product element (power (k * step))) }
{
    let mut exponent = exponent_of(element);
    for k in 0..sums.len() {
        sums[k] ^= power_of(exponent);
        exponent = exponent_sum(exponent, step);
    }
}

// The product of `element` and 2 to the power `i` * `j`.
#[tactic(auto, using(crate::proofs::Named::multiple_facts))]
fn times_power(element: u8, i: u8, j: u8) -> u8
    ensures { result ≡ product element (power (i * j)) }
{
    if element == 0 || i == 0 {
        return element;
    }
    let exponent = u32::from(exponent_of(element)) + u32::from(i) * u32::from(j);
    power_of((exponent % 255) as u8)
}

// The products of `digit` and 2 to the powers 0, `step`, 2 * `step` and so on up to 15 * `step`, one in each byte,
// the first in the lowest byte.
#[tactic(auto, using(crate::proofs::Named::digit_facts))]
fn multiples(step: u8, digit: u8) -> u128
    requires step { step < 31 }
    requires digit { digit < 4 }
    ensures { (k : ℕ) → k < 16 → byte_at k result ≡ product digit (power (k * step)) }
{
    MULTIPLES[4 * usize::from(step) + usize::from(digit)]
}

// Multiplies each of sixteen elements by 4.
fn fourfold(elements: u128) -> u128
    ensures { (k : ℕ) → k < 16 → byte_at k result ≡ product 2 (product 2 (byte_at k elements)) }
{
    doubled(doubled(elements))
}

// Sixteen sums of products. One factor of each product is cut into four digits to the base 4, which have the weights
// 64, 16, 4 and 1. The other factor is a power of 2, and the table `MULTIPLES` has its products with the digits. Each
// field of the struct is for the digits of one weight, and has sixteen sums of such products, one in each byte. Only at
// the end, in `values`, is each field multiplied by its weight, and the four results are added.
#[derive(Clone, Copy)]
pub(crate) struct Sums {
    pub(crate) ones: u128,
    pub(crate) fours: u128,
    pub(crate) sixteens: u128,
    pub(crate) sixty_fours: u128,
}

impl Sums {
    const NONE: Sums = Sums {
        ones: 0,
        fours: 0,
        sixteens: 0,
        sixty_fours: 0,
    };

    // Adds to sum k, for each k from 0 to 15, the product of `factor` and 2 to the power k * `step`.
    #[tactic(auto, using(crate::proofs::Named::digit_facts))]
    fn add(&mut self, factor: u8, step: u8)
        requires { step < 31 }
        ensures { (k : ℕ) → k < 16 → sum_at k self.new ≡ bit_xor (sum_at k self.old) (product factor (power (k * step))) }
    {
        self.ones ^= multiples(step, factor & 3);
        self.fours ^= multiples(step, factor >> 2 & 3);
        self.sixteens ^= multiples(step, factor >> 4 & 3);
        self.sixty_fours ^= multiples(step, factor >> 6);
    }

    fn values(self) -> [u8; 16]
        ensures { (k : ℕ) → k < 16 → slice_index result k ≡ sum_at k self }
    {
        let high = fourfold(self.sixty_fours) ^ self.sixteens;
        let sums = fourfold(fourfold(high) ^ self.fours) ^ self.ones;
        sums.to_le_bytes()
    }
}

// The values at 2 to the powers `first` to `first` + 15 of the polynomial whose coefficients are `terms`, that of the
// lowest power first. `errors.rt` looks for values of the locator that are 0. The loop runs from the last coefficient
// to the first, because the definition `eval` is recursive, and computes its value for a list of coefficients from that
// for the tail of the list.
pub(crate) fn sixteen_values(terms: &[u8], first: u8) -> [u8; 16]
    requires { length terms.now ≤ 31 }
    ensures { (k : ℕ) → k < 16 → slice_index result k ≡ eval (power (first + k)) terms.now }
{
    let mut sums = Sums::NONE;
    for j in (0..terms.len()).rev() {
        let exponent = j as u8;
        sums.add(times_power(terms[j], first, exponent), exponent);
    }
    sums.values()
}

// Sixteen values of a polynomial: those at 2^`first` to 2^(`first` + 15). Its coefficients are `remainder`, with the
// coefficient of the highest power first. The loop runs from the last coefficient to the first, because the definition
// `value_at` is recursive, and computes its value for a list of coefficients from that for the tail of the list.
fn sixteen_syndromes(remainder: &[u8], first: u8) -> [u8; 16]
    requires { length remainder.now ≤ 30 }
    ensures { (k : ℕ) → k < 16 → slice_index result k ≡ value_at (first + k) remainder.now }
{
    let mut sums = Sums::NONE;
    for j in (0..remainder.len()).rev() {
        let exponent = (remainder.len() - 1 - j) as u8;
        sums.add(times_power(remainder[j], first, exponent), exponent);
    }
    sums.values()
}

// Appends the next syndromes of a remainder: sixteen, or all that are left. The list has room for them, so
// `try_extend_from_slice` cannot fail.
pub(crate) fn push_syndromes(syndromes: &mut ArrayVec<u8, 30>, remainder: &[u8])
    requires few { length remainder.now ≤ 30 }
    requires left { array_vec_len syndromes.old < length remainder.now }
    requires values { HasValues syndromes.old.items remainder.now }
    ensures more { array_vec_len syndromes.old < array_vec_len syndromes.new }
    ensures most { array_vec_len syndromes.new ≤ length remainder.now }
    ensures values { HasValues syndromes.new.items remainder.now }
{
    let next = sixteen_syndromes(remainder, syndromes.len() as u8);
    let count = next.len().min(remainder.len() - syndromes.len());
    let _ = syndromes.try_extend_from_slice(&next[..count]);
}

// All syndromes of a remainder, as many as it has coefficients.
#[tactic(auto, using(crate::proofs::Named::value_facts))]
pub(crate) fn syndromes(remainder: &[u8]) -> ArrayVec<u8, 30>
    requires { length remainder.now ≤ 30 }
    ensures count { array_vec_len result ≡ length remainder.now }
    ensures values { HasValues result.items remainder.now }
{
    let mut syndromes = ArrayVec::new();
    while syndromes.len() < remainder.len() {
        push_syndromes(&mut syndromes, remainder);
    }
    syndromes
}
