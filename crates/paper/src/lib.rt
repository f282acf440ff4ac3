// Document 02, T-04, "Feet of paper": the manual's sum for a transmission, as a double.
#![tactic(auto)]

ghost use Rattle.std.specs.Prelude.{◌≡◌, false, ◌<◌, ◌^◌};
ghost use Rattle.paper.specs.Feet.{foot_units, sent, bad_paper, product, nearest_to, paper_used};

use copies::Copies;
use numbers::Refusal;

// What is answered: whether the numbers are refused, and the feet. No Result: the C call answers 0 feet with a refusal, and `paper_used` has both.
#[derive(Clone, Copy)]
pub struct Paper {
    pub refusal: Refusal,
    pub feet: f64,
}

impl Paper {
    // A foot in 24ths of an inch.
    const FOOT: f64 = 288.0;
}

// Refusal 16.
#[tactic(auto, unfolding(crate::specs::Feet::bad_paper))]
fn is_bad(copies: u32, form: u32) -> bool
    ensures { result ≡ bad_paper copies form }
{
    !form::fcb::length_listed(form) || !(1..=u32::from(Copies::MOST_COPIES)).contains(&copies)
}

// Pages times copies times form length, exactly.
#[tactic(auto, unfolding(crate::specs::Feet::product))]
fn product(initial: u16, last: u16, copies: u32, form: u32) -> u64
    requires { bad_paper copies form ≡ false }
    ensures { result ≡ product (sent initial last copies form) }
{
    let pages = counters::between(last, initial);
    u64::from(pages) * u64::from(copies) * u64::from(form)
}

// One division, of a number that a double has exactly.
fn feet(product: u64) -> f64
    requires { product < 2 ^ 53 }
    ensures { result ≡ nearest_to product foot_units }
{
    (product as f64) / Paper::FOOT
}

// Refused, or the feet.
#[tactic(auto, unfolding(crate::specs::Feet::paper_used))]
pub fn used(initial: u16, last: u16, copies: u32, form: u32) -> Paper
    ensures { result ≡ paper_used (sent initial last copies form) }
{
    if is_bad(copies, form) {
        Paper {
            refusal: Refusal::BadPaper,
            feet: 0.0,
        }
    } else {
        Paper {
            refusal: Refusal::Accepted,
            feet: feet(product(initial, last, copies, form)),
        }
    }
}
