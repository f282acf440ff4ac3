// The answer of a call as one 64-bit number.
ghost use Rattle.std.specs.Prelude.{◌≡◌, ◌^◌, ◌<◌};
ghost use Rattle.numbers.specs.declared.Refusal.TheVariants.{BadStore};
ghost use Rattle.numbers.specs.Numbers.{only};
ghost use Rattle.state.specs.Packed.{packed};

use numbers::{Answer, Refusal};

// Each field from the bit that the C header gives.
#[tactic(auto, unfolding(crate::specs::Packed::packed))]
pub fn pack(a: Answer) -> u64
    requires { packed a < 2 ^ 64 }
    ensures { result ≡ packed a }
{
    let row = a.refusal.row(0);
    u64::from(row.number)
        + u64::from(a.status) * 0x100
        + u64::from(a.ready) * 0x1_0000
        + u64::from(a.mark) * 0x2_0000
        + u64::from(row.cause) * 0x4_0000
        + u64::from(a.lines) * 0x100_0000
        + u64::from(a.copy) * 0x1_0000_0000
        + u64::from(a.first) * 0x200_0000_0000
        + u64::from(a.count) * 0x2_0000_0000_0000
}

// An answer that tells its number alone.
pub fn number_only(refusal: Refusal) -> u64
    ensures { result ≡ packed (only refusal 0) }
{
    pack(Answer::only(refusal, 0))
}

// What bytes that stand for no printer get.
pub fn unread() -> u64
    ensures { result ≡ packed (only BadStore 0) }
{
    number_only(Refusal::BadStore)
}
